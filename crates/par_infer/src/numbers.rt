//! The numbers of inferred fields.

ghost use Rattle.std.specs.Prelude.{◌≡◌, ◌<◌, ℕ, ◌||◌, IsTrue};
ghost use Rattle.par_bits.specs.Sets.{has};
ghost use Rattle.par_program_laws.specs.Inferred.{inferred, inferred_among, inferred_in};

use par_atoms::Atoms;
use par_typed::table::{ClassInfo, FieldInfo, Table};

// The set with the numbers of the inferred ones among these fields.
fn with_fields(numbers: Atoms, fields: &[FieldInfo]) -> Atoms
    requires { (n : ℕ) → IsTrue (inferred_among fields.now n) → n < 256 }
    ensures { (n : ℕ) → has result n ≡ (has numbers n || inferred_among fields.now n) }
{
    let mut result = numbers;
    for field in fields {
        if field.inferred {
            result = result.with(field.policy);
        }
    }
    result
}

// The set with the numbers of the inferred fields of these classes.
fn with_classes(numbers: Atoms, classes: &[ClassInfo]) -> Atoms
    requires { (n : ℕ) → IsTrue (inferred_in classes.now n) → n < 256 }
    ensures { (n : ℕ) → has result n ≡ (has numbers n || inferred_in classes.now n) }
{
    let mut result = numbers;
    for class in classes {
        result = with_fields(result, class.fields.as_slice());
    }
    result
}

/// The numbers of the inferred fields of a table.
pub fn inferred_numbers(table: &Table) -> Atoms
    requires { (n : ℕ) → IsTrue (inferred table.now n) → n < 256 }
    ensures { (n : ℕ) → has result n ≡ inferred table.now n }
{
    with_classes(Atoms::empty(), table.classes.as_slice())
}
