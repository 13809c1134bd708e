//! What births ask the policies of inferred fields to be above.

ghost use Rattle.std.specs.Prelude.{◌<◌, ℕ, IsTrue, length};
ghost use Rattle.std.specs.List.{AllByRecursion};
ghost use Rattle.par_program_laws.specs.Inferred.{inferred_among, inferred_in};
ghost use Rattle.par_infer.specs.Bounds.{born_above, births_above};
ghost use Rattle.par_infer.specs.Collected.{Gains};
ghost use Rattle.par_infer.specs.Births.{born_once, every};

use par_atoms::Atoms;
use par_typed::table::{ClassInfo, FieldInfo};

// Notes that an inferred field of objects is to be above the birth policy.
fn note_field(field: &FieldInfo, birth: u16, sets: &mut [Atoms])
    requires few { birth < 256 }
    requires inside { IsTrue field.now.inferred → field.now.policy < length sets.old }
    ensures { Gains every sets.old sets.new (born_once birth field.now) }
{
    if field.inferred && !field.is_static {
        let place = usize::from(field.policy);
        sets[place] = sets[place].with(birth);
    }
}

// Notes so for these fields.
fn note_fields(fields: &[FieldInfo], birth: u16, sets: &mut [Atoms])
    requires few { birth < 256 }
    requires inside { (n : ℕ) → IsTrue (inferred_among fields.now n) → n < length sets.old }
    ensures { Gains every sets.old sets.new (born_above birth fields.now) }
{
    for field in fields {
        note_field(field, birth, sets);
    }
}

/// Notes that the inferred fields of objects are to be above the birth policies of their classes.
pub fn note_births(classes: &[ClassInfo], sets: &mut [Atoms])
    requires few { AllByRecursion (λ c. c.birth < 256) classes.now }
    requires inside { (n : ℕ) → IsTrue (inferred_in classes.now n) → n < length sets.old }
    ensures { Gains every sets.old sets.new (births_above classes.now) }
{
    for class in classes {
        note_fields(class.fields.as_slice(), class.birth, sets);
    }
}
