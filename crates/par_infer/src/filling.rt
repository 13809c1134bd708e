//! Fields with the policies that are found for them.

ghost use Rattle.std.specs.Prelude.{◌≡◌, ◌<◌, ◌≤◌, ◌++◌, ℕ, IsTrue, OnOk, IfOk, length};
ghost use Rattle.std.specs.List.{AllByRecursion};
ghost use Rattle.par_program_laws.specs.Inferred.{inferred_among, inferred_in};
ghost use Rattle.par_program_laws.specs.WellDeclared.{HasFewFields};
ghost use Rattle.par_infer.specs.Filled.{filled_field, filled_among, filled_in};

use par_atoms::Atoms;
use par_base::list::List;
use par_base::memory::NoMemory;
use par_typed::table::{ClassInfo, FieldInfo};
use std::alloc::Global;

/// An inferred field, and the numbers of the policies whose join is the least for it. None of them
/// is that of an inferred field.
#[derive(Drop)]
pub struct FilledField {
    pub class: u16,
    pub field: u16,
    pub policies: Atoms,
}

/// Policies for all inferred fields of a program, in source order.
#[derive(Drop)]
pub struct Filling {
    pub fields: List<FilledField>,
}

// The field with the set of its number, if it is inferred.
fn fill_field(
    info: &FieldInfo,
    class: u16,
    field: u16,
    sets: &[Atoms],
    filled: &mut List<FilledField>,
) -> Result<(), NoMemory>
    requires { IsTrue info.now.inferred → info.now.policy < length sets.now }
    ensures { OnOk result (filled.new
        ≡ filled.old ++ filled_field sets.now class field info.now) }
{
    if info.inferred {
        filled.push(FilledField {
            class,
            field,
            policies: sets[usize::from(info.policy)],
        })?;
    }
    Ok(())
}

// The inferred ones of these fields.
fn fill_fields(
    fields: &[FieldInfo],
    class: u16,
    sets: &[Atoms],
    filled: &mut List<FilledField>,
) -> Result<(), NoMemory>
    requires few { length fields.now ≤ 65536 }
    requires inside { (n : ℕ) → IsTrue (inferred_among fields.now n) → n < length sets.now }
    ensures { OnOk result (filled.new
        ≡ filled.old ++ filled_among sets.now class 0 fields.now) }
{
    for (place, info) in fields.iter().enumerate() {
        fill_field(info, class, place as u16, sets, filled)?;
    }
    Ok(())
}

/// The inferred fields of these classes, with the sets of their numbers.
pub fn fill(alloc: Global, classes: &[ClassInfo], sets: &[Atoms]) -> Result<Filling, NoMemory>
    requires few { length classes.now ≤ 65536 }
    requires fields { AllByRecursion HasFewFields classes.now }
    requires inside { (n : ℕ) → IsTrue (inferred_in classes.now n) → n < length sets.now }
    ensures { IfOk result (λ filling. filling.fields ≡ filled_in sets.now 0 classes.now) }
{
    let mut fields = List::new(alloc);
    for (place, class) in classes.iter().enumerate() {
        fill_fields(class.fields.as_slice(), place as u16, sets, &mut fields)?;
    }
    Ok(Filling { fields })
}
