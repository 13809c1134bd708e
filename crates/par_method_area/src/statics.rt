//! What the static fields of a program hold before they are written.

ghost use Rattle.std.specs.Prelude.{◌≡◌, IfOk};
ghost use Rattle.par_step_laws.specs.Fields.{first_statics, class_statics, all_statics};

use crate::fields::first_value;
use par_base::list::List;
use par_base::memory::NoMemory;
use par_class::file::ClassFile;
use par_single::member::is_static;
use par_values::value::MVal;
use std::alloc::Global;

/// How many locks have a field.
pub(crate) const LOCKS: usize = 256;

/// What the static fields of a class hold.
fn first_statics(alloc: Global, file: &ClassFile) -> Result<Vec<MVal>, NoMemory>
    ensures { IfOk result (λ values. values.items ≡ first_statics file.now) }
{
    let entries = file.pool.entries.as_slice();
    let shared = file
        .fields
        .as_slice()
        .iter()
        .filter(|field| is_static(field.access));
    Ok(
        shared
            .map(|field| first_value(entries, field))
            .collect(alloc)?,
    )
}

/// What the static fields of some classes hold.
fn class_statics(alloc: Global, files: &[ClassFile]) -> Result<Vec<MVal>, NoMemory>
    ensures { IfOk result (λ values. values.items ≡ class_statics files.now) }
{
    let mut values = Vec::new(alloc);
    for file in files {
        values.extend_from_slice(first_statics(alloc, file)?.as_slice())?;
    }
    Ok(values)
}

/// What all static fields hold, those of the locks too.
pub(crate) fn all_statics(alloc: Global, files: &[ClassFile]) -> Result<List<MVal>, NoMemory>
    ensures { IfOk result (λ values. values ≡ all_statics files.now) }
{
    let mut values = class_statics(alloc, files)?;
    values.extend_from_slice([MVal::Int(0); LOCKS].as_slice())?;
    Ok(List::wrap(values))
}
