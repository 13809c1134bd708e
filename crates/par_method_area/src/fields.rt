//! Fields as they are told once: where each stands, and what it takes.

ghost use Rattle.std.specs.Prelude.{◌≡◌, ◌+◌, ◌<◌, ◌≤◌, not, length, map, IfOk, if◌then◌else◌};
ghost use Rattle.std.specs.List.{filter};
ghost use Rattle.par_step_laws.specs.par_link.Conditions.{IsSmall};
ghost use Rattle.par_step_laws.specs.Fields.{is_shared, is_own, kind_of};
ghost use Rattle.par_values.specs.Areas.{first_value};
ghost use Rattle.par_method_area.specs.Fields.{place_behind, row_behind, IsFieldRow};
ghost use Rattle.par_method_area.specs.Rows.{AreRows};

use crate::names::ClassNumbers;
use par_actions::Field;
use par_base::list::List;
use par_base::memory::NoMemory;
use par_class::file::{ClassFile, FieldFile};
use par_pool::constant::Constant;
use par_single::descriptor::{Said, field_said};
use par_single::member::{is_static, text_at};
use par_values::value::MVal;
use std::alloc::Global;

/// How many static fields of a program, and how many fields of an object, stand before a field.
#[derive(Clone, Copy)]
pub(crate) struct Before {
    shared: u32,
    own: u32,
}

impl Before {
    /// The place of a field behind these.
    fn place(self, is_shared: bool) -> u32
        ensures { result ≡ place_behind self.shared self.own is_shared }
    {
        if is_shared { self.shared } else { self.own }
    }

    /// These, and one field more.
    fn and_one(self, is_shared: bool) -> Before
        requires shared { self.shared < 4294967295 }
        requires own { self.own < 4294967295 }
        ensures shared { result.shared ≡ self.shared + (if is_shared then 1 else 0) }
        ensures own { result.own ≡ self.own + (if not is_shared then 1 else 0) }
    {
        if is_shared {
            Before {
                shared: self.shared + 1,
                own: self.own,
            }
        } else {
            Before {
                shared: self.shared,
                own: self.own + 1,
            }
        }
    }
}

/// What is told once of a field.
fn field_row(
    numbers: &ClassNumbers,
    entries: &[Constant],
    field: &FieldFile,
    before: Before,
) -> Field
    ensures { result ≡ row_behind numbers.now entries.now field.now before.shared before.own }
{
    let is_static = is_static(field.access);
    Field {
        is_static,
        fit: numbers.fit(field_said(text_at(entries, field.descriptor))),
        place: before.place(is_static),
    }
}

/// What is told once of each field of a file, before whose class so many static fields stand.
pub(crate) fn field_rows(
    alloc: Global,
    numbers: &ClassNumbers,
    file: &ClassFile,
    shared: u32,
) -> Result<List<Field>, NoMemory>
    requires small { IsSmall file.now }
    requires few { shared ≤ 16777216 }
    ensures { IfOk result (λ rows.
        AreRows (IsFieldRow numbers.now shared file.now) file.now.fields rows) }
{
    let entries = file.pool.entries.as_slice();
    let mut rows = List::new(alloc);
    let mut before = Before { shared, own: 0 };
    for field in file.fields.as_slice() {
        rows.push(field_row(numbers, entries, field, before))?;
        before = before.and_one(is_static(field.access));
    }
    Ok(rows)
}

/// How many static fields a class has.
pub(crate) fn shared_count(file: &ClassFile) -> usize
    ensures { result ≡ length (filter is_shared file.now.fields) }
{
    file.fields
        .as_slice()
        .iter()
        .filter(|field| is_static(field.access))
        .count()
}

/// What a field holds before it is written.
pub(crate) fn first_value(entries: &[Constant], field: &FieldFile) -> MVal
    ensures { result ≡ first_value (kind_of entries.now field.now) }
{
    match field_said(text_at(entries, field.descriptor)) {
        Some(Said::Number) => MVal::Int(0),
        _ => MVal::Null,
    }
}

/// What the fields of a new object hold.
pub(crate) fn object_values(alloc: Global, file: &ClassFile) -> Result<Vec<MVal>, NoMemory>
    ensures { IfOk result (λ values. values.items
        ≡ map (λ f. first_value (kind_of file.now.pool.entries f))
        (filter is_own file.now.fields)) }
{
    let entries = file.pool.entries.as_slice();
    let own = file
        .fields
        .as_slice()
        .iter()
        .filter(|field| !is_static(field.access));
    Ok(own.map(|field| first_value(entries, field)).collect(alloc)?)
}
