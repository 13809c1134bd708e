//! The lines of a filling.

ghost use Rattle.std.specs.Prelude.{◌≡◌, ◌≤◌, IfOk, length, map};
ghost use Rattle.par_filling_lines.specs.Texts as spec;

use crate::text::add_join;
use par_base::memory::NoMemory;
use par_infer::FilledField;
use par_told::told_numbers;
use par_typed::table::{FieldInfo, Table};
use std::alloc::Global;

/// The name of a class.
fn class_name(table: &Table, class: u16) -> &[u8]
    ensures { result.now ≡ spec.class_text table.now class }
{
    match table.classes.get(usize::from(class)) {
        Some(class) => class.name.bytes(),
        None => b"",
    }
}

/// The fields of a class.
fn fields_of(table: &Table, class: u16) -> &[FieldInfo]
    ensures { result.now ≡ spec.fields_of table.now class }
{
    match table.classes.get(usize::from(class)) {
        Some(class) => class.fields.as_slice(),
        None => &[],
    }
}

/// The name of a field.
fn field_name(table: &Table, class: u16, field: u16) -> &[u8]
    ensures { result.now ≡ spec.name_text table.now class field }
{
    match fields_of(table, class).get(usize::from(field)) {
        Some(field) => field.name.bytes(),
        None => b"",
    }
}

/// The line of a field, with its end.
fn field_line(alloc: Global, table: &Table, field: &FilledField) -> Result<Vec<u8>, NoMemory>
    requires { length table.now.policies ≤ 256 }
    ensures { IfOk result (λ line. line.items ≡ spec.field_text table.now field.now) }
{
    let numbers = told_numbers(alloc, table.policies.as_slice(), &field.policies)?;
    let mut text = Vec::new(alloc);
    text.extend_from_slice(b"field ")?;
    text.extend_from_slice(class_name(table, field.class))?;
    text.extend_from_slice(b".")?;
    text.extend_from_slice(field_name(table, field.class, field.field))?;
    text.extend_from_slice(b" ")?;
    add_join(&mut text, table, numbers.as_slice())?;
    text.extend_from_slice(b"\n")?;
    Ok(text)
}

/// The line that tells how many fields there are.
fn inferred_line(alloc: Global, number: usize) -> Result<Vec<u8>, NoMemory>
    ensures { IfOk result (λ line. line.items ≡ spec.inferred_text number) }
{
    Ok(format!(in alloc; "inferred {number}\n")?.into_bytes())
}

/// The lines that tell of these fields.
pub fn filling_lines(
    alloc: Global,
    table: &Table,
    fields: &[FilledField],
) -> Result<Vec<Vec<u8>>, NoMemory>
    requires { length table.now.policies ≤ 256 }
    ensures { IfOk result (λ lines.
        map (λ line. line.items) lines.items ≡ spec.filling_lines table.now fields.now) }
{
    let mut lines = Vec::new(alloc);
    for field in fields {
        lines.push(field_line(alloc, table, field)?)?;
    }
    lines.push(inferred_line(alloc, fields.len())?)?;
    Ok(lines)
}
