//! Classes as they are told once.

ghost use Rattle.std.specs.Prelude.{◌≡◌, ◌+◌, ◌≤◌, length, map, take, IfOk};
ghost use Rattle.std.specs.List.{All};
ghost use Rattle.par_step_laws.specs.par_link.Conditions.{IsSmall};
ghost use Rattle.par_step_laws.specs.Fields.{class_statics};
ghost use Rattle.par_method_area.specs.Classes.{IsFileRow, IsClassRow, lines_in, file_lines};
ghost use Rattle.par_method_area.specs.Classes.{line_rows};
ghost use Rattle.par_method_area.specs.Rows.{AreRows};

use crate::channels::ChannelLines;
use crate::fields::{field_rows, object_values, shared_count};
use crate::methods::{MethodRow, method_rows};
use crate::names::ClassNumbers;
use crate::signatures::{Said, signatures};
use par_actions::Field;
use par_base::list::List;
use par_base::memory::NoMemory;
use par_class::file::ClassFile;
use par_values::value::MVal;
use std::alloc::Global;

/// What is told once of a class.
#[derive(Drop)]
pub(crate) struct ClassRow {
    pub(crate) fields: List<Field>,
    /// What the texts of the constant pool say as descriptors of methods, by their indices.
    pub(crate) signatures: List<Said>,
    pub(crate) methods: List<MethodRow>,
    /// What the fields of a new object hold.
    pub(crate) first: Vec<MVal>,
}

/// What is told once of the class of a file, before which so many static fields stand.
fn class_row(
    alloc: Global,
    numbers: &ClassNumbers,
    lines: &ChannelLines,
    file: &ClassFile,
    shared: u32,
) -> Result<ClassRow, NoMemory>
    requires small { IsSmall file.now }
    requires few { shared ≤ 16777216 }
    ensures row { IfOk result (λ row. IsFileRow numbers.now shared file.now row) }
    ensures lines { IfOk result (λ row. lines_in row ≡ file_lines lines.now file.now) }
{
    let signatures = signatures(alloc, numbers, file.pool.entries.as_slice())?;
    let methods = method_rows(alloc, &signatures, lines, file)?;
    Ok(ClassRow {
        fields: field_rows(alloc, numbers, file, shared)?,
        signatures,
        methods,
        first: object_values(alloc, file)?,
    })
}

/// What is told once of the class of each file.
pub(crate) fn class_rows(
    alloc: Global,
    numbers: &ClassNumbers,
    lines: &ChannelLines,
    files: &[ClassFile],
) -> Result<List<ClassRow>, NoMemory>
    requires few { length files.now ≤ 128 }
    requires small { All IsSmall files.now }
    ensures rows { IfOk result (λ rows.
        AreRows (IsClassRow numbers.now files.now) files.now rows) }
    ensures lines { IfOk result (λ rows. map lines_in rows ≡ line_rows files.now lines.now) }
{
    let mut rows = List::new(alloc);
    let mut shared: usize = 0;
    for file in files {
        rows.push(class_row(alloc, numbers, lines, file, shared as u32)?)?;
        shared += shared_count(file);
    }
    Ok(rows)
}
