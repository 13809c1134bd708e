//! Methods as they are told once: what each gives, where the instructions of its code start, and
//! which line is that of its channel.

ghost use Rattle.std.specs.Prelude.{◌≡◌, ℕ, map, IfOk};
ghost use Rattle.par_method_area.specs.Methods.{StandIn, StartAt, IsMethodRow, line_in, line_row};
ghost use Rattle.par_method_area.specs.Rows.{AreRows};

use crate::channels::ChannelLines;
use crate::signatures::{Said, gives_at};
use par_actions::Gives;
use par_base::list::List;
use par_base::memory::NoMemory;
use par_class::file::{ClassFile, CodeAttr, MethodFile};
use par_single::member::{is_initializer, own_name, text_at};
use par_starts::{Instructions, Starts};
use std::alloc::Global;

/// What is told once of a method.
#[derive(Drop)]
pub(crate) struct MethodRow {
    pub(crate) is_initializer: bool,
    pub(crate) gives: Gives,
    /// The place of the line of the channel of its name.
    pub(crate) line: Option<usize>,
    pub(crate) starts: Starts,
    pub(crate) instructions: Instructions,
}

/// Where the instructions of code start, nowhere where there is none.
fn starts(alloc: Global, code: &Option<CodeAttr>) -> Result<Starts, NoMemory>
    ensures { IfOk result (λ starts. StartAt code.now starts) }
{
    match code {
        None => Starts::of(alloc, &[]),
        Some(code) => Starts::of(alloc, code.code.as_slice()),
    }
}

/// The instructions of code that start there, none where there is none.
fn instructions(
    alloc: Global,
    code: &Option<CodeAttr>,
    starts: &Starts,
) -> Result<Instructions, NoMemory>
    requires { StartAt code.now starts.now }
    ensures { IfOk result (StandIn code.now) }
{
    match code {
        None => Instructions::of(alloc, &[], starts),
        Some(code) => Instructions::of(alloc, code.code.as_slice(), starts),
    }
}

/// What is told once of a method of a file, whose descriptors say this.
fn method_row(
    alloc: Global,
    signatures: &List<Said>,
    lines: &ChannelLines,
    file: &ClassFile,
    method: &MethodFile,
) -> Result<MethodRow, NoMemory>
    ensures row { IfOk result (λ row.
        (place : ℕ) → IsMethodRow signatures.now file.now place method.now row) }
    ensures line { IfOk result (λ row. row.line ≡ line_row lines.now file.now method.now) }
{
    let entries = file.pool.entries.as_slice();
    let name = text_at(entries, method.name);
    let descriptor = text_at(entries, method.descriptor);
    let starts = starts(alloc, &method.code)?;
    let instructions = instructions(alloc, &method.code, &starts)?;
    Ok(MethodRow {
        is_initializer: is_initializer(name, descriptor),
        gives: gives_at(signatures, method.descriptor),
        line: lines.line(own_name(file), name),
        starts,
        instructions,
    })
}

/// What is told once of each method of a file, whose descriptors say this.
pub(crate) fn method_rows(
    alloc: Global,
    signatures: &List<Said>,
    lines: &ChannelLines,
    file: &ClassFile,
) -> Result<List<MethodRow>, NoMemory>
    ensures rows { IfOk result (λ rows.
        AreRows (IsMethodRow signatures.now file.now) file.now.methods rows) }
    ensures lines { IfOk result (λ rows.
        map line_in rows ≡ map (line_row lines.now file.now) file.now.methods) }
{
    let mut rows = List::new(alloc);
    for method in file.methods.as_slice() {
        rows.push(method_row(alloc, signatures, lines, file, method)?)?;
    }
    Ok(rows)
}
