//! What the crates of rows share: calls of the tool over files and output in memory, the common
//! source, and the functions that go over a table. Nothing but tests stands on it, and no clause
//! says what they do, as none says what a test does.
#![tactic(auto)]

use par_io::{MemFolder, MemSink, NoMemory};
use par_tool::tool::tool;
use par_words::Which;
use par_worked::expect;
use std::alloc::{AllocError, Global};
use std::test::Fail;

/// What a call puts, and the status that it answers.
pub type Answer = (&'static str, u8);

/// A source is accepted, and nothing is written.
pub const ACCEPTED: Answer = ("accepted\n", 0);

/// A source with one class is accepted, and its class file is written.
pub const COMPILED: Answer = ("accepted 1\n", 0);

/// A body that reads the key and shows it.
pub const SHOWS_KEY: &str = "open Paid; show(key());";

/// An input file with one number for the key.
pub const KEY_42: &str = "Shop.key: 42\n";

/// The common source. Its method puts out 1.
const LINES: [&str; 10] = [
    "actor alice, bob;",
    "lock Paid;",
    "class Shop {",
    "?{alice:; bob: Paid} input int key();",
    "?{alice:; bob:} output void show(int v);",
    "?{alice:; bob:} static int got;",
    "static void main() !bottom {",
    "show(1);",
    "}",
    "}",
];

/// Lines by their numbers, counted from 1.
pub type Lines = &'static [(usize, &'static str)];

/// The line of that number, or this one where there is none.
fn line_of<'a>(lines: &[(usize, &'a str)], number: usize, line: &'a str) -> &'a str {
    match lines.iter().find(|row| row.0 == number) {
        Some(row) => row.1,
        None => line,
    }
}

/// The common source with other lines in place of some.
pub fn with_lines(alloc: Global, lines: &[(usize, &str)]) -> Result<String, AllocError> {
    let mut source = String::new(alloc);
    for (place, line) in LINES.iter().enumerate() {
        source.push_str(line_of(lines, place + 1, line))?;
        source.push_str("\n")?;
    }
    Ok(source)
}

/// The common source with another line in place of one, counted from 1.
pub fn with_line(alloc: Global, number: usize, text: &str) -> Result<String, AllocError> {
    let mut source = String::new(alloc);
    for (place, line) in LINES.iter().enumerate() {
        source.push_str(if place + 1 == number { text } else { line })?;
        source.push_str("\n")?;
    }
    Ok(source)
}

/// The common source, whose method has this body.
pub fn with_body(alloc: Global, body: &str) -> Result<String, AllocError> {
    with_line(alloc, 8, body)
}

/// The words behind the program's name, as the system hands them over.
fn words(alloc: Global, command: &str) -> Result<Vec<String>, AllocError> {
    let mut words = Vec::new(alloc);
    for word in command.split_ascii_whitespace().skip(1) {
        words.push(String::from_str(alloc, word)?)?;
    }
    Ok(words)
}

/// Does what the command says, and tells the status.
pub fn call(
    alloc: Global,
    command: &str,
    folder: &mut MemFolder,
    out: &mut MemSink,
) -> Result<u8, AllocError> {
    let which = if command.starts_with("paragonc") {
        Which::Compiler
    } else {
        Which::Runner
    };
    let words = words(alloc, command)?;
    Ok(tool(alloc, which, words.as_slice(), folder, out))
}

/// Whether a command has this answer.
pub fn answers(
    alloc: Global,
    command: &str,
    folder: &mut MemFolder,
    answer: Answer,
) -> Result<bool, NoMemory> {
    let mut out = MemSink::new(alloc, 1000)?;
    let status = call(alloc, command, folder, &mut out)?;
    Ok((status, out.bytes()) == (answer.1, answer.0.as_bytes()))
}

/// A folder with a source.
pub fn folder_of(alloc: Global, source: &str) -> Result<MemFolder, NoMemory> {
    let mut folder = MemFolder::new(alloc);
    folder.add("shop.par", source.as_bytes())?;
    Ok(folder)
}

/// A folder with a source, once it was compiled, and an input file.
pub fn compiled(alloc: Global, source: &str, inputs: &str) -> Result<MemFolder, NoMemory> {
    let mut folder = folder_of(alloc, source)?;
    let mut out = MemSink::new(alloc, 100)?;
    call(alloc, "paragonc shop.par", &mut folder, &mut out)?;
    folder.add("in.txt", inputs.as_bytes())?;
    Ok(folder)
}

/// Whether a source is checked with this answer.
pub fn checks_as(alloc: Global, source: &str, answer: Answer) -> Result<bool, NoMemory> {
    let mut folder = folder_of(alloc, source)?;
    answers(alloc, "paragonc --check shop.par", &mut folder, answer)
}

/// Whether a command over a source and an input file has this answer.
pub fn traces_as(
    alloc: Global,
    source: &str,
    inputs: &str,
    command: &str,
    answer: Answer,
) -> Result<bool, NoMemory> {
    let mut folder = folder_of(alloc, source)?;
    folder.add("in.txt", inputs.as_bytes())?;
    answers(alloc, command, &mut folder, answer)
}

/// Whether a source is compiled so, and a command over its class files and inputs answers so.
pub fn runs_as(alloc: Global, run: &(&str, &str, Answer, &str, Answer)) -> Result<bool, NoMemory> {
    let mut folder = folder_of(alloc, run.0)?;
    folder.add("in.txt", run.1.as_bytes())?;
    let is_compiled = answers(alloc, "paragonc shop.par", &mut folder, run.2)?;
    Ok(is_compiled && answers(alloc, run.3, &mut folder, run.4)?)
}

/// Checks the common source with a line in place of that one.
pub fn line_checks_as(
    alloc: Global,
    number: usize,
    line: &str,
    answer: Answer,
) -> Result<bool, NoMemory> {
    let source = with_line(alloc, number, line)?;
    checks_as(alloc, source.as_str(), answer)
}

/// The last of some lines, which names a row.
pub fn last_of(lines: Lines) -> &'static str {
    match lines.last() {
        Some(line) => line.1,
        None => "",
    }
}

/// Rows of the common source with other lines.
pub fn check_all(alloc: Global, rows: &[(Lines, Answer)]) -> Result<(), Fail> {
    for (lines, answer) in rows {
        let source = with_lines(alloc, lines)?;
        expect(checks_as(alloc, source.as_str(), *answer)?, last_of(lines))?;
    }
    Ok(())
}

/// Rows of sources.
pub fn check_sources(alloc: Global, rows: &[(&'static str, Answer)]) -> Result<(), Fail> {
    for (source, answer) in rows {
        expect(checks_as(alloc, source, *answer)?, source)?;
    }
    Ok(())
}

/// Rows of the common source with another line.
pub fn check_lines(alloc: Global, rows: &[(usize, &'static str, Answer)]) -> Result<(), Fail> {
    for (number, line, answer) in rows {
        expect(line_checks_as(alloc, *number, line, *answer)?, line)?;
    }
    Ok(())
}

/// Rows of the common source with another body.
pub fn check_bodies(alloc: Global, rows: &[(&'static str, Answer)]) -> Result<(), Fail> {
    for (body, answer) in rows {
        expect(line_checks_as(alloc, 8, body, *answer)?, body)?;
    }
    Ok(())
}

/// A row's name, the body of the common source, what stands in the input file, a command, and its
/// answer.
pub type Row = (
    &'static str,
    &'static str,
    &'static str,
    &'static str,
    Answer,
);

fn row_holds(alloc: Global, row: &Row) -> Result<bool, NoMemory> {
    let source = with_body(alloc, row.1)?;
    let mut folder = compiled(alloc, source.as_str(), row.2)?;
    answers(alloc, row.3, &mut folder, row.4)
}

/// Rows of commands over the common source, once it was compiled.
pub fn check_rows(alloc: Global, rows: &[Row]) -> Result<(), Fail> {
    for row in rows {
        expect(row_holds(alloc, row)?, row.0)?;
    }
    Ok(())
}
