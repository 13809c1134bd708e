//! Input files that are not right, and those at the border of what is read.

use crate::hostile_programs::{ONE_CLASS, RUN, class_files};
use par_io::NoMemory;
use par_row_calls::{Answer, answers};
use par_worked::expect;
use std::alloc::{AllocError, Global};
use std::test::Fail;

const TRACE: &str = "paragonc --trace shop.par in.txt 1000";

const BAD_FIRST_LINE: Answer = ("bad inputs line 1\n", 13);

const BAD_SECOND_LINE: Answer = ("bad inputs line 2\n", 13);

/// An input file for the program that shows its key, and the answers of both programs that read it.
const FILES: &[(&str, Answer, Answer)] = &[
    ("Shop.key: 1 \n", BAD_FIRST_LINE, BAD_FIRST_LINE),
    ("Shop.key:1\n", BAD_FIRST_LINE, BAD_FIRST_LINE),
    ("Shop.key: 007\n", BAD_FIRST_LINE, BAD_FIRST_LINE),
    (
        "Shop.key: 1\nShop.key: 1\n",
        BAD_SECOND_LINE,
        BAD_SECOND_LINE,
    ),
    (
        "Shop.key: -0\n",
        ("out Shop.show 0\nend\n", 0),
        ("out Shop.show 0 [Paid]\nend\n", 0),
    ),
];

fn file_is_told(
    alloc: Global,
    inputs: &[u8],
    command: &str,
    answer: Answer,
) -> Result<bool, NoMemory> {
    let mut folder = class_files(alloc, ONE_CLASS)?;
    folder.add("in.txt", inputs)?;
    answers(alloc, command, &mut folder, answer)
}

#[test]
fn both_programs_read_lines(rt: HostRuntime) -> Result<(), Fail> {
    for (inputs, ran, traced) in FILES {
        let file = inputs.as_bytes();
        expect(file_is_told(rt.alloc(), file, RUN, *ran)?, inputs)?;
        expect(file_is_told(rt.alloc(), file, TRACE, *traced)?, inputs)?;
    }
    Ok(())
}

/// As many bytes as an input file may have.
const LONGEST: usize = 1_048_576;

/// A file that is filled up to its length with copies of some bytes, as far as they fit.
fn filled(alloc: Global, front: &str, more: &str, length: usize) -> Result<Vec<u8>, AllocError> {
    let mut file = Vec::from_slice(alloc, front.as_bytes())?;
    for _ in 0..length {
        if file.len().saturating_add(more.len()) <= length {
            file.extend_from_slice(more.as_bytes())?;
        }
    }
    Ok(file)
}

/// The front of a file, what it is filled with, its length, and the answer of the runner.
type Filled = (&'static str, &'static str, usize, Answer);

const LONG_LINES: &[Filled] = &[
    ("", "1", LONGEST, BAD_FIRST_LINE),
    ("", "1", LONGEST + 1, ("too long\n", 8)),
    ("Shop.key: ", "1", LONGEST, BAD_FIRST_LINE),
];

const LONG_FILES: &[Filled] = &[
    (
        "Shop.key:",
        " 1",
        LONGEST - 1,
        ("out Shop.show 1\nend\n", 0),
    ),
    ("", "\n", LONGEST, ("out Shop.show 0\nend\n", 0)),
];

fn filled_is_told(alloc: Global, row: &Filled) -> Result<bool, NoMemory> {
    let file = filled(alloc, row.0, row.1, row.2)?;
    let is_told = file_is_told(alloc, file.as_slice(), RUN, row.3)?;
    Ok(is_told && file.len() == row.2)
}

#[test]
fn long_lines_are_read(rt: HostRuntime) -> Result<(), Fail> {
    for row in LONG_LINES {
        expect(filled_is_told(rt.alloc(), row)?, "digits alone")?;
    }
    Ok(())
}

#[test]
fn long_files_are_read(rt: HostRuntime) -> Result<(), Fail> {
    for row in LONG_FILES {
        expect(filled_is_told(rt.alloc(), row)?, row.0)?;
    }
    Ok(())
}
