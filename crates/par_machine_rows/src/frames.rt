//! Class files with frames, without them, and with frames where none can stand.

use crate::hand_made::folder_with;
use par_io::{MemFolder, NoMemory};
use par_row_calls::{Answer, answers};
use par_worked::expect;
use std::alloc::Global;
use std::test::Fail;

/// The constants of a class A with a method `main`, and all up to the attributes of its code.
const BEHIND_VERSION: &[u8] = &[
    0, 9, 1, 0, 1, b'A', 7, 0, 1, 1, 0, 16, b'j', b'a', b'v', b'a', b'/', b'l', b'a', b'n', b'g',
    b'/', b'O', b'b', b'j', b'e', b'c', b't', 7, 0, 3, 1, 0, 4, b'm', b'a', b'i', b'n', 1, 0, 3,
    b'(', b')', b'V', 1, 0, 4, b'C', b'o', b'd', b'e', 1, 0, 13, b'S', b't', b'a', b'c', b'k',
    b'M', b'a', b'p', b'T', b'a', b'b', b'l', b'e', 0, 49, 0, 2, 0, 4, 0, 0, 0, 0, 0, 1, 0, 9, 0,
    5, 0, 6, 0, 1, 0, 7,
];

/// A branch to offset 4, behind a zero, and a return behind it.
const BRANCH: [u8; 5] = [3, 0x99, 0, 3, 0xb1];

/// A jump over a return to another one, at offset 4.
const JUMP: [u8; 5] = [0xa7, 0, 4, 0xb1, 0xb1];

/// Zeros that are pushed and popped, and a return.
const STRAIGHT: [u8; 5] = [3, 87, 3, 87, 0xb1];

// How many bytes the tables of frames have, as attributes.
fn length_of(tables: &[&[u8]]) -> usize {
    let mut length: usize = 0;
    for table in tables {
        length = length.saturating_add(table.len()).saturating_add(6);
    }
    length
}

// Puts a length as four bytes, of which the first two are 0.
fn put_length(file: &mut Vec<u8>, length: usize) -> Result<(), NoMemory> {
    let [high, low] = (length.min(65_535) as u16).to_be_bytes();
    file.extend_from_slice(&[0, 0, high, low])?;
    Ok(())
}

// Puts the tables of frames, each as an attribute.
fn put_tables(file: &mut Vec<u8>, tables: &[&[u8]]) -> Result<(), NoMemory> {
    file.extend_from_slice(&[0, 0, 0, tables.len().min(255) as u8])?;
    for table in tables {
        file.extend_from_slice(&[0, 8])?;
        put_length(file, table.len())?;
        file.extend_from_slice(table)?;
    }
    Ok(())
}

/// Code without handlers, with its room for operands, the number of its locals and its tables of
/// frames.
#[derive(Clone, Copy)]
pub struct FramedCode<'a> {
    pub room: u16,
    pub locals: u16,
    pub bytes: &'a [u8],
    pub tables: &'a [&'a [u8]],
}

// Puts a Code attribute behind its name.
fn put_code(file: &mut Vec<u8>, code: FramedCode<'_>) -> Result<(), NoMemory> {
    let length = length_of(code.tables).saturating_add(code.bytes.len());
    put_length(file, length.saturating_add(12))?;
    file.extend_from_slice(&code.room.to_be_bytes())?;
    file.extend_from_slice(&code.locals.to_be_bytes())?;
    put_length(file, code.bytes.len())?;
    file.extend_from_slice(code.bytes)?;
    put_tables(file, code.tables)
}

// Puts what stands behind the version.
fn put_all(file: &mut Vec<u8>, code: FramedCode<'_>) -> Result<(), NoMemory> {
    file.extend_from_slice(BEHIND_VERSION)?;
    put_code(file, code)?;
    file.extend_from_slice(&[0, 0])?;
    Ok(())
}

/// The class file of A in this version, whose method has this code.
pub fn class_a(alloc: Global, version: u8, code: FramedCode<'_>) -> Result<Vec<u8>, NoMemory> {
    let mut file = [0xca, 0xfe, 0xba, 0xbe, 0, 0, 0, version].to_vec(alloc)?;
    put_all(&mut file, code)?;
    Ok(file)
}

/// What a run of A says where its method has the frames that it needs.
const FRAMED: Answer = ("end\n", 0);

/// What it says where the method has none of its own.
const UNFRAMED: Answer = ("bad class A 46 0\n", 12);

/// A row's name, the version of A, its code, its tables of frames, and what a run says.
type FrameRow = (&'static str, u8, [u8; 5], &'static [&'static [u8]], Answer);

const ROWS: &[FrameRow] = &[
    ("no frame where a branch goes", 51, BRANCH, &[], UNFRAMED),
    ("its frame", 51, BRANCH, &[&[0, 1, 4]], FRAMED),
    (
        "a frame at no instruction",
        51,
        BRANCH,
        &[&[0, 1, 5]],
        UNFRAMED,
    ),
    ("version 49 needs no frames", 49, BRANCH, &[], FRAMED),
    ("nor does version 50", 50, BRANCH, &[], FRAMED),
    (
        "frames of version 50 are passed over",
        50,
        BRANCH,
        &[&[0, 1, 5]],
        FRAMED,
    ),
    ("a table of no frames", 51, BRANCH, &[&[0, 0]], UNFRAMED),
    (
        "a frame more, at the first instruction",
        51,
        BRANCH,
        &[&[0, 2, 0, 3]],
        FRAMED,
    ),
    (
        "a later distance counts from behind the frame before",
        51,
        BRANCH,
        &[&[0, 2, 0, 4]],
        UNFRAMED,
    ),
    (
        "two tables",
        51,
        BRANCH,
        &[&[0, 1, 4], &[0, 1, 4]],
        UNFRAMED,
    ),
    (
        "two tables where none is needed",
        51,
        STRAIGHT,
        &[&[0, 0], &[0, 0]],
        UNFRAMED,
    ),
    (
        "a byte behind the frames",
        51,
        BRANCH,
        &[&[0, 1, 4, 0]],
        UNFRAMED,
    ),
    ("a frame too few", 51, BRANCH, &[&[0, 2, 4]], UNFRAMED),
    ("a tag that is none", 51, BRANCH, &[&[0, 1, 200]], UNFRAMED),
    (
        "the long form of the same frame",
        51,
        BRANCH,
        &[&[0, 1, 251, 0, 4]],
        FRAMED,
    ),
    (
        "the full form of the same frame",
        51,
        BRANCH,
        &[&[0, 1, 255, 0, 4, 0, 0, 0, 0]],
        FRAMED,
    ),
    (
        "a cut of more locals than are listed",
        51,
        BRANCH,
        &[&[0, 1, 250, 0, 4]],
        UNFRAMED,
    ),
    (
        "more locals than the method has",
        51,
        BRANCH,
        &[&[0, 1, 252, 0, 4, 1]],
        UNFRAMED,
    ),
    (
        "an operand, though none lies there",
        51,
        BRANCH,
        &[&[0, 1, 68, 1]],
        FRAMED,
    ),
    (
        "more operands than there is room for",
        51,
        BRANCH,
        &[&[0, 1, 255, 0, 4, 0, 0, 0, 2, 1, 1]],
        UNFRAMED,
    ),
    (
        "an operand of a float",
        51,
        BRANCH,
        &[&[0, 1, 68, 2]],
        UNFRAMED,
    ),
    (
        "an operand of a class",
        51,
        BRANCH,
        &[&[0, 1, 68, 7, 0, 2]],
        FRAMED,
    ),
    (
        "an operand of a class by what is a text",
        51,
        BRANCH,
        &[&[0, 1, 68, 7, 0, 1]],
        UNFRAMED,
    ),
    (
        "frames behind a jump and where it goes",
        51,
        JUMP,
        &[&[0, 2, 3, 0]],
        FRAMED,
    ),
    ("none behind a jump", 51, JUMP, &[&[0, 1, 4]], UNFRAMED),
    ("none where a jump goes", 51, JUMP, &[&[0, 1, 3]], UNFRAMED),
    ("none behind the last return", 51, STRAIGHT, &[], FRAMED),
    (
        "none behind a return",
        51,
        [3, 87, 0xb1, 0xb1, 0xb1],
        &[],
        UNFRAMED,
    ),
];

/// A folder with the class file of a row, and an empty input file.
fn folder_of(alloc: Global, row: &FrameRow) -> Result<MemFolder, NoMemory> {
    let code = FramedCode {
        room: 1,
        locals: 0,
        bytes: &row.2,
        tables: row.3,
    };
    let file = class_a(alloc, row.1, code)?;
    folder_with(alloc, &[("A.class", file.as_slice())], "")
}

/// Whether a run of A on these input files has this answer.
fn runs_as(alloc: Global, row: &FrameRow, inputs: &str, answer: Answer) -> Result<bool, NoMemory> {
    let mut folder = folder_of(alloc, row)?;
    let command = format!(in alloc; "paragon A {inputs} 9")?;
    answers(alloc, command.as_str(), &mut folder, answer)
}

#[test]
fn frames_stand_where_they_are_needed(rt: HostRuntime) -> Result<(), Fail> {
    for row in ROWS {
        expect(runs_as(rt.alloc(), row, "in.txt", row.4)?, row.0)?;
    }
    Ok(())
}

#[test]
fn frames_are_looked_at_before_inputs(rt: HostRuntime) -> Result<(), Fail> {
    for row in ROWS {
        let answer = if row.4.1 == 0 { ("absent\n", 3) } else { row.4 };
        expect(runs_as(rt.alloc(), row, "none.txt", answer)?, row.0)?;
    }
    Ok(())
}
