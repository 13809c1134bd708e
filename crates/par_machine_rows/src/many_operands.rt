//! Methods that are verified with more operands or locals than a piece of a frame has, 256.

use crate::frames::{FramedCode, class_a};
use crate::hand_made::files_run_as;
use par_io::NoMemory;
use par_row_calls::Answer;
use par_worked::expect;
use std::alloc::Global;
use std::test::Fail;

const VERIFY: &str = "paragon --verify A";

const FIT: Answer = ("verified 1\n", 0);

const UNFIT: Answer = ("bad class A 47 0\n", 12);

/// For how many operands a method has room.
const ROOM: u16 = 600;

/// How many locals a method has.
const LOCALS: u16 = 300;

/// Bytes, so many times.
type Times = (usize, &'static [u8]);

/// The code of a method `main`, its table of frames if they are told, and whether frames fit.
struct Row {
    name: &'static str,
    code: &'static [Times],
    frames: &'static [Times],
    answer: Answer,
}

/// 300 nulls, and behind them a branch to the return at offset 306.
const BRANCH: &[Times] = &[(300, b"\x01"), (1, b"\x03\x99\x00\x05\x03\x57\xb1")];

/// Behind a return, which is not gone on from, null that the first local is set to.
const SETS: &[Times] = &[(1, b"\xb1\x01\x4b\xb1")];

/// The same where no local is set.
const SETS_NONE: &[Times] = &[(1, b"\xb1\x01\x57\xb1")];

const ROWS: &[Row] = &[
    Row {
        name: "as many operands as there is room for",
        code: &[(600, b"\x01"), (1, b"\xb1")],
        frames: &[],
        answer: FIT,
    },
    Row {
        name: "one operand more",
        code: &[(601, b"\x01"), (1, b"\xb1")],
        frames: &[],
        answer: UNFIT,
    },
    Row {
        name: "the 256th operand and the 513th are null, the others numbers, and are stored so",
        code: &[
            (255, b"\x03"),
            (1, b"\x01"),
            (256, b"\x03"),
            (1, b"\x01\x4b"),
            (256, b"\x3b"),
            (1, b"\x4b"),
            (255, b"\x3b"),
            (1, b"\xb1"),
        ],
        frames: &[],
        answer: FIT,
    },
    Row {
        name: "the 256th operand is null, and is stored as a number",
        code: &[
            (255, b"\x03"),
            (1, b"\x01"),
            (256, b"\x03"),
            (257, b"\x3b"),
            (1, b"\xb1"),
        ],
        frames: &[],
        answer: UNFIT,
    },
    Row {
        name: "a loop under 300 operands",
        code: &[(300, b"\x01"), (1, b"\x03\x57\xa7\xff\xfe")],
        frames: &[],
        answer: FIT,
    },
    Row {
        name: "two ways push 300 nulls each, and meet",
        code: &[
            (1, b"\x03\x99\x01\x32"),
            (300, b"\x01"),
            (1, b"\xa7\x01\x2f"),
            (300, b"\x01"),
            (1, b"\xb1"),
        ],
        frames: &[],
        answer: FIT,
    },
    Row {
        name: "one of two ways pushes a null less",
        code: &[
            (1, b"\x03\x99\x01\x32"),
            (300, b"\x01"),
            (1, b"\xa7\x01\x2e"),
            (299, b"\x01"),
            (1, b"\xb1"),
        ],
        frames: &[],
        answer: UNFIT,
    },
    Row {
        name: "the 256th operand is a number or null, and is popped",
        code: &[
            (1, b"\x03\x99\x01\x32"),
            (255, b"\x01"),
            (1, b"\x03"),
            (44, b"\x01"),
            (1, b"\xa7\x01\x2f"),
            (300, b"\x01"),
            (45, b"\x57"),
            (1, b"\xb1"),
        ],
        frames: &[],
        answer: FIT,
    },
    Row {
        name: "the 256th operand is a number or null, and is stored as a number",
        code: &[
            (1, b"\x03\x99\x01\x32"),
            (255, b"\x01"),
            (1, b"\x03"),
            (44, b"\x01"),
            (1, b"\xa7\x01\x2f"),
            (300, b"\x01"),
            (44, b"\x57"),
            (1, b"\x3b\xb1"),
        ],
        frames: &[],
        answer: UNFIT,
    },
    Row {
        name: "the 256th operand is a number on both ways, and is stored as one",
        code: &[
            (1, b"\x03\x99\x01\x32"),
            (255, b"\x01"),
            (1, b"\x03"),
            (44, b"\x01"),
            (1, b"\xa7\x01\x2f"),
            (255, b"\x01"),
            (1, b"\x03"),
            (44, b"\x01"),
            (44, b"\x57"),
            (1, b"\x3b\xb1"),
        ],
        frames: &[],
        answer: FIT,
    },
    Row {
        name: "the 257th operand is a number or null, and is stored as a number",
        code: &[
            (1, b"\x03\x99\x01\x32"),
            (256, b"\x01"),
            (1, b"\x03"),
            (43, b"\x01"),
            (1, b"\xa7\x01\x2f"),
            (300, b"\x01"),
            (43, b"\x57"),
            (1, b"\x3b\xb1"),
        ],
        frames: &[],
        answer: UNFIT,
    },
    Row {
        name: "the 256th operand is an object or null, and is stored as one",
        code: &[
            (1, b"\x03\x99\x01\x34"),
            (255, b"\x01"),
            (1, b"\xbb\x00\x02"),
            (44, b"\x01"),
            (1, b"\xa7\x01\x2f"),
            (300, b"\x01"),
            (44, b"\x57"),
            (1, b"\x4b\xb1"),
        ],
        frames: &[],
        answer: FIT,
    },
    Row {
        name: "300 nulls are told under which a branch goes",
        code: BRANCH,
        frames: &[(1, b"\0\x01\xff\x01\x32\0\0\x01\x2c"), (300, b"\x05")],
        answer: FIT,
    },
    Row {
        name: "299 nulls are told there",
        code: BRANCH,
        frames: &[(1, b"\0\x01\xff\x01\x32\0\0\x01\x2b"), (299, b"\x05")],
        answer: UNFIT,
    },
    Row {
        name: "the 257th operand is told to be a number",
        code: BRANCH,
        frames: &[
            (1, b"\0\x01\xff\x01\x32\0\0\x01\x2c"),
            (256, b"\x05"),
            (1, b"\x01"),
            (43, b"\x05"),
        ],
        answer: UNFIT,
    },
    Row {
        name: "the 257th operand is told to be an object",
        code: BRANCH,
        frames: &[
            (1, b"\0\x01\xff\x01\x32\0\0\x01\x2c"),
            (256, b"\x05"),
            (1, b"\x07\0\x02"),
            (43, b"\x05"),
        ],
        answer: FIT,
    },
    Row {
        name: "the 256th operand is told to be an object",
        code: BRANCH,
        frames: &[
            (1, b"\0\x01\xff\x01\x32\0\0\x01\x2c"),
            (255, b"\x05"),
            (1, b"\x07\0\x02"),
            (44, b"\x05"),
        ],
        answer: FIT,
    },
    Row {
        name: "300 numbers are told, and null and 299 behind what sets the first local",
        code: SETS,
        frames: &[
            (1, b"\0\x02\xff\0\x01\x01\x2c"),
            (300, b"\x01"),
            (1, b"\0\0\xff\0\x01\x01\x2c\x05"),
            (299, b"\x01"),
            (1, b"\0\0"),
        ],
        answer: FIT,
    },
    Row {
        name: "300 numbers are told before and behind it",
        code: SETS,
        frames: &[
            (1, b"\0\x02\xff\0\x01\x01\x2c"),
            (300, b"\x01"),
            (1, b"\0\0\xff\0\x01\x01\x2c"),
            (300, b"\x01"),
            (1, b"\0\0"),
        ],
        answer: UNFIT,
    },
    Row {
        name: "the 257th local is a number, and null behind it",
        code: SETS,
        frames: &[
            (1, b"\0\x02\xff\0\x01\x01\x2c"),
            (300, b"\x01"),
            (1, b"\0\0\xff\0\x01\x01\x2c\x05"),
            (255, b"\x01"),
            (1, b"\x05"),
            (43, b"\x01"),
            (1, b"\0\0"),
        ],
        answer: UNFIT,
    },
    Row {
        name: "the 257th local is a number, and anything behind it",
        code: SETS,
        frames: &[
            (1, b"\0\x02\xff\0\x01\x01\x2c"),
            (300, b"\x01"),
            (1, b"\0\0\xff\0\x01\x01\x2c\x05"),
            (255, b"\x01"),
            (1, b"\0"),
            (43, b"\x01"),
            (1, b"\0\0"),
        ],
        answer: FIT,
    },
    Row {
        name: "the last of 257 locals is cut",
        code: SETS_NONE,
        frames: &[
            (1, b"\0\x02\xff\0\x01\x01\x01"),
            (257, b"\x01"),
            (1, b"\0\0\xfa\0\x01"),
        ],
        answer: FIT,
    },
    Row {
        name: "a number is told behind 256 locals, though none is set",
        code: SETS_NONE,
        frames: &[
            (1, b"\0\x02\xff\0\x01\x01\0"),
            (256, b"\x01"),
            (1, b"\0\0\xfc\0\x01\x01"),
        ],
        answer: UNFIT,
    },
];

/// Puts bytes behind others so many times.
fn put_times(all: &mut Vec<u8>, times: usize, bytes: &[u8]) -> Result<(), NoMemory> {
    for _time in 0..times {
        all.extend_from_slice(bytes)?;
    }
    Ok(())
}

fn bytes_of(alloc: Global, parts: &[Times]) -> Result<Vec<u8>, NoMemory> {
    let mut all = Vec::new(alloc);
    for (times, bytes) in parts {
        put_times(&mut all, *times, bytes)?;
    }
    Ok(all)
}

/// A class A. Its version is the one in which frames are told, or one in which they are sought.
fn class_file(alloc: Global, row: &Row) -> Result<Vec<u8>, NoMemory> {
    let version = if row.frames.is_empty() { 49 } else { 51 };
    let bytes = bytes_of(alloc, row.code)?;
    let frames = bytes_of(alloc, row.frames)?;
    let tables = [frames.as_slice()];
    let code = FramedCode {
        room: ROOM,
        locals: LOCALS,
        bytes: bytes.as_slice(),
        tables: &tables,
    };
    class_a(alloc, version, code)
}

fn row_holds(alloc: Global, row: &Row) -> Result<bool, NoMemory> {
    let file = class_file(alloc, row)?;
    files_run_as(alloc, &[("A.class", file.as_slice())], VERIFY, row.answer)
}

#[test]
fn long_frames_are_verified(rt: HostRuntime) -> Result<(), Fail> {
    for row in ROWS {
        expect(row_holds(rt.alloc(), row)?, row.name)?;
    }
    Ok(())
}
