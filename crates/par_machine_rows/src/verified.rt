//! Class files that are verified: some are compiled, most have a `main` that is made by hand.

use crate::hand_made::{Code, Handler, files_run_as, with_code};
use par_io::NoMemory;
use par_row_calls::{Answer, KEY_42, answers, compiled, with_lines};
use par_worked::expect;
use std::alloc::Global;
use std::test::Fail;

const VERIFY: &str = "paragon --verify Shop";

const ONE: Answer = ("verified 1\n", 0);

const TWO: Answer = ("verified 2\n", 0);

const UNFIT: Answer = ("bad class Shop 47 0\n", 12);

// A class `Shop` up to what its one method, a static `main`, has as code.
const SHOP: &[u8] = b"\
    \xca\xfe\xba\xbe\0\0\01\0\x08\x01\0\x04Shop\x07\0\x01\x01\0\x10java/lang/Object\x07\0\x03\
    \x01\0\x04main\x01\0\x03()V\x01\0\x04Code\01\0\x02\0\x04\0\0\0\0\0\x01\0\x09\0\x05\0\x06\0\
    \x01\0\x07";

/// Whether a compiled program of two classes is verified.
fn two_are_verified(alloc: Global) -> Result<bool, NoMemory> {
    let source = with_lines(
        alloc,
        &[
            (
                2,
                "lock Paid; class Box ?{alice:; bob:} { ?{alice:; bob:} int held; }",
            ),
            (8, "notnull Box b = new Box(); b.held = 3; show(b.held);"),
        ],
    )?;
    let mut folder = compiled(alloc, source.as_str(), KEY_42)?;
    answers(alloc, VERIFY, &mut folder, TWO)
}

#[test]
fn compiled_classes_are_verified(rt: HostRuntime) -> Result<(), Fail> {
    expect(two_are_verified(rt.alloc())?, "two classes")
}

/// A name, the room for operands, the number of locals, the code, its handlers, and the answer.
type Row = (
    &'static str,
    u8,
    u8,
    &'static [u8],
    &'static [Handler],
    Answer,
);

const ROWS: &[Row] = &[
    ("a return alone", 0, 0, b"\xb1", &[], ONE),
    (
        "a third operand, where there is room for two",
        2,
        0,
        b"\x04\x04\x04\xb1",
        &[],
        UNFIT,
    ),
    (
        "a local holds null or a number, and is not read",
        2,
        1,
        b"\x04\x99\x00\x08\x01\x4b\xa7\x00\x05\x03\x3b\xb1",
        &[],
        ONE,
    ),
    (
        "a local holds null or a number, and is read",
        2,
        1,
        b"\x04\x99\x00\x08\x01\x4b\xa7\x00\x05\x03\x3b\x1a\x57\xb1",
        &[],
        UNFIT,
    ),
    (
        "a local holds null where a loop comes back",
        1,
        1,
        b"\x03\x3b\x1a\x57\x01\x4b\xa7\xff\xfc",
        &[],
        UNFIT,
    ),
    (
        "a local holds another number where a loop comes back",
        1,
        1,
        b"\x03\x3b\x1a\x57\x04\x3b\xa7\xff\xfc",
        &[],
        ONE,
    ),
    ("a number is returned", 1, 0, b"\x04\xac", &[], UNFIT),
    ("a number is thrown", 1, 0, b"\x04\xbf", &[], UNFIT),
    ("null is thrown", 1, 0, b"\x01\xbf", &[], ONE),
    ("code has no end", 1, 0, b"\x04\x57", &[], UNFIT),
    (
        "a handler reads a local that is set before what it covers",
        1,
        1,
        b"\x03\x3b\x04\x57\xb1\x57\x1a\x57\xb1",
        &[[2, 4, 5, 0]],
        ONE,
    ),
    (
        "a handler reads a local that is set by what it covers",
        1,
        1,
        b"\x03\x3b\x04\x57\xb1\x57\x1a\x57\xb1",
        &[[1, 2, 5, 0]],
        UNFIT,
    ),
    (
        "a handler, and no room for the exception",
        0,
        0,
        b"\xb1\xb1",
        &[[0, 1, 1, 0]],
        UNFIT,
    ),
];

fn row_holds(alloc: Global, row: &Row) -> Result<bool, NoMemory> {
    let code = Code {
        room: row.1,
        locals: row.2,
        bytes: row.3,
        handlers: row.4,
    };
    let shop = with_code(alloc, SHOP, code)?;
    files_run_as(alloc, &[("Shop.class", shop.as_slice())], VERIFY, row.5)
}

#[test]
fn code_is_verified(rt: HostRuntime) -> Result<(), Fail> {
    for row in ROWS {
        expect(row_holds(rt.alloc(), row)?, row.0)?;
    }
    Ok(())
}
