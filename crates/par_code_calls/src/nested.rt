//! Handlers and labels of a `try` that stands in another one or in a loop.

use crate::bodies::{GET, IF_ICMPLT, KEY, RETURN, SET, SHUT, Wanted, are_items, code, have_labels};
use par_code::{Handler, Labelled};
use par_code_form::opcode::{GOTO, IF_ICMPEQ, IFEQ};
use par_instr::Instr;
use par_worked::expect;
use std::alloc::Global;
use std::rt::HostRuntime;
use std::test::Fail;

// The labels of a handler of `Bad`.
struct Caught {
    from: u32,
    to: u32,
    goes: u32,
}

// A body, and the handlers, the labels of frames and the items of its code.
struct Row {
    body: &'static [u8],
    handlers: &'static [Caught],
    labels: &'static [u32],
    items: &'static [Wanted],
}

const ROWS: &[Row] = &[
    // Three deep, each in the block of the next.
    Row {
        body: b"try { try { try { shut(); } catch (Bad a) { got = 1; } } \
            catch (Bad b) { got = 2; } }
            catch (Bad c) { got = 3; }",
        handlers: &[
            Caught {
                from: 6,
                to: 7,
                goes: 9,
            },
            Caught {
                from: 3,
                to: 4,
                goes: 10,
            },
            Caught {
                from: 0,
                to: 1,
                goes: 11,
            },
        ],
        labels: &[9, 8, 10, 5, 11, 2],
        items: &[
            Wanted::Label(0),
            Wanted::Label(3),
            Wanted::Label(6),
            SHUT,
            Wanted::Jump(GOTO, 8),
            Wanted::Label(7),
            Wanted::Label(9),
            Wanted::Op(Instr::Pop),
            Wanted::Const(1),
            SET,
            Wanted::Jump(GOTO, 8),
            Wanted::Label(8),
            Wanted::Jump(GOTO, 5),
            Wanted::Label(4),
            Wanted::Label(10),
            Wanted::Op(Instr::Pop),
            Wanted::Const(2),
            SET,
            Wanted::Jump(GOTO, 5),
            Wanted::Label(5),
            Wanted::Jump(GOTO, 2),
            Wanted::Label(1),
            Wanted::Label(11),
            Wanted::Op(Instr::Pop),
            Wanted::Const(3),
            SET,
            Wanted::Jump(GOTO, 2),
            Wanted::Label(2),
            RETURN,
        ],
    },
    // In a catch of another one, whose block has ended.
    Row {
        body: b"try { shut(); } catch (Bad a) { try { shut(); } catch (Bad b) { got = 1; } }",
        handlers: &[
            Caught {
                from: 0,
                to: 1,
                goes: 3,
            },
            Caught {
                from: 4,
                to: 5,
                goes: 7,
            },
        ],
        labels: &[3, 7, 6, 2],
        items: &[
            Wanted::Label(0),
            SHUT,
            Wanted::Jump(GOTO, 2),
            Wanted::Label(1),
            Wanted::Label(3),
            Wanted::Op(Instr::Pop),
            Wanted::Label(4),
            SHUT,
            Wanted::Jump(GOTO, 6),
            Wanted::Label(5),
            Wanted::Label(7),
            Wanted::Op(Instr::Pop),
            Wanted::Const(1),
            SET,
            Wanted::Jump(GOTO, 6),
            Wanted::Label(6),
            Wanted::Jump(GOTO, 2),
            Wanted::Label(2),
            RETURN,
        ],
    },
    // In a loop, which the block leaves by `continue` and the catch by `break`.
    Row {
        body: b"while (got < 3) { try { if (key() == 0) { continue; } shut(); }
            catch (Bad e) { break; } got = 1; }",
        handlers: &[Caught {
            from: 4,
            to: 5,
            goes: 11,
        }],
        labels: &[0, 2, 3, 9, 10, 7, 11, 6, 1],
        items: &[
            Wanted::Label(0),
            GET,
            Wanted::Const(3),
            Wanted::Jump(IF_ICMPLT, 2),
            Wanted::Const(0),
            Wanted::Jump(GOTO, 3),
            Wanted::Label(2),
            Wanted::Const(1),
            Wanted::Label(3),
            Wanted::Jump(IFEQ, 1),
            Wanted::Label(4),
            KEY,
            Wanted::Const(0),
            Wanted::Jump(IF_ICMPEQ, 9),
            Wanted::Const(0),
            Wanted::Jump(GOTO, 10),
            Wanted::Label(9),
            Wanted::Const(1),
            Wanted::Label(10),
            Wanted::Jump(IFEQ, 7),
            Wanted::Jump(GOTO, 0),
            Wanted::Label(7),
            Wanted::Label(8),
            SHUT,
            Wanted::Jump(GOTO, 6),
            Wanted::Label(5),
            Wanted::Label(11),
            Wanted::Op(Instr::Pop),
            Wanted::Jump(GOTO, 1),
            Wanted::Label(6),
            Wanted::Const(1),
            SET,
            Wanted::Jump(GOTO, 0),
            Wanted::Label(1),
            RETURN,
        ],
    },
    // A loop in a `try`, whose catch lies outside of it.
    Row {
        body: b"try { while (true) { shut(); } } catch (Bad e) { got = 1; }",
        handlers: &[Caught {
            from: 0,
            to: 1,
            goes: 5,
        }],
        labels: &[3, 5, 2],
        items: &[
            Wanted::Label(0),
            Wanted::Label(3),
            SHUT,
            Wanted::Jump(GOTO, 3),
            Wanted::Label(4),
            Wanted::Label(1),
            Wanted::Label(5),
            Wanted::Op(Instr::Pop),
            Wanted::Const(1),
            SET,
            Wanted::Jump(GOTO, 2),
            Wanted::Label(2),
            RETURN,
        ],
    },
];

fn are_handlers(handlers: &[Handler], wanted: &[Caught]) -> bool {
    if handlers.len() != wanted.len() {
        return false;
    }
    for (handler, wanted) in handlers.iter().zip(wanted) {
        let same = handler.from == wanted.from
            && handler.to == wanted.to
            && handler.goes == wanted.goes
            && handler.class.bytes() == b"Bad".as_slice();
        if !same {
            return false;
        }
    }
    true
}

fn check_code(code: &Labelled, row: &Row) -> Result<(), Fail> {
    expect(
        are_items(code.items.as_slice(), row.items),
        "the items of a nested try",
    )?;
    expect(
        are_handlers(code.handlers.as_slice(), row.handlers),
        "the handlers of a nested try",
    )?;
    expect(
        have_labels(code.frames.as_slice(), row.labels),
        "the frames of a nested try",
    )
}

fn check_row(alloc: Global, row: &Row) -> Result<(), Fail> {
    let code = code(alloc, row.body)?;
    let checked = check_code(&code, row);
    drop(code);
    checked
}

fn check_rows(alloc: Global, rows: &[Row]) -> Result<(), Fail> {
    for row in rows {
        check_row(alloc, row)?;
    }
    Ok(())
}

#[test]
fn nested_handlers_stand_in_their_order(rt: HostRuntime) -> Result<(), Fail> {
    check_rows(rt.alloc(), ROWS)
}
