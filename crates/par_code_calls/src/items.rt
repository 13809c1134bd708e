//! What items small bodies have, in tables by what stands in them: a proof pays for each table by
//! the square of its size.

use crate::bodies::{GET, IF_ICMPLT, KEY, PAID, RETURN, SET, SHOW, SHUT, Wanted, are_items, code};
use par_code::Labelled;
use par_code_form::opcode::{
    GETFIELD, GETSTATIC, GOTO, IF_ACMPEQ, IF_ACMPNE, IF_ICMPEQ, IFEQ, IFNE, INVOKESPECIAL,
    INVOKEVIRTUAL, NEW, PUTFIELD, PUTSTATIC,
};
use par_instr::Instr;
use par_worked::expect;
use std::alloc::Global;
use std::rt::HostRuntime;
use std::test::Fail;

// A body, and the most operands and the items of its code.
struct Row {
    body: &'static [u8],
    most: u16,
    items: &'static [Wanted],
}

fn check_code(code: &Labelled, row: &Row) -> Result<(), Fail> {
    expect(code.max_stack == row.most, "the most operands")?;
    expect(are_items(code.items.as_slice(), row.items), "the items")
}

fn check_row(alloc: Global, row: &Row) -> Result<(), Fail> {
    let code = code(alloc, row.body)?;
    let checked = check_code(&code, row);
    drop(code);
    checked
}

fn check_rows(alloc: Global, rows: &[Row]) -> Result<(), Fail> {
    for row in rows {
        check_row(alloc, row)?;
    }
    Ok(())
}

const STRAIGHT: &[Row] = &[
    Row {
        body: b"int a = 1;",
        most: 1,
        items: &[Wanted::Const(1), Wanted::Op(Instr::IstoreShort(0)), RETURN],
    },
    Row {
        body: b"int a = key(); show(-a);",
        most: 1,
        items: &[
            KEY,
            Wanted::Op(Instr::IstoreShort(0)),
            Wanted::Op(Instr::IloadShort(0)),
            Wanted::Op(Instr::Ineg),
            SHOW,
            RETURN,
        ],
    },
    Row {
        body: b"got = 1 + 2 * 3;",
        most: 3,
        items: &[
            Wanted::Const(1),
            Wanted::Const(2),
            Wanted::Const(3),
            Wanted::Op(Instr::Imul),
            Wanted::Op(Instr::Iadd),
            SET,
            RETURN,
        ],
    },
    Row {
        body: b"int a = 1; int b = 2; int c = 3; int d = 4; int e = a; got = e;",
        most: 1,
        items: &[
            Wanted::Const(1),
            Wanted::Op(Instr::IstoreShort(0)),
            Wanted::Const(2),
            Wanted::Op(Instr::IstoreShort(1)),
            Wanted::Const(3),
            Wanted::Op(Instr::IstoreShort(2)),
            Wanted::Const(4),
            Wanted::Op(Instr::IstoreShort(3)),
            Wanted::Op(Instr::IloadShort(0)),
            Wanted::Op(Instr::Istore(4)),
            Wanted::Op(Instr::Iload(4)),
            SET,
            RETURN,
        ],
    },
];

#[test]
fn numbers_and_locals_have_these_items(rt: HostRuntime) -> Result<(), Fail> {
    check_rows(rt.alloc(), STRAIGHT)
}

const OPERATORS: &[Row] = &[
    Row {
        body: b"got = got & 1 ^ 2 | 3;",
        most: 2,
        items: &[
            GET,
            Wanted::Const(1),
            Wanted::Op(Instr::Iand),
            Wanted::Const(2),
            Wanted::Op(Instr::Ixor),
            Wanted::Const(3),
            Wanted::Op(Instr::Ior),
            SET,
            RETURN,
        ],
    },
    Row {
        body: b"got = got << 1 >> 2 >>> 3;",
        most: 2,
        items: &[
            GET,
            Wanted::Const(1),
            Wanted::Op(Instr::Ishl),
            Wanted::Const(2),
            Wanted::Op(Instr::Ishr),
            Wanted::Const(3),
            Wanted::Op(Instr::Iushr),
            SET,
            RETURN,
        ],
    },
    Row {
        body: b"got = got - 1 / 2 % 3;",
        most: 3,
        items: &[
            GET,
            Wanted::Const(1),
            Wanted::Const(2),
            Wanted::Op(Instr::Idiv),
            Wanted::Const(3),
            Wanted::Op(Instr::Irem),
            Wanted::Op(Instr::Isub),
            SET,
            RETURN,
        ],
    },
];

#[test]
fn operators_have_these_items(rt: HostRuntime) -> Result<(), Fail> {
    check_rows(rt.alloc(), OPERATORS)
}

const COMPARISONS: &[Row] = &[
    Row {
        body: b"boolean a = got <= 1; boolean b = got > 2;",
        most: 2,
        items: &[
            GET,
            Wanted::Const(1),
            Wanted::Jump(IF_ICMPEQ + 5, 0),
            Wanted::Const(0),
            Wanted::Jump(GOTO, 1),
            Wanted::Label(0),
            Wanted::Const(1),
            Wanted::Label(1),
            Wanted::Op(Instr::IstoreShort(0)),
            GET,
            Wanted::Const(2),
            Wanted::Jump(IF_ICMPEQ + 4, 2),
            Wanted::Const(0),
            Wanted::Jump(GOTO, 3),
            Wanted::Label(2),
            Wanted::Const(1),
            Wanted::Label(3),
            Wanted::Op(Instr::IstoreShort(1)),
            RETURN,
        ],
    },
    Row {
        body: b"boolean a = got >= 1; boolean b = got != 2;",
        most: 2,
        items: &[
            GET,
            Wanted::Const(1),
            Wanted::Jump(IF_ICMPEQ + 3, 0),
            Wanted::Const(0),
            Wanted::Jump(GOTO, 1),
            Wanted::Label(0),
            Wanted::Const(1),
            Wanted::Label(1),
            Wanted::Op(Instr::IstoreShort(0)),
            GET,
            Wanted::Const(2),
            Wanted::Jump(IF_ICMPEQ + 1, 2),
            Wanted::Const(0),
            Wanted::Jump(GOTO, 3),
            Wanted::Label(2),
            Wanted::Const(1),
            Wanted::Label(3),
            Wanted::Op(Instr::IstoreShort(1)),
            RETURN,
        ],
    },
    Row {
        body: b"boolean a = new Item() != null;",
        most: 2,
        items: &[
            Wanted::Class(NEW, "Item"),
            Wanted::Op(Instr::Dup),
            Wanted::Member(INVOKESPECIAL, "Item", "<init>", "()V"),
            Wanted::Op(Instr::AconstNull),
            Wanted::Jump(IF_ACMPNE, 0),
            Wanted::Const(0),
            Wanted::Jump(GOTO, 1),
            Wanted::Label(0),
            Wanted::Const(1),
            Wanted::Label(1),
            Wanted::Op(Instr::IstoreShort(0)),
            RETURN,
        ],
    },
];

#[test]
fn comparisons_have_these_items(rt: HostRuntime) -> Result<(), Fail> {
    check_rows(rt.alloc(), COMPARISONS)
}

const LOGIC: &[Row] = &[
    Row {
        body: b"boolean b = got == 1 && !true;",
        most: 2,
        items: &[
            GET,
            Wanted::Const(1),
            Wanted::Jump(IF_ICMPEQ, 1),
            Wanted::Const(0),
            Wanted::Jump(GOTO, 2),
            Wanted::Label(1),
            Wanted::Const(1),
            Wanted::Label(2),
            Wanted::Op(Instr::Dup),
            Wanted::Jump(IFEQ, 0),
            Wanted::Op(Instr::Pop),
            Wanted::Const(1),
            Wanted::Jump(IFEQ, 3),
            Wanted::Const(0),
            Wanted::Jump(GOTO, 4),
            Wanted::Label(3),
            Wanted::Const(1),
            Wanted::Label(4),
            Wanted::Label(0),
            Wanted::Op(Instr::IstoreShort(0)),
            RETURN,
        ],
    },
    Row {
        body: b"boolean b = true || false;",
        most: 2,
        items: &[
            Wanted::Const(1),
            Wanted::Op(Instr::Dup),
            Wanted::Jump(IFNE, 0),
            Wanted::Op(Instr::Pop),
            Wanted::Const(0),
            Wanted::Label(0),
            Wanted::Op(Instr::IstoreShort(0)),
            RETURN,
        ],
    },
];

#[test]
fn parts_that_are_skipped_have_these_items(rt: HostRuntime) -> Result<(), Fail> {
    check_rows(rt.alloc(), LOGIC)
}

const BRANCHES: &[Row] = &[
    Row {
        body: b"if (1 < 2) { got = 1; } else { got = 2; }",
        most: 2,
        items: &[
            Wanted::Const(1),
            Wanted::Const(2),
            Wanted::Jump(IF_ICMPLT, 2),
            Wanted::Const(0),
            Wanted::Jump(GOTO, 3),
            Wanted::Label(2),
            Wanted::Const(1),
            Wanted::Label(3),
            Wanted::Jump(IFEQ, 0),
            Wanted::Const(1),
            SET,
            Wanted::Jump(GOTO, 1),
            Wanted::Label(0),
            Wanted::Const(2),
            SET,
            Wanted::Label(1),
            RETURN,
        ],
    },
    Row {
        body: b"if (got == 1) { return; } got = 2;",
        most: 2,
        items: &[
            GET,
            Wanted::Const(1),
            Wanted::Jump(IF_ICMPEQ, 2),
            Wanted::Const(0),
            Wanted::Jump(GOTO, 3),
            Wanted::Label(2),
            Wanted::Const(1),
            Wanted::Label(3),
            Wanted::Jump(IFEQ, 0),
            RETURN,
            Wanted::Label(0),
            Wanted::Label(1),
            Wanted::Const(2),
            SET,
            RETURN,
        ],
    },
    Row {
        body: b"open Paid; when (Paid) { got = 1; } close Paid;",
        most: 1,
        items: &[
            Wanted::Const(1),
            Wanted::Lock(PUTSTATIC, PAID),
            Wanted::Lock(GETSTATIC, PAID),
            Wanted::Jump(IFEQ, 0),
            Wanted::Const(1),
            SET,
            Wanted::Jump(GOTO, 1),
            Wanted::Label(0),
            Wanted::Label(1),
            Wanted::Const(0),
            Wanted::Lock(PUTSTATIC, PAID),
            RETURN,
        ],
    },
];

#[test]
fn branches_have_these_items(rt: HostRuntime) -> Result<(), Fail> {
    check_rows(rt.alloc(), BRANCHES)
}

const LOOPS: &[Row] = &[
    Row {
        body: b"while (true) { break; }",
        most: 0,
        items: &[
            Wanted::Label(0),
            Wanted::Jump(GOTO, 1),
            Wanted::Label(1),
            RETURN,
        ],
    },
    Row {
        body: b"while (got < 3) { got = got + 1; }",
        most: 2,
        items: &[
            Wanted::Label(0),
            GET,
            Wanted::Const(3),
            Wanted::Jump(IF_ICMPLT, 2),
            Wanted::Const(0),
            Wanted::Jump(GOTO, 3),
            Wanted::Label(2),
            Wanted::Const(1),
            Wanted::Label(3),
            Wanted::Jump(IFEQ, 1),
            GET,
            Wanted::Const(1),
            Wanted::Op(Instr::Iadd),
            SET,
            Wanted::Jump(GOTO, 0),
            Wanted::Label(1),
            RETURN,
        ],
    },
    Row {
        body: b"while (key() == 1) { continue; }",
        most: 2,
        items: &[
            Wanted::Label(0),
            KEY,
            Wanted::Const(1),
            Wanted::Jump(IF_ICMPEQ, 2),
            Wanted::Const(0),
            Wanted::Jump(GOTO, 3),
            Wanted::Label(2),
            Wanted::Const(1),
            Wanted::Label(3),
            Wanted::Jump(IFEQ, 1),
            Wanted::Jump(GOTO, 0),
            Wanted::Label(1),
            RETURN,
        ],
    },
    Row {
        body: b"while (true) { return; }",
        most: 0,
        items: &[Wanted::Label(0), RETURN, Wanted::Label(1)],
    },
];

#[test]
fn loops_have_these_items(rt: HostRuntime) -> Result<(), Fail> {
    check_rows(rt.alloc(), LOOPS)
}

const OBJECTS: &[Row] = &[
    Row {
        body: b"Item i = new Item(); i.f = i.me().take(2); got = i.f;",
        most: 3,
        items: &[
            Wanted::Class(NEW, "Item"),
            Wanted::Op(Instr::Dup),
            Wanted::Member(INVOKESPECIAL, "Item", "<init>", "()V"),
            Wanted::Op(Instr::AstoreShort(0)),
            Wanted::Op(Instr::AloadShort(0)),
            Wanted::Op(Instr::AloadShort(0)),
            Wanted::Member(INVOKEVIRTUAL, "Item", "me", "()LItem;"),
            Wanted::Const(2),
            Wanted::Member(INVOKEVIRTUAL, "Item", "take", "(I)I"),
            Wanted::Member(PUTFIELD, "Item", "f", "I"),
            Wanted::Op(Instr::AloadShort(0)),
            Wanted::Member(GETFIELD, "Item", "f", "I"),
            SET,
            RETURN,
        ],
    },
    Row {
        body: b"Item i = null; boolean b = i == null; i.me();",
        most: 2,
        items: &[
            Wanted::Op(Instr::AconstNull),
            Wanted::Op(Instr::AstoreShort(0)),
            Wanted::Op(Instr::AloadShort(0)),
            Wanted::Op(Instr::AconstNull),
            Wanted::Jump(IF_ACMPEQ, 0),
            Wanted::Const(0),
            Wanted::Jump(GOTO, 1),
            Wanted::Label(0),
            Wanted::Const(1),
            Wanted::Label(1),
            Wanted::Op(Instr::IstoreShort(1)),
            Wanted::Op(Instr::AloadShort(0)),
            Wanted::Member(INVOKEVIRTUAL, "Item", "me", "()LItem;"),
            Wanted::Op(Instr::Pop),
            RETURN,
        ],
    },
    Row {
        body: b"Item i = new Item(); got = 1 + i.take(2 + key());",
        most: 4,
        items: &[
            Wanted::Class(NEW, "Item"),
            Wanted::Op(Instr::Dup),
            Wanted::Member(INVOKESPECIAL, "Item", "<init>", "()V"),
            Wanted::Op(Instr::AstoreShort(0)),
            Wanted::Const(1),
            Wanted::Op(Instr::AloadShort(0)),
            Wanted::Const(2),
            KEY,
            Wanted::Op(Instr::Iadd),
            Wanted::Member(INVOKEVIRTUAL, "Item", "take", "(I)I"),
            Wanted::Op(Instr::Iadd),
            SET,
            RETURN,
        ],
    },
];

#[test]
fn objects_have_these_items(rt: HostRuntime) -> Result<(), Fail> {
    check_rows(rt.alloc(), OBJECTS)
}

const EXCEPTIONS: &[Row] = &[
    Row {
        body: b"throw new Bad();",
        most: 2,
        items: &[
            Wanted::Class(NEW, "Bad"),
            Wanted::Op(Instr::Dup),
            Wanted::Member(INVOKESPECIAL, "Bad", "<init>", "()V"),
            Wanted::Op(Instr::Athrow),
        ],
    },
    Row {
        body: b"try { shut(); } catch (Bad e) { got = 1; }",
        most: 1,
        items: &[
            Wanted::Label(0),
            SHUT,
            Wanted::Jump(GOTO, 2),
            Wanted::Label(1),
            Wanted::Label(3),
            Wanted::Op(Instr::Pop),
            Wanted::Const(1),
            SET,
            Wanted::Jump(GOTO, 2),
            Wanted::Label(2),
            RETURN,
        ],
    },
    Row {
        body: b"while (got < 3) { try { shut(); break; } catch (Bad e) { continue; } }",
        most: 2,
        items: &[
            Wanted::Label(0),
            GET,
            Wanted::Const(3),
            Wanted::Jump(IF_ICMPLT, 2),
            Wanted::Const(0),
            Wanted::Jump(GOTO, 3),
            Wanted::Label(2),
            Wanted::Const(1),
            Wanted::Label(3),
            Wanted::Jump(IFEQ, 1),
            Wanted::Label(4),
            SHUT,
            Wanted::Jump(GOTO, 1),
            Wanted::Label(5),
            Wanted::Label(7),
            Wanted::Op(Instr::Pop),
            Wanted::Jump(GOTO, 0),
            Wanted::Label(6),
            Wanted::Label(1),
            RETURN,
        ],
    },
];

#[test]
fn exceptions_have_these_items(rt: HostRuntime) -> Result<(), Fail> {
    check_rows(rt.alloc(), EXCEPTIONS)
}
