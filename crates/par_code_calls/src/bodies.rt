//! What code small bodies have, over the trees that the reader and the typing give, with ample
//! memory.

use par_code::{Handler, Item, LabelFrame, Labelled, Slot, code_of};
use par_code_form::opcode::{GETSTATIC, IF_ICMPEQ, INVOKESTATIC, PUTSTATIC};
use par_erase::{Plain, erase};
use par_instr::Instr;
use par_typed_sources::with_main;
use par_worked::expect;
use std::alloc::Global;
use std::rt::HostRuntime;
use std::test::Fail;

// What stands before the body of `main`.
pub const BEFORE: &[u8] = b"lock Paid;
class Bad extends Exception { }
class Item { int f; Item me() { return this; } int take(int n) { return n; } }
class Shop {
  input int key();
  output void show(int v);
  static int got;
  static void shut() { throw new Bad(); }
  static void main() {
";

pub const PAID: u16 = 0;

pub const IF_ICMPLT: u8 = IF_ICMPEQ + 2;

/// An item as it is written here.
#[derive(Clone, Copy)]
pub enum Wanted {
    Label(u32),
    Op(Instr),
    Const(i32),
    Jump(u8, u32),
    Member(u8, &'static str, &'static str, &'static str),
    Class(u8, &'static str),
    Lock(u8, u16),
}

pub const KEY: Wanted = Wanted::Member(INVOKESTATIC, "Shop", "key", "()I");

pub const SHOW: Wanted = Wanted::Member(INVOKESTATIC, "Shop", "show", "(I)V");

pub const SHUT: Wanted = Wanted::Member(INVOKESTATIC, "Shop", "shut", "()V");

pub const GET: Wanted = Wanted::Member(GETSTATIC, "Shop", "got", "I");

pub const SET: Wanted = Wanted::Member(PUTSTATIC, "Shop", "got", "I");

pub const RETURN: Wanted = Wanted::Op(Instr::Return);

pub fn is_item(item: &Item, wanted: Wanted) -> bool {
    match wanted {
        Wanted::Label(wanted) => match item {
            Item::Label(label) => *label == wanted,
            _ => false,
        },
        Wanted::Op(wanted) => match item {
            Item::Op(instr) => *instr == wanted,
            _ => false,
        },
        Wanted::Const(wanted) => match item {
            Item::Const(number) => *number == wanted,
            _ => false,
        },
        Wanted::Jump(branch, to) => match item {
            Item::Jump(opcode, label) => *opcode == branch && *label == to,
            _ => false,
        },
        Wanted::Member(wanted, owner, named, ty) => match item {
            Item::Member(opcode, class, name, descriptor) => {
                *opcode == wanted
                    && class.bytes() == owner.as_bytes()
                    && name.as_slice() == named.as_bytes()
                    && descriptor.as_slice() == ty.as_bytes()
            }
            _ => false,
        },
        Wanted::Class(wanted, name) => match item {
            Item::ClassOp(opcode, class) => *opcode == wanted && class.bytes() == name.as_bytes(),
            _ => false,
        },
        Wanted::Lock(wanted, number) => match item {
            Item::LockOp(opcode, lock) => *opcode == wanted && *lock == number,
            _ => false,
        },
    }
}

pub fn are_items(items: &[Item], wanted: &[Wanted]) -> bool {
    if items.len() != wanted.len() {
        return false;
    }
    for (item, wanted) in items.iter().zip(wanted) {
        if !is_item(item, *wanted) {
            return false;
        }
    }
    true
}

fn program(alloc: Global, body: &[u8]) -> Result<Plain, Fail> {
    let typed = with_main(alloc, BEFORE, body)?;
    let plain = erase(alloc, &typed);
    drop(typed);
    Ok(plain?)
}

pub fn code(alloc: Global, body: &[u8]) -> Result<Labelled, Fail> {
    let plain = program(alloc, body)?;
    let code = code_of(alloc, &plain, SHOP, MAIN);
    drop(plain);
    Ok(code?)
}

// The numbers of classes, and of methods there.
const ITEM: u16 = 3;

pub const SHOP: u16 = 4;

const TAKE: u16 = 1;

pub const MAIN: u16 = 1;

const CAUGHT: &[u8] = b"int a = 1; try { shut(); } catch (Bad e) { int b = 2; while (true) { } }";

fn is_int(slot: &Slot) -> bool {
    matches!(slot, Slot::Int)
}

fn is_unset(slot: &Slot) -> bool {
    matches!(slot, Slot::Unset)
}

// Two locals, of which the first `ints` are in scope, all of them numbers.
fn are_locals(frame: &LabelFrame, ints: usize) -> bool {
    let locals = frame.locals.as_slice();
    if locals.len() != 2 {
        return false;
    }
    for (place, slot) in locals.iter().enumerate() {
        if (place < ints && !is_int(slot)) || (place >= ints && !is_unset(slot)) {
            return false;
        }
    }
    true
}

fn has_handler(handlers: &[Handler]) -> bool {
    let [handler] = handlers else {
        return false;
    };
    let range = handler.from == 0 && handler.to == 1 && handler.goes == 3;
    range && handler.class.bytes() == b"Bad".as_slice()
}

// The exception lies at the catch, and no operand behind the try.
fn are_frames(frames: &[LabelFrame]) -> bool {
    let [caught, again, behind] = frames else {
        return false;
    };
    let of_catch = caught.label == 3 && are_locals(caught, 1) && caught.stack.len() == 1;
    let of_loop = again.label == 4 && are_locals(again, 2);
    let of_end = behind.label == 2 && are_locals(behind, 1) && behind.stack.len() == 0;
    of_catch && of_loop && of_end
}

fn check_caught(code: &Labelled) -> Result<(), Fail> {
    expect(code.max_locals == 2, "the locals")?;
    expect(code.start.as_slice().is_empty(), "the start")?;
    expect(has_handler(code.handlers.as_slice()), "the handler")?;
    expect(are_frames(code.frames.as_slice()), "the frames")
}

#[test]
fn a_catch_has_a_handler_and_a_frame(rt: HostRuntime) -> Result<(), Fail> {
    let code = code(rt.alloc(), CAUGHT)?;
    let checked = check_caught(&code);
    drop(code);
    checked
}

const TAKEN: &[Wanted] = &[Wanted::Op(Instr::IloadShort(1)), Wanted::Op(Instr::Ireturn)];

// An Item and a number.
fn is_start(start: &[Slot]) -> bool {
    let [receiver, number] = start else {
        return false;
    };
    match receiver {
        Slot::Class(class) => is_int(number) && class.bytes() == b"Item".as_slice(),
        _ => false,
    }
}

fn code_of_take(alloc: Global) -> Result<Labelled, Fail> {
    let plain = program(alloc, b"")?;
    let code = code_of(alloc, &plain, ITEM, TAKE);
    drop(plain);
    Ok(code?)
}

fn check_take(code: &Labelled) -> Result<(), Fail> {
    expect(are_items(code.items.as_slice(), TAKEN), "the items")?;
    expect(code.max_locals == 2 && code.max_stack == 1, "the sizes")?;
    expect(is_start(code.start.as_slice()), "the start")
}

#[test]
fn a_receiver_is_the_first_local(rt: HostRuntime) -> Result<(), Fail> {
    let code = code_of_take(rt.alloc())?;
    let checked = check_take(&code);
    drop(code);
    checked
}

const NESTED: &[u8] =
    b"try { try { shut(); } catch (Bad a) { got = 1; } } catch (Bad b) { got = 2; }";

fn check_nested(handlers: &[Handler]) -> Result<(), Fail> {
    let [inner, outer] = handlers else {
        return Err(Fail::new("the handlers"));
    };
    expect(
        inner.from == 3 && inner.to == 4 && inner.goes == 6,
        "the inner one",
    )?;
    expect(
        outer.from == 0 && outer.to == 1 && outer.goes == 7,
        "the outer one",
    )
}

#[test]
fn handlers_of_an_inner_try_come_first(rt: HostRuntime) -> Result<(), Fail> {
    let code = code(rt.alloc(), NESTED)?;
    let checked = check_nested(code.handlers.as_slice());
    drop(code);
    checked
}

// A body, and the labels of its frames.
struct Framed {
    body: &'static [u8],
    labels: &'static [u32],
}

const FRAMED: &[Framed] = &[
    Framed {
        body: b"while (true) { return; }",
        labels: &[],
    },
    Framed {
        body: b"while (true) { break; }",
        labels: &[1],
    },
    Framed {
        body: b"while (true) { while (true) { continue; } }",
        labels: &[2],
    },
    Framed {
        body: b"while (true) { while (true) { break; } }",
        labels: &[0, 3],
    },
    Framed {
        body: b"while (got < 3) { if (got < 1) { continue; } return; }",
        labels: &[0, 2, 3, 6, 7, 4, 1],
    },
    Framed {
        body: b"if (got < 1) { return; } got = 2;",
        labels: &[2, 3, 0],
    },
    Framed {
        body: b"if (got < 1) { got = 1; } else { return; }",
        labels: &[2, 3, 0, 1],
    },
    Framed {
        body: b"when (Paid) { return; }",
        labels: &[0],
    },
    Framed {
        body: b"try { shut(); return; } catch (Bad e) { return; }",
        labels: &[3],
    },
    Framed {
        body: b"try { shut(); return; } catch (Bad e) { got = 1; }",
        labels: &[3, 2],
    },
];

pub fn have_labels(frames: &[LabelFrame], labels: &[u32]) -> bool {
    if frames.len() != labels.len() {
        return false;
    }
    for (frame, label) in frames.iter().zip(labels) {
        if frame.label != *label {
            return false;
        }
    }
    true
}

fn is_framed(alloc: Global, row: &Framed) -> Result<bool, Fail> {
    let code = code(alloc, row.body)?;
    let is_framed = have_labels(code.frames.as_slice(), row.labels);
    drop(code);
    Ok(is_framed)
}

fn check_framed(alloc: Global, rows: &[Framed]) -> Result<(), Fail> {
    for row in rows {
        expect(is_framed(alloc, row)?, "the frames")?;
    }
    Ok(())
}

#[test]
fn frames_stand_where_control_goes(rt: HostRuntime) -> Result<(), Fail> {
    check_framed(rt.alloc(), FRAMED)
}
