//! The code of the largest methods: as many nodes and as many locals as a method may have.

use crate::bodies::{BEFORE, MAIN, RETURN, SET, SHOP, Wanted, is_item};
use par_code::{Item, Labelled, code_of};
use par_erase::erase;
use par_instr::Instr;
use par_typed::program::Typed;
use par_typed_sources::large_methods::{push_locals, push_signs, push_times};
use par_typed_sources::with_main;
use par_worked::expect;
use std::alloc::Global;
use std::rt::HostRuntime;
use std::test::Fail;

const LOCALS: u8 = 200;

// The first of them has this number in its name and as its value.
const FIRST: i32 = 100;

const NODES: u32 = 2_000;

// How many nodes the source of `main` has.
fn nodes(typed: &Typed) -> u32 {
    match typed.table.classes.get(usize::from(SHOP)) {
        None => 0,
        Some(class) => match class.methods.get(usize::from(MAIN)) {
            None => 0,
            Some(method) => method.nodes,
        },
    }
}

fn code(alloc: Global, typed: &Typed) -> Result<Labelled, Fail> {
    let plain = erase(alloc, typed)?;
    let code = code_of(alloc, &plain, SHOP, MAIN);
    drop(plain);
    Ok(code?)
}

fn stands(items: &[Item], place: usize, wanted: Wanted) -> bool {
    match items.get(place) {
        None => false,
        Some(item) => is_item(item, wanted),
    }
}

fn store(local: u8) -> Instr {
    if local <= 3 {
        Instr::IstoreShort(local)
    } else {
        Instr::Istore(local)
    }
}

// Each local is given its number, two items for each.
fn are_set(items: &[Item]) -> bool {
    for local in 0..LOCALS {
        let place = usize::from(local) * 2;
        let number = i32::from(local) + FIRST;
        if !stands(items, place, Wanted::Const(number))
            || !stands(items, place + 1, Wanted::Op(store(local)))
        {
            return false;
        }
    }
    true
}

// The program whose `main` declares them.
fn with_locals(alloc: Global) -> Result<Typed, Fail> {
    let mut body = Vec::new(alloc);
    push_locals(&mut body)?;
    with_main(alloc, BEFORE, body.as_slice())
}

fn code_with_locals(alloc: Global) -> Result<Labelled, Fail> {
    let typed = with_locals(alloc)?;
    let code = code(alloc, &typed);
    drop(typed);
    code
}

fn check_locals(code: &Labelled) -> Result<(), Fail> {
    let items = code.items.as_slice();
    expect(code.max_locals == 200, "the locals")?;
    expect(code.max_stack == 1, "the operands")?;
    expect(items.len() == 403 && are_set(items), "the locals are set")?;
    let last = stands(items, 400, Wanted::Op(Instr::Iload(199)))
        && stands(items, 401, SET)
        && stands(items, 402, RETURN);
    expect(last, "the last local is read")
}

#[test]
fn two_hundred_locals_have_their_places(rt: HostRuntime) -> Result<(), Fail> {
    let code = code_with_locals(rt.alloc())?;
    let checked = check_locals(&code);
    drop(code);
    checked
}

// What is counted of code.
#[derive(Clone, Copy)]
struct Counts {
    items: usize,
    labels: u32,
    bytes: u32,
    handlers: usize,
    frames: usize,
}

fn count_labels(items: &[Item]) -> u32 {
    let mut count: u32 = 0;
    for item in items {
        if matches!(item, Item::Label(_)) {
            count = count.wrapping_add(1);
        }
    }
    count
}

// How long an item is, where numbers and locals are small.
fn length(item: &Item) -> u32 {
    match item {
        Item::Label(_) => 0,
        Item::Op(_) | Item::Const(_) => 1,
        Item::Jump(_, _) | Item::Member(_, _, _, _) | Item::ClassOp(_, _) | Item::LockOp(_, _) => 3,
    }
}

fn count_bytes(items: &[Item]) -> u32 {
    let mut count: u32 = 0;
    for item in items {
        count = count.wrapping_add(length(item));
    }
    count
}

fn has_counts(code: &Labelled, wanted: &Counts) -> bool {
    let items = code.items.as_slice();
    items.len() == wanted.items
        && count_labels(items) == wanted.labels
        && count_bytes(items) == wanted.bytes
        && code.handlers.len() == wanted.handlers
        && code.frames.len() == wanted.frames
}

// Whether a program has as many nodes as it may have, and code with these counts and so many
// locals.
fn is_full(alloc: Global, typed: &Typed, wanted: &Counts, locals: u16) -> Result<bool, Fail> {
    let code = code(alloc, typed)?;
    let sizes = code.max_stack == 1 && code.max_locals == locals;
    let counts = has_counts(&code, wanted);
    drop(code);
    Ok(nodes(typed) == NODES && counts && sizes)
}

// A body of 1 node, 666 assignments of 3 and a block of 1.
fn with_assignments(alloc: Global) -> Result<Typed, Fail> {
    let mut body = Vec::new(alloc);
    push_times(b"got = 1;\n", 666, &mut body)?;
    body.extend_from_slice(b"{ }")?;
    with_main(alloc, BEFORE, body.as_slice())
}

const OF_ASSIGNMENTS: Counts = Counts {
    items: 1_333,
    labels: 0,
    bytes: 2_665,
    handlers: 0,
    frames: 0,
};

#[test]
fn the_longest_row_of_assignments(rt: HostRuntime) -> Result<(), Fail> {
    let typed = with_assignments(rt.alloc())?;
    let full = is_full(rt.alloc(), &typed, &OF_ASSIGNMENTS, 0);
    drop(typed);
    expect(full?, "the code of assignments")
}

fn with_signs(alloc: Global) -> Result<Typed, Fail> {
    let mut body = Vec::new(alloc);
    push_signs(&mut body)?;
    with_main(alloc, BEFORE, body.as_slice())
}

const OF_SIGNS: Counts = Counts {
    items: 11_489,
    labels: 3_808,
    bytes: 15_297,
    handlers: 0,
    frames: 3_808,
};

#[test]
fn the_most_labels(rt: HostRuntime) -> Result<(), Fail> {
    let typed = with_signs(rt.alloc())?;
    let full = is_full(rt.alloc(), &typed, &OF_SIGNS, 1);
    drop(typed);
    expect(full?, "the code of signs")
}
