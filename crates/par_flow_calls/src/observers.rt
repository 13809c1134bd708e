//! Which inputs of a typed program an observer cannot tell apart.

use crate::keys::keys;
use par_alike::alike;
use par_lexer::list::List;
use par_policy::Lockset;
use par_typed::program::Typed;
use par_typed_sources::typed;
use par_values::inputs::Inputs;
use par_worked::expect;
use std::alloc::Global;
use std::rt::HostRuntime;
use std::test::Fail;

const SHOP: &[u8] = b"actor alice, bob;
lock Paid;
class Shop {
  ?{alice:; bob: Paid} input int key();
  ?{bob:} output void show(int v);
  static void main() { open Paid; show(key()); }
}
";

const ALICE: u8 = 0;

const BOB: u8 = 1;

const PAID: u16 = 0;

// Inputs whose one line gives this number to the channel, or that have no line.
fn key(alloc: Global, number: Option<i32>) -> Result<Inputs, Fail> {
    match number {
        Some(number) => keys(alloc, &[number]),
        None => Ok(Inputs {
            channels: List::new(alloc),
        }),
    }
}

fn lock_set(alloc: Global, open: &[u16]) -> Result<Lockset, Fail> {
    let mut set = Lockset::new(alloc);
    for lock in open {
        set.insert(*lock)?;
    }
    Ok(set)
}

// Two inputs, an observer with the locks that it has, and whether it cannot tell them apart.
struct Row {
    name: &'static str,
    one: Option<i32>,
    other: Option<i32>,
    actor: u8,
    open: &'static [u16],
    alike: bool,
}

const ROWS: &[Row] = &[
    Row {
        name: "bob does not see the key",
        one: Some(1),
        other: Some(2),
        actor: BOB,
        open: &[],
        alike: true,
    },
    Row {
        name: "bob sees it once it is paid",
        one: Some(1),
        other: Some(2),
        actor: BOB,
        open: &[PAID],
        alike: false,
    },
    Row {
        name: "alice sees it",
        one: Some(1),
        other: Some(2),
        actor: ALICE,
        open: &[],
        alike: false,
    },
    Row {
        name: "alice sees that there is no line",
        one: Some(1),
        other: None,
        actor: ALICE,
        open: &[],
        alike: false,
    },
    Row {
        name: "the same keys are alike",
        one: Some(2),
        other: Some(2),
        actor: ALICE,
        open: &[PAID],
        alike: true,
    },
];

fn are_alike(
    alloc: Global,
    program: &Typed,
    one: &Inputs,
    other: &Inputs,
    row: &Row,
) -> Result<bool, Fail> {
    let open = lock_set(alloc, row.open)?;
    let are_alike = alike(one, other, program, row.actor, &open);
    drop(open);
    Ok(are_alike)
}

fn is_alike(alloc: Global, program: &Typed, one: &Inputs, row: &Row) -> Result<bool, Fail> {
    let other = key(alloc, row.other)?;
    let is_alike = are_alike(alloc, program, one, &other, row);
    drop(other);
    is_alike
}

fn holds(alloc: Global, program: &Typed, row: &Row) -> Result<bool, Fail> {
    let one = key(alloc, row.one)?;
    let is_alike = is_alike(alloc, program, &one, row);
    drop(one);
    Ok(is_alike? == row.alike)
}

fn check_rows(alloc: Global, program: &Typed, rows: &[Row]) -> Result<(), Fail> {
    for row in rows {
        expect(holds(alloc, program, row)?, row.name)?;
    }
    Ok(())
}

#[test]
fn observers_tell_the_keys_that_they_see_apart(rt: HostRuntime) -> Result<(), Fail> {
    let program = typed(rt.alloc(), SHOP)?;
    let checked = check_rows(rt.alloc(), &program, ROWS);
    drop(program);
    checked
}
