//! Programs that an observer learns a secret from. The rules on flows refuse each of them, and each
//! would be accepted if one rule were laxer.

use crate::keys::keys;
use par_alike::alike;
use par_meaning::{SourceEvent, SourceRun, run_source};
use par_policy::Lockset;
use par_typed::program::Typed;
use par_typed_sources::with_main;
use par_values::inputs::Inputs;
use par_values::run::{Event, Val};
use par_worked::expect;
use std::alloc::Global;
use std::rt::HostRuntime;
use std::test::Fail;

// Bob is to learn the key where Paid is open, and sees all that happens.
const BEFORE: &[u8] = b"actor alice, bob;
lock Paid;
class Shop {
  ?{alice:; bob: Paid} input int key();
  ?{alice:; bob:} output void show(int v);
  ?{alice:; bob:} static int got;
  static void leave() { if (key() > 0) { return; } show(1); }
  static void divide() { int x = 1 / key(); show(1); }
  static void main() {
";

const BOB: u8 = 1;

const PAID: u16 = 0;

const BOUND: u64 = 1000;

// What a run tells at a place: the number that is shown or written there, while Paid is not open.
fn told_by(seen: &SourceEvent) -> Option<i32> {
    if seen.locks.has(PAID) {
        return None;
    }
    match &seen.event {
        Event::Out(_, _, number) => Some(*number),
        Event::Set(_, _, Val::Int(number)) => Some(*number),
        _ => None,
    }
}

fn told(run: &SourceRun, place: usize) -> Option<i32> {
    match run.events.get(place) {
        Some(seen) => told_by(seen),
        None => None,
    }
}

// A body with two keys, and what the runs on them tell where they first differ.
struct Row {
    name: &'static str,
    body: &'static [u8],
    keys: (i32, i32),
    place: usize,
    tell: (i32, i32),
}

const ROWS: &[Row] = &[
    Row {
        name: "a context that an open lock lowers",
        body: b"int h = key(); open Paid; if (h > 0) { got = 1; }
            if (got == 1) { close Paid; show(5); } else { got = 1; close Paid; show(6); }",
        keys: (1, 0),
        place: 1,
        tell: (5, 6),
    },
    Row {
        name: "a lock that is open in one branch",
        body: b"if (got == 1) { open Paid; } show(key());",
        keys: (1, 2),
        place: 0,
        tell: (1, 2),
    },
    Row {
        name: "what comes behind a return",
        body: b"leave(); show(2);",
        keys: (1, 0),
        place: 0,
        tell: (2, 1),
    },
    Row {
        name: "what comes behind a division",
        body: b"try { divide(); } catch (ArithmeticException e) { } show(2);",
        keys: (1, 0),
        place: 0,
        tell: (1, 2),
    },
    Row {
        name: "what a loop brings to its next turn",
        body: b"int a = 0; int n = 0; while (n < 2) { show(a); a = key(); n = n + 1; }",
        keys: (1, 2),
        place: 1,
        tell: (1, 2),
    },
];

fn run_on(alloc: Global, program: &Typed, number: i32) -> Result<SourceRun, Fail> {
    let inputs = keys(alloc, &[number])?;
    let run = run_source(alloc, program, &inputs, BOUND);
    drop(inputs);
    Ok(run?)
}

// What the run on a key tells at a place.
fn told_of(alloc: Global, program: &Typed, number: i32, place: usize) -> Result<Option<i32>, Fail> {
    let run = run_on(alloc, program, number)?;
    let told = told(&run, place);
    drop(run);
    Ok(told)
}

fn is_alike(alloc: Global, program: &Typed, one: &Inputs, other: i32) -> Result<bool, Fail> {
    let other = keys(alloc, &[other])?;
    let no_lock = Lockset::new(alloc);
    let is_alike = alike(one, &other, program, BOB, &no_lock);
    drop(no_lock);
    drop(other);
    Ok(is_alike)
}

fn are_alike(alloc: Global, program: &Typed, pair: (i32, i32)) -> Result<bool, Fail> {
    let one = keys(alloc, &[pair.0])?;
    let are_alike = is_alike(alloc, program, &one, pair.1);
    drop(one);
    are_alike
}

fn tells_apart(alloc: Global, program: &Typed, row: &Row) -> Result<bool, Fail> {
    let first = told_of(alloc, program, row.keys.0, row.place)?;
    let second = told_of(alloc, program, row.keys.1, row.place)?;
    let differ = first == Some(row.tell.0) && second == Some(row.tell.1);
    Ok(differ && are_alike(alloc, program, row.keys)?)
}

fn row_holds(alloc: Global, row: &Row) -> Result<bool, Fail> {
    let program = with_main(alloc, BEFORE, row.body)?;
    let holds = tells_apart(alloc, &program, row);
    drop(program);
    holds
}

fn check_rows(alloc: Global, rows: &[Row]) -> Result<(), Fail> {
    for row in rows {
        expect(row_holds(alloc, row)?, row.name)?;
    }
    Ok(())
}

#[test]
fn laxer_rules_let_bob_learn_the_key(rt: HostRuntime) -> Result<(), Fail> {
    check_rows(rt.alloc(), ROWS)
}
