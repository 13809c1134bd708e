//! Runs of programs, over the trees that the reader and the typing give, with ample memory.

use crate::keys::keys;
use par_meaning::{SourceEvent, SourceRun, run_source};
use par_typed::program::Typed;
use par_typed_sources::with_main;
use par_values::run::{Ending, Event, Val};
use par_worked::expect;
use std::alloc::Global;
use std::rt::HostRuntime;
use std::test::Fail;

// What stands before the body of `main`.
const BEFORE: &[u8] = b"lock Paid;
class Bad extends Exception { }
class Item { int f; Item me() { return this; } int take(int n) { return n; } }
class Shop {
  input int key();
  output void show(int v);
  static int got;
  static int one() { return 1; }
  static int two(int a, int b) { return a; }
  static void shut() { close Paid; throw new Bad(); }
  static void deep() { shut(); }
  static void down(int n) { if (n > 0) { down(n - 1); } }
  static void main() {
";

const PAID: u16 = 0;

fn run_on(alloc: Global, program: &Typed, given: &[i32], bound: u64) -> Result<SourceRun, Fail> {
    let inputs = keys(alloc, given)?;
    let run = run_source(alloc, program, &inputs, bound);
    drop(inputs);
    Ok(run?)
}

fn run(alloc: Global, body: &[u8], given: &[i32], bound: u64) -> Result<SourceRun, Fail> {
    let program = with_main(alloc, BEFORE, body)?;
    let run = run_on(alloc, &program, given, bound);
    drop(program);
    run
}

// What happens, of the class Shop or of an Item.
#[derive(Clone, Copy)]
enum Seen {
    Shown(i32),
    Got(i32),
    Born(u32),
    Put(u32, i32),
}

fn is_seen(event: &Event, seen: Seen) -> bool {
    match seen {
        Seen::Shown(wanted) => match event {
            Event::Out(_, _, number) => *number == wanted,
            _ => false,
        },
        Seen::Got(wanted) => match event {
            Event::Set(_, _, Val::Int(number)) => *number == wanted,
            _ => false,
        },
        Seen::Born(wanted) => match event {
            Event::Born(_, number) => *number == wanted,
            _ => false,
        },
        Seen::Put(object, wanted) => match event {
            Event::Put(_, of, _, Val::Int(number)) => *of == object && *number == wanted,
            _ => false,
        },
    }
}

// How a run ends: at its end, or by an exception of this class.
fn is_ending(ending: &Ending, wanted: Option<&str>) -> bool {
    match ending {
        Ending::End => wanted.is_none(),
        Ending::Uncaught(class) => match wanted {
            Some(name) => class.bytes() == name.as_bytes(),
            None => false,
        },
        Ending::Stopped => false,
    }
}

fn are_seen(events: &[SourceEvent], wanted: &[(Seen, bool)]) -> bool {
    if events.len() != wanted.len() {
        return false;
    }
    for (event, (seen, paid)) in events.iter().zip(wanted) {
        if !is_seen(&event.event, *seen) || event.locks.has(PAID) != *paid {
            return false;
        }
    }
    true
}

// A body with the numbers of `key`, what happens, each with whether Paid is open then, and the
// class of the exception that ends it.
struct Row {
    body: &'static [u8],
    given: &'static [i32],
    seen: &'static [(Seen, bool)],
    uncaught: Option<&'static str>,
}

const ROWS: &[Row] = &[
    Row {
        body: b"open Paid; got = key(); close Paid; if (got > 0) { show(1); }",
        given: &[42],
        seen: &[(Seen::Got(42), true), (Seen::Shown(1), false)],
        uncaught: None,
    },
    Row {
        body: b"show(-2147483648 / -1); show(-7 % 3); show(1 << 33); show(-8 >> 33);
            show(-1 >>> 31); show(1 << -1); show(-2147483648 % -1);",
        given: &[],
        seen: &[
            (Seen::Shown(-2147483648), false),
            (Seen::Shown(-1), false),
            (Seen::Shown(2), false),
            (Seen::Shown(-4), false),
            (Seen::Shown(1), false),
            (Seen::Shown(-2147483648), false),
            (Seen::Shown(0), false),
        ],
        uncaught: None,
    },
    Row {
        body: b"show(1 / got);",
        given: &[],
        seen: &[],
        uncaught: Some("ArithmeticException"),
    },
    Row {
        body: b"while (key() > 0) { } show(1);",
        given: &[1, 1],
        seen: &[(Seen::Shown(1), false)],
        uncaught: None,
    },
    Row {
        body: b"notnull Item a = new Item(); notnull Item b = new Item(); notnull Item c = a;
            a.f = 1; b.f = 2; c.f = 3; show(a.f);",
        given: &[],
        seen: &[
            (Seen::Born(0), false),
            (Seen::Born(1), false),
            (Seen::Put(0, 1), false),
            (Seen::Put(1, 2), false),
            (Seen::Put(0, 3), false),
            (Seen::Shown(3), false),
        ],
        uncaught: None,
    },
    // an exception through two calls, which closed the lock
    Row {
        body: b"open Paid; try { deep(); show(1); } catch (Bad e) { show(2); } show(3);",
        given: &[],
        seen: &[(Seen::Shown(2), false), (Seen::Shown(3), false)],
        uncaught: None,
    },
    // the value of a field and the arguments of a call come before the null test of the object
    Row {
        body: b"Item a = null; try { a.f = key(); } catch (NullPointerException e) { show(key()); }
            try { a.take(key()); } catch (NullPointerException e) { show(key()); } a.me();",
        given: &[5, 6, 7, 8],
        seen: &[(Seen::Shown(6), false), (Seen::Shown(8), false)],
        uncaught: Some("NullPointerException"),
    },
    Row {
        body: b"while (true) { got = got + 1; if (got < 3) { continue; } break; } show(got);",
        given: &[],
        seen: &[
            (Seen::Got(1), false),
            (Seen::Got(2), false),
            (Seen::Got(3), false),
            (Seen::Shown(3), false),
        ],
        uncaught: None,
    },
    Row {
        body: b"when (Paid) { show(1); } else { open Paid; } when (Paid) { show(2); }",
        given: &[],
        seen: &[(Seen::Shown(2), true)],
        uncaught: None,
    },
    Row {
        body: b"down(1000); show(1);",
        given: &[],
        seen: &[(Seen::Shown(1), false)],
        uncaught: None,
    },
];

fn holds(alloc: Global, row: &Row) -> Result<bool, Fail> {
    let run = run(alloc, row.body, row.given, 100_000)?;
    let is_seen = are_seen(run.events.as_slice(), row.seen);
    let ends = is_ending(&run.ending, row.uncaught);
    drop(run);
    Ok(is_seen && ends)
}

fn check_rows(alloc: Global, rows: &[Row]) -> Result<(), Fail> {
    for row in rows {
        expect(holds(alloc, row)?, "a row of runs")?;
    }
    Ok(())
}

#[test]
fn programs_do_what_they_say(rt: HostRuntime) -> Result<(), Fail> {
    check_rows(rt.alloc(), ROWS)
}

// A body of `main`, and the steps that it takes, those of `main` included.
type Steps = (&'static [u8], u64);

// One for each form.
const STEPS: &[Steps] = &[
    (b"", 1),
    (b"{ }", 2),
    (b"if (true) { }", 4),
    (b"if (false) { } else { }", 4),
    (b"while (false) { }", 3),
    (b"while (got < 2) { got = got + 1; }", 23),
    (b"while (true) { break; }", 5),
    (b"while (got < 1) { got = 1; continue; }", 13),
    (b"try { throw new Bad(); } catch (Bad e) { }", 5),
    (b"throw new Bad();", 2),
    (b"return;", 2),
    (b"one();", 7),
    (b"two(1, 2);", 9),
    (b"Item a = new Item().me();", 8),
    (b"open Paid;", 2),
    (b"close Paid;", 2),
    (b"when (Paid) { }", 2),
    (b"when (Paid) { } else { }", 3),
    (b"open Paid; when (Paid) { }", 4),
    (b"int x = 1;", 3),
    (b"got = 1;", 3),
    (b"notnull Item a = new Item(); a.f = 1;", 6),
    (b"Item a = null; a.f = 1;", 6),
    (b"int x = new Item().f;", 4),
    (b"show(1);", 4),
    (b"key();", 3),
    (b"got = -got;", 4),
    (b"boolean b = !true;", 4),
    (b"boolean b = false && true;", 4),
    (b"boolean b = true && false;", 5),
    (b"int x = 1 / got;", 5),
];

// Whether the run ends with so many steps, and not with one step less.
fn takes(alloc: Global, body: &[u8], steps: u64) -> Result<bool, Fail> {
    let is_cut = is_stopped(alloc, body, steps.saturating_sub(1))?;
    Ok(is_cut && !is_stopped(alloc, body, steps)?)
}

fn is_stopped(alloc: Global, body: &[u8], steps: u64) -> Result<bool, Fail> {
    let run = run(alloc, body, &[], steps)?;
    let is_stopped = matches!(&run.ending, Ending::Stopped);
    drop(run);
    Ok(is_stopped)
}

fn check_steps(alloc: Global, rows: &[Steps]) -> Result<(), Fail> {
    for (body, steps) in rows {
        expect(takes(alloc, body, *steps)?, "a row of steps")?;
    }
    Ok(())
}

#[test]
fn each_form_takes_its_steps(rt: HostRuntime) -> Result<(), Fail> {
    check_steps(rt.alloc(), STEPS)
}
