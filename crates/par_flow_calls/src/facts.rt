//! Facts of worked bodies, with ample memory.

ghost use Rattle.std.specs.List.{AllByRecursion};
ghost use Rattle.par_typed.specs.Shown.{bodies};
ghost use Rattle.par_program_laws.specs.Orderly.{IsOrderlyBody};

use par_atoms::Atoms;
use par_flow::{FactTable, KeptWay, facts_of};
use par_locks::{LockFacts, locks_of};
use par_policy::leq;
use par_typed::program::Typed;
use par_typed::table::Table;
use par_typed_sources::typed;
use par_worked::expect;
use std::alloc::Global;
use std::rt::HostRuntime;
use std::test::Fail;

const HEAD: &[u8] = b"actor alice, bob;
lock Paid;
class Shop {
?{alice:; bob: Paid} input int key();
?{alice:; bob:} output void show(int v);
?{alice:; bob:} static int got;
static void main() !bottom ";

const PAID: u32 = 0;

// What stands around the statements of `main`, and where a test looks.
struct Row {
    name: &'static str,
    marks: &'static [u8],
    body: &'static [u8],
    behind: &'static [u8],
    point: u32,
}

fn put_main(row: &Row, source: &mut Vec<u8>) -> Result<(), Fail> {
    source.extend_from_slice(row.marks)?;
    source.extend_from_slice(b"{\n")?;
    source.extend_from_slice(row.body)?;
    source.extend_from_slice(b"\n}\n")?;
    source.extend_from_slice(row.behind)?;
    Ok(())
}

fn source_of(alloc: Global, row: &Row) -> Result<Vec<u8>, Fail> {
    let mut source = Vec::from_slice(alloc, HEAD)?;
    put_main(row, &mut source)?;
    Ok(source)
}

// What is known of `main`.
#[derive(Drop)]
struct Known {
    typed: Typed,
    locks: LockFacts,
    facts: FactTable,
}

fn facts_in(alloc: Global, typed: &Typed) -> Result<(LockFacts, FactTable), Fail>
    requires { AllByRecursion (IsOrderlyBody typed.now.table) (bodies typed.now.bodies) }
{
    if typed.bodies.len() == 0 {
        return Err(Fail::new("no body"));
    }
    let locks = locks_of(alloc, typed, 0)?;
    let facts = facts_of(alloc, typed, 0, &locks)?;
    Ok((locks, facts))
}

fn known_of(alloc: Global, source: &[u8]) -> Result<Known, Fail> {
    let typed = typed(alloc, source)?;
    let (locks, facts) = facts_in(alloc, &typed)?;
    Ok(Known {
        typed,
        locks,
        facts,
    })
}

fn known_in(alloc: Global, row: &Row) -> Result<Known, Fail> {
    let source = source_of(alloc, row)?;
    let known = known_of(alloc, source.as_slice());
    drop(source);
    known
}

// Whether the policy of the number is below the policy 0, which is `bottom`.
fn is_bottom(table: &Table, number: u16) -> bool {
    match (
        table.policies.get(usize::from(number)),
        table.policies.get(0),
    ) {
        (Some(policy), Some(bottom)) => leq(policy, bottom),
        _ => false,
    }
}

fn is_low(table: &Table, set: &Atoms) -> bool {
    (0..256).all(|number| !set.has(number) || is_bottom(table, number))
}

const OPEN: &[(Row, bool)] = &[
    (
        Row {
            name: "a called method closes the lock",
            marks: b"-Paid ",
            body: b"open Paid; shut(); show(key());",
            behind: b"static void shut() -Paid { close Paid; }\n}\n",
            point: 5,
        },
        false,
    ),
    (
        Row {
            name: "both branches open the lock",
            marks: b"",
            body: b"if (got > 0) { open Paid; } else { open Paid; } show(1);",
            behind: b"}\n",
            point: 10,
        },
        true,
    ),
    (
        Row {
            name: "one branch opens the lock",
            marks: b"",
            body: b"if (got > 0) { open Paid; } show(1);",
            behind: b"}\n",
            point: 8,
        },
        false,
    ),
];

// Whether the lock is told to be open there, as it is kept to be.
fn has_paid(known: &Known, point: u32) -> Option<bool> {
    let open = known.locks.at(point).map(|locks| locks.has(PAID));
    let kept = known.facts.entry(point).map(|way| way.locks.has(PAID));
    if open == kept { open } else { None }
}

#[test]
fn locks_at_show(rt: HostRuntime) -> Result<(), Fail> {
    check_rows(rt.alloc(), Asked::Locks, OPEN)
}

const VALUES: &[(Row, bool)] = &[
    (
        Row {
            name: "a local is lowered",
            marks: b"",
            body: b"int x = key(); x = 3; show(x);",
            behind: b"}\n",
            point: 7,
        },
        true,
    ),
    (
        Row {
            name: "a local is raised in the next turn",
            marks: b"",
            body: b"int a = 0; int b = 0; while (a < 3) { a = b; b = key(); } show(a);",
            behind: b"}\n",
            point: 16,
        },
        false,
    ),
];

fn has_low_value(known: &Known, point: u32) -> Option<bool> {
    let value = known.facts.value(point)?;
    Some(is_low(&known.typed.table, value))
}

#[test]
fn values_of_locals(rt: HostRuntime) -> Result<(), Fail> {
    check_rows(rt.alloc(), Asked::Value, VALUES)
}

const CONTEXTS: &[(Row, bool)] = &[
    (
        Row {
            name: "a return leaves its context",
            marks: b"",
            body: b"if (key() > 0) { return; } show(1);",
            behind: b"}\n",
            point: 8,
        },
        false,
    ),
    (
        Row {
            name: "a throw that is caught leaves none",
            marks: b"",
            body: b"try { if (key() > 0) { throw new Bad(); } } catch (Bad e) { } show(1);",
            behind: b"}\nclass Bad extends Exception { }\n",
            point: 11,
        },
        true,
    ),
];

fn has_low_context(known: &Known, point: u32) -> Option<bool> {
    let way = known.facts.entry(point)?;
    Some(is_low(&known.typed.table, &way.context))
}

#[test]
fn contexts_at_show(rt: HostRuntime) -> Result<(), Fail> {
    check_rows(rt.alloc(), Asked::Context, CONTEXTS)
}

// What rows ask of a point: whether Paid is open there, or whether the value or the context is low.
#[derive(Clone, Copy)]
enum Asked {
    Locks,
    Value,
    Context,
}

fn told(known: &Known, asked: Asked, point: u32) -> Option<bool> {
    match asked {
        Asked::Locks => has_paid(known, point),
        Asked::Value => has_low_value(known, point),
        Asked::Context => has_low_context(known, point),
    }
}

fn told_in(alloc: Global, asked: Asked, row: &Row) -> Result<Option<bool>, Fail> {
    let known = known_in(alloc, row)?;
    let told = told(&known, asked, row.point);
    drop(known);
    Ok(told)
}

fn check_rows(alloc: Global, asked: Asked, rows: &[(Row, bool)]) -> Result<(), Fail> {
    for (row, wanted) in rows {
        expect(told_in(alloc, asked, row)? == Some(*wanted), row.name)?;
    }
    Ok(())
}

const LOOPS: usize = 60;

fn put_times(part: &[u8], source: &mut Vec<u8>) -> Result<(), Fail> {
    for _ in 0..LOOPS {
        source.extend_from_slice(part)?;
    }
    Ok(())
}

fn put_nested(source: &mut Vec<u8>) -> Result<(), Fail> {
    source.extend_from_slice(b"{\n")?;
    put_times(b"while (got > 0) { ", source)?;
    source.extend_from_slice(b"got = 0;")?;
    put_times(b" }", source)?;
    source.extend_from_slice(b"\n}\n}\n")?;
    Ok(())
}

// As many loops in one another, and an assignment in the innermost.
fn nested(alloc: Global) -> Result<Vec<u8>, Fail> {
    let mut source = Vec::from_slice(alloc, HEAD)?;
    put_nested(&mut source)?;
    Ok(source)
}

fn known_in_loops(alloc: Global) -> Result<Known, Fail> {
    let source = nested(alloc)?;
    let known = known_of(alloc, source.as_slice());
    drop(source);
    known
}

#[test]
fn nested_loops_end(rt: HostRuntime) -> Result<(), Fail> {
    let known = known_in_loops(rt.alloc())?;
    // The block of `main`, and five nodes a loop.
    let is_low = has_low_context(&known, 301) == Some(true);
    drop(known);
    expect(is_low, "at the assignment")
}

const LOWERED: Row = Row {
    name: "a local that is set twice",
    marks: b"",
    body: b"int x = key(); x = 3; show(x);",
    behind: b"}\n",
    point: 4,
};

// The number of the environment that enters the point.
fn env_at(facts: &FactTable, point: u32) -> Option<u32> {
    facts.entry(point).map(|way| way.env)
}

// The number behind the node.
fn env_behind(facts: &FactTable, point: u32) -> Option<u32> {
    let normal: &Option<KeptWay> = &facts.exits(point)?.normal;
    normal.map(|way| way.env)
}

// `x` is set at the points 1 and 3. It holds nothing at first, then the key, then nothing again.
fn environments_are_kept_once(facts: &FactTable) -> bool {
    let first = env_at(facts, 0);
    let second = env_at(facts, 3);
    let same = env_at(facts, 2) == first && env_behind(facts, 1) == second;
    first.is_some() && first != second && same && env_behind(facts, 3) == first
}

fn is_reached(facts: &FactTable) -> bool {
    let statement = facts.entry(3).is_some() && facts.value(3).is_none();
    let expression = facts.entry(4).is_some() && facts.value(4).is_some();
    let left = facts
        .exits(4)
        .is_some_and(|ways| ways.ret.is_none() && ways.throws.len() == 0);
    statement && expression && left
}

fn is_silent(facts: &FactTable, point: u32) -> bool {
    facts.entry(point).is_none() && facts.value(point).is_none() && facts.exits(point).is_none()
}

fn check_points(known: &Known) -> Result<(), Fail> {
    expect(is_reached(&known.facts), "reached points")?;
    expect(is_silent(&known.facts, 8), "no such point")?;
    expect(known.locks.at(8).is_none(), "no such point has locks")
}

fn check_environments(facts: &FactTable) -> Result<(), Fail> {
    expect(environments_are_kept_once(facts), "environments")?;
    let one_local = facts.env(0).is_some_and(|env| env.len() == 1);
    expect(one_local, "of one local")?;
    expect(facts.env(2).is_none(), "no third environment")
}

fn check_known(known: &Known) -> Result<(), Fail> {
    check_points(known)?;
    check_environments(&known.facts)
}

#[test]
fn points_and_environments(rt: HostRuntime) -> Result<(), Fail> {
    let known = known_in(rt.alloc(), &LOWERED)?;
    let checked = check_known(&known);
    drop(known);
    checked
}
