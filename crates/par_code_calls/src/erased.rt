//! What is left of locks: they are opened and closed where some `when` of any body asks for them.

use par_erase::{PStmt, Plain, erase};
use par_typed_sources::typed;
use par_worked::expect;
use std::alloc::Global;
use std::rt::HostRuntime;
use std::test::Fail;

// Of its locks, `Paid` has a policy and no `when` asks for it, and one asks for one of the family
// `Trusts` alone.
const SOURCE: &[u8] = b"actor alice;
actor bob;
lock Shown ?bottom;
lock Paid ?bottom;
lock Trusts(actor) ?bottom;
lock Nested;
lock Caught;
lock Kept;
class Bad extends Exception { }
class Shop {
  static int count;
  static void main() {
    open Shown;
    open Paid;
    close Paid;
    open Trusts(alice);
    open Trusts(bob);
    close Trusts(bob);
    open Nested;
    open Caught;
    close Kept;
  }
  static void ask() {
    try {
      while (count < 3) { when (Nested) { throw new Bad(); } }
    } catch (Bad e) {
      when (Caught) { count = 2; }
    }
    when (Shown) { count = 1; } else { when (Kept) { count = 4; } }
    when (Trusts(alice)) { count = 5; }
  }
}
";

// The class behind those of exceptions, and its first method.
const SHOP: usize = 3;

const MAIN: usize = 0;

// What is left of an `open` or a `close`.
#[derive(Clone, Copy)]
enum Left {
    Opened(u16),
    Closed(u16),
    Nothing,
}

const SHOWN: u16 = 0;

const TRUSTS_ALICE: u16 = 2;

const NESTED: u16 = 4;

const CAUGHT: u16 = 5;

const KEPT: u16 = 6;

const LEFT: &[Left] = &[
    Left::Opened(SHOWN),
    Left::Nothing,
    Left::Nothing,
    Left::Opened(TRUSTS_ALICE),
    Left::Nothing,
    Left::Nothing,
    Left::Opened(NESTED),
    Left::Opened(CAUGHT),
    Left::Closed(KEPT),
];

fn is_set(stmt: &PStmt, wanted: u16, opened: bool) -> bool {
    match stmt {
        PStmt::LockSet(lock, opens) => *lock == wanted && *opens == opened,
        _ => false,
    }
}

fn is_nothing(stmt: &PStmt) -> bool {
    match stmt {
        PStmt::Block(stmts) => stmts.len() == 0,
        _ => false,
    }
}

fn is_left(stmt: &PStmt, left: Left) -> bool {
    match left {
        Left::Opened(lock) => is_set(stmt, lock, true),
        Left::Closed(lock) => is_set(stmt, lock, false),
        Left::Nothing => is_nothing(stmt),
    }
}

fn are_left(stmts: &[PStmt], left: &[Left]) -> bool {
    if stmts.len() != left.len() {
        return false;
    }
    for (stmt, left) in stmts.iter().zip(left) {
        if !is_left(stmt, *left) {
            return false;
        }
    }
    true
}

fn has_main(plain: &Plain) -> bool {
    match plain.classes.get(SHOP) {
        None => false,
        Some(class) => match class.methods.get(MAIN) {
            None => false,
            Some(method) => match &method.body {
                PStmt::Block(stmts) => are_left(stmts.as_slice(), LEFT),
                _ => false,
            },
        },
    }
}

fn program(alloc: Global) -> Result<Plain, Fail> {
    let typed = typed(alloc, SOURCE)?;
    let plain = erase(alloc, &typed);
    drop(typed);
    Ok(plain?)
}

#[test]
fn locks_that_nothing_asks_for_are_erased(rt: HostRuntime) -> Result<(), Fail> {
    let plain = program(rt.alloc())?;
    let has_main = has_main(&plain);
    drop(plain);
    expect(has_main, "the body of main")
}
