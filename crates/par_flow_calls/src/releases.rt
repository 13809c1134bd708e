//! Releases of worked programs: where an open lock matters to an actor.

use par_audit::{Release, audit};
use par_check::{Accepted, check};
use par_lexer::list::List;
use par_typed_sources::typed;
use par_worked::{AUCTION, expect};
use std::alloc::Global;
use std::rt::HostRuntime;
use std::test::Fail;

const SHOP: &[u8] = b"actor alice, bob;
lock Paid;
class Shop {
  ?{alice:; bob: Paid} input int key();
  ?{alice:; bob:} output void show(int v);
  static void main() !bottom {
    open Paid; show(key());
  }
}
";

const ALICE: u8 = 0;

const BOB: u8 = 1;

// Where the key is put out, and where the best bid is set.
const SHOWS: u32 = 171;

const SETS: u32 = 339;

// The most policies and classes that a table has, and the most bodies of a program.
const POLICIES: usize = 256;

const CLASSES: usize = 65_536;

const BODIES: usize = 65_536;

fn accepted(alloc: Global, source: &[u8]) -> Result<Accepted, Fail> {
    let typed = typed(alloc, source)?;
    if typed.table.policies.len() > POLICIES || typed.table.classes.len() > CLASSES {
        return Err(Fail::new("a table that is too long"));
    }
    if typed.bodies.len() > BODIES {
        return Err(Fail::new("too many bodies"));
    }
    Ok(check(alloc, typed)?)
}

fn releases_of(alloc: Global, accepted: &Accepted, actor: u8) -> Result<List<Release>, Fail> {
    let table = &accepted.typed().table;
    if table.policies.len() > POLICIES || table.classes.len() > CLASSES {
        return Err(Fail::new("a table that is too long"));
    }
    if usize::from(actor) >= table.actors.len() {
        return Err(Fail::new("no such actor"));
    }
    Ok(audit(alloc, accepted, actor)?)
}

fn releases(alloc: Global, source: &[u8], actor: u8) -> Result<List<Release>, Fail> {
    let accepted = accepted(alloc, source)?;
    let releases = releases_of(alloc, &accepted, actor);
    drop(accepted);
    releases
}

// One release and no other.
fn is_only(releases: &List<Release>, rule: u16, at: u32) -> bool {
    match releases.get(0) {
        None => false,
        Some(first) => releases.len() == 1 && first.rule == rule && first.at == at,
    }
}

#[test]
fn the_shop_releases_its_key_to_bob(rt: HostRuntime) -> Result<(), Fail> {
    let to_bob = releases(rt.alloc(), SHOP, BOB)?;
    let is_only = is_only(&to_bob, 403, SHOWS);
    drop(to_bob);
    expect(is_only, "where the key is shown to bob")
}

#[test]
fn the_shop_releases_nothing_to_alice(rt: HostRuntime) -> Result<(), Fail> {
    let to_alice = releases(rt.alloc(), SHOP, ALICE)?;
    let many = to_alice.len();
    drop(to_alice);
    expect(many == 0, "alice may see it at any time")
}

const BIDDERS: &[(&str, u8)] = &[
    ("the best bid to alice", ALICE),
    ("the best bid to bob", BOB),
];

fn releases_price(alloc: Global, actor: u8) -> Result<bool, Fail> {
    let releases = releases(alloc, AUCTION, actor)?;
    let is_only = is_only(&releases, 401, SETS);
    drop(releases);
    Ok(is_only)
}

#[test]
fn the_auction_releases_the_price_to_both(rt: HostRuntime) -> Result<(), Fail> {
    for (row, actor) in BIDDERS {
        expect(releases_price(rt.alloc(), *actor)?, row)?;
    }
    Ok(())
}
