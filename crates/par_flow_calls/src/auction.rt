//! What two runs of the auction show to a bidder who cannot tell their inputs apart.

use crate::keys::numbers;
use par_alike::alike;
use par_lexer::list::List;
use par_lexer::name::Name;
use par_meaning::{SourceEvent, SourceRun, run_source};
use par_policy::{Lockset, sees};
use par_typed::program::Typed;
use par_typed_sources::typed;
use par_values::inputs::{ChannelInput, Inputs};
use par_values::run::{Event, Val};
use par_worked::{AUCTION, expect};
use std::alloc::Global;
use std::rt::HostRuntime;
use std::test::Fail;

const ALICE: u8 = 0;

const DONE: u16 = 0;

// The number of the class, and of its field `best`.
const CLASS: usize = 2;

const BEST: usize = 0;

const BOUND: u64 = 1000;

fn line(alloc: Global, channel: Name, bid: i32) -> Result<ChannelInput, Fail> {
    let numbers = numbers(alloc, &[bid])?;
    let class = Name::new(alloc, b"Auction")?;
    Ok(ChannelInput {
        class,
        channel,
        numbers,
    })
}

fn line_of_alice(alloc: Global, bid: i32) -> Result<ChannelInput, Fail> {
    line(alloc, Name::new(alloc, b"aliceBids")?, bid)
}

fn line_of_bob(alloc: Global, bid: i32) -> Result<ChannelInput, Fail> {
    line(alloc, Name::new(alloc, b"bobBids")?, bid)
}

// Alice bids 30, and bob bids this.
fn put_bids(alloc: Global, of_bob: i32, lines: &mut List<ChannelInput>) -> Result<(), Fail> {
    lines.push(line_of_alice(alloc, 30)?)?;
    lines.push(line_of_bob(alloc, of_bob)?)?;
    Ok(())
}

fn bids(alloc: Global, of_bob: i32) -> Result<Inputs, Fail> {
    let mut channels = List::new(alloc);
    put_bids(alloc, of_bob, &mut channels)?;
    Ok(Inputs { channels })
}

// Alice sees the price without a lock.
fn is_price_shown(program: &Typed, no_lock: &Lockset) -> bool {
    let class = program.table.classes.get(CLASS);
    let Some(field) = class.and_then(|class| class.fields.get(BEST)) else {
        return false;
    };
    match program.table.policies.get(usize::from(field.policy)) {
        Some(policy) => sees(policy, ALICE, no_lock),
        None => false,
    }
}

fn sets_price(seen: &SourceEvent, price: i32) -> bool {
    match &seen.event {
        Event::Set(class, field, Val::Int(number)) => {
            class.bytes() == b"Auction".as_slice()
                && field.bytes() == b"best".as_slice()
                && *number == price
        }
        _ => false,
    }
}

// The first event of a run sets this price while Done is open.
fn begins_with(run: &SourceRun, price: i32) -> bool {
    match run.events.get(0) {
        Some(seen) => sets_price(seen, price) && seen.locks.has(DONE),
        None => false,
    }
}

fn run_on(alloc: Global, program: &Typed, bid: i32) -> Result<SourceRun, Fail> {
    let inputs = bids(alloc, bid)?;
    let run = run_source(alloc, program, &inputs, BOUND);
    drop(inputs);
    Ok(run?)
}

// Whether a run on this bid of bob begins with this price.
fn run_begins_with(alloc: Global, program: &Typed, bid: i32, price: i32) -> Result<bool, Fail> {
    let run = run_on(alloc, program, bid)?;
    let begins = begins_with(&run, price);
    drop(run);
    Ok(begins)
}

fn is_alike(alloc: Global, program: &Typed, low: &Inputs) -> Result<bool, Fail> {
    let high = bids(alloc, 50)?;
    let no_lock = Lockset::new(alloc);
    let is_alike = alike(low, &high, program, ALICE, &no_lock);
    drop(no_lock);
    drop(high);
    Ok(is_alike)
}

fn are_alike(alloc: Global, program: &Typed) -> Result<bool, Fail> {
    let low = bids(alloc, 45)?;
    let are_alike = is_alike(alloc, program, &low);
    drop(low);
    are_alike
}

// The prices of both runs.
const PRICES: &[(&str, i32)] = &[
    ("the first price comes while Done is open", 45),
    ("the second price differs while Done is open", 50),
];

fn check_prices(alloc: Global, program: &Typed) -> Result<(), Fail> {
    for (row, price) in PRICES {
        expect(run_begins_with(alloc, program, *price, *price)?, row)?;
    }
    Ok(())
}

fn check_alice(alloc: Global, program: &Typed) -> Result<(), Fail> {
    expect(are_alike(alloc, program)?, "they are alike for alice")?;
    let no_lock = Lockset::new(alloc);
    let is_shown = is_price_shown(program, &no_lock);
    drop(no_lock);
    expect(is_shown, "alice sees the price")
}

fn check_bids(alloc: Global, program: &Typed) -> Result<(), Fail> {
    check_alice(alloc, program)?;
    check_prices(alloc, program)
}

#[test]
fn bids_that_alice_cannot_tell_apart_show_once_both_are_done(rt: HostRuntime) -> Result<(), Fail> {
    let program = typed(rt.alloc(), AUCTION)?;
    let checked = check_bids(rt.alloc(), &program);
    drop(program);
    checked
}
