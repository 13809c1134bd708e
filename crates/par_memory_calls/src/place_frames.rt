//! Frames that list more locals than stand in one piece, 256, but not as many as one another. Those
//! that are not listed hold anything.

use crate::piles::{Kinds, MANY, pile_of};
use par_base::memory::NoMemory;
use par_frame_steps::{Merges, Pile, PlaceFrame, PlaceKind};
use par_worked::expect;
use std::alloc::Global;
use std::test::Fail;

/// How many locals a frame has.
const LOCALS: usize = 700;

/// How many of them one of two frames lists; the other lists more.
const FEWER: usize = 300;

/// A frame that lists so many nulls, but this kind at place 256.
fn frame_of(
    alloc: Global,
    kind: PlaceKind<'static>,
    listed: usize,
) -> Result<PlaceFrame<'static>, NoMemory> {
    let locals = pile_of(alloc, Kinds::NullsBut(kind), 256, listed)?;
    Ok(PlaceFrame {
        many: LOCALS,
        locals,
        stack: Pile::new(alloc),
    })
}

/// Whether a frame holds anything at place 256, and where one of two lists no local; and null
/// elsewhere.
fn holds_both(least: &PlaceFrame) -> bool {
    let first = matches!(least.locals.get(255), Some(PlaceKind::Null));
    let both = matches!(least.locals.get(256), Some(PlaceKind::Top));
    let last = matches!(least.locals.get(FEWER - 1), Some(PlaceKind::Null));
    let behind = matches!(least.locals.get(FEWER), None | Some(PlaceKind::Top));
    first && both && last && behind && least.places() == LOCALS
}

fn merge_holds_both(
    alloc: Global,
    merges: &mut Merges<'static>,
    one: &PlaceFrame<'static>,
    other: &PlaceFrame<'static>,
) -> Result<bool, NoMemory> {
    if !one.has_lengths_of(other) {
        return Ok(false);
    }
    let least = one.merged(alloc, merges, &[], other)?;
    let holds = holds_both(&least);
    drop(least);
    Ok(holds)
}

/// Whether this frame is merged with one of nulls alone.
fn meets_nulls(
    alloc: Global,
    merges: &mut Merges<'static>,
    ints: &PlaceFrame<'static>,
    nulls: usize,
) -> Result<bool, NoMemory> {
    let nulls = frame_of(alloc, PlaceKind::Null, nulls)?;
    let meets = merge_holds_both(alloc, merges, ints, &nulls);
    drop(nulls);
    meets
}

/// Whether frames are merged that list so many locals, an int among one's and nulls alone.
fn frames_meet(
    alloc: Global,
    merges: &mut Merges<'static>,
    ints: usize,
    nulls: usize,
) -> Result<bool, NoMemory> {
    let ints = frame_of(alloc, PlaceKind::Int, ints)?;
    let meet = meets_nulls(alloc, merges, &ints, nulls);
    drop(ints);
    meet
}

fn both_meet(alloc: Global, merges: &mut Merges<'static>) -> Result<(), Fail> {
    let fewer = frames_meet(alloc, merges, MANY, FEWER)?;
    expect(fewer, "the other lists fewer")?;
    let more = frames_meet(alloc, merges, FEWER, MANY)?;
    expect(more, "the other lists more")
}

#[test]
fn locals_are_merged_that_both_list(rt: HostRuntime) -> Result<(), Fail> {
    let mut merges: Merges<'static> = Merges::new(rt.alloc());
    let met = both_meet(rt.alloc(), &mut merges);
    drop(merges);
    met
}
