//! Piles of more kinds than stand in one piece, 256: what is pushed and taken, what fits into what,
//! and the least pile above two. By the rules null fits into each class, and each class into itself
//! and into any; above two classes is any, and above an int and null anything.

use par_base::memory::NoMemory;
use par_frame_steps::{Merges, Pile, PlaceKind};
use par_worked::expect;
use std::alloc::Global;
use std::test::Fail;

/// How many kinds a pile has: two pieces of 256, and 88 behind them.
pub const MANY: usize = 600;

/// The first and the last kind of each piece and of what stands behind them, and others, those of
/// the pieces more than fits or merges are kept.
const PLACES: &[usize] = &[0, 1, 100, 254, 255, 256, 257, 400, 510, 511, 512, 599];

/// A name, of which each beginning is that of another class.
static NAME: [u8; MANY] = [b'a'; MANY];

/// The kinds of a pile.
#[derive(Clone, Copy)]
pub enum Kinds {
    /// Nulls, but this kind at one place.
    NullsBut(PlaceKind<'static>),
    /// Objects, each of another class.
    Different,
}

/// Objects of the class of that number.
fn class_at(place: usize) -> PlaceKind<'static> {
    match NAME.get(..place) {
        Some(name) => PlaceKind::Object(name),
        None => PlaceKind::Null,
    }
}

/// The kind of a place, where the one is another that is null elsewhere.
fn kind_at(kinds: Kinds, one: usize, place: usize) -> PlaceKind<'static> {
    match kinds {
        Kinds::NullsBut(kind) if place == one => kind,
        Kinds::NullsBut(_) => PlaceKind::Null,
        Kinds::Different => class_at(place),
    }
}

/// So many kinds behind those of a pile.
fn push_all(
    alloc: Global,
    pile: &mut Pile<'static>,
    kinds: Kinds,
    one: usize,
    many: usize,
) -> Result<(), NoMemory> {
    for place in 0..many {
        pile.push(alloc, kind_at(kinds, one, place))?;
    }
    Ok(())
}

/// A pile of so many kinds.
pub fn pile_of(
    alloc: Global,
    kinds: Kinds,
    one: usize,
    many: usize,
) -> Result<Pile<'static>, NoMemory> {
    let mut pile: Pile<'static> = Pile::new(alloc);
    push_all(alloc, &mut pile, kinds, one, many)?;
    Ok(pile)
}

/// Whether the kinds that are taken one by one are those that were pushed, the last one first.
fn come_back(alloc: Global, pile: &mut Pile, one: usize) -> Result<bool, NoMemory> {
    for place in (0..MANY).rev() {
        let is_int = matches!(pile.below(0), Some(PlaceKind::Int));
        if is_int != (place == one) {
            return Ok(false);
        }
        pile.take(alloc, 1)?;
    }
    Ok(pile.len() == 0)
}

fn kinds_come_back(alloc: Global, one: usize) -> Result<bool, NoMemory> {
    let mut pile = pile_of(alloc, Kinds::NullsBut(PlaceKind::Int), one, MANY)?;
    let come = come_back(alloc, &mut pile, one);
    drop(pile);
    come
}

fn all_come_back(alloc: Global, places: &[usize]) -> Result<(), Fail> {
    for one in places {
        expect(kinds_come_back(alloc, *one)?, "an int among nulls")?;
    }
    Ok(())
}

#[test]
fn kinds_are_taken_as_they_were_pushed(rt: HostRuntime) -> Result<(), Fail> {
    all_come_back(rt.alloc(), PLACES)
}

/// Two piles, which differ at one place alone or at all places: a row's name, the names of the
/// exceptions, whether the one fits into the other, and what is least above both at that place.
struct Pair {
    name: &'static str,
    one: Kinds,
    other: Kinds,
    exceptions: &'static [&'static [u8]],
    fits: bool,
    least: Kinds,
}

const NULLS: Kinds = Kinds::NullsBut(PlaceKind::Null);

const INT: Kinds = Kinds::NullsBut(PlaceKind::Int);

const A: Kinds = Kinds::NullsBut(PlaceKind::Object(b"A"));

const B: Kinds = Kinds::NullsBut(PlaceKind::Object(b"B"));

const ANYTHING: Kinds = Kinds::NullsBut(PlaceKind::Top);

const ANY_CLASS: Kinds = Kinds::NullsBut(PlaceKind::Base(false));

const ANY_EXCEPTION: Kinds = Kinds::NullsBut(PlaceKind::Base(true));

const PAIRS: &[Pair] = &[
    Pair {
        name: "the same class",
        one: A,
        other: A,
        exceptions: &[],
        fits: true,
        least: A,
    },
    Pair {
        name: "null and a class",
        one: NULLS,
        other: A,
        exceptions: &[],
        fits: true,
        least: A,
    },
    Pair {
        name: "a class and null",
        one: A,
        other: NULLS,
        exceptions: &[],
        fits: false,
        least: A,
    },
    Pair {
        name: "two classes",
        one: A,
        other: B,
        exceptions: &[],
        fits: false,
        least: ANY_CLASS,
    },
    Pair {
        name: "an exception and any exception",
        one: A,
        other: ANY_EXCEPTION,
        exceptions: &[b"A"],
        fits: true,
        least: ANY_EXCEPTION,
    },
    Pair {
        name: "a class that is no exception any more, and any exception",
        one: A,
        other: ANY_EXCEPTION,
        exceptions: &[],
        fits: false,
        least: ANY_CLASS,
    },
    Pair {
        name: "an int and null",
        one: INT,
        other: NULLS,
        exceptions: &[],
        fits: false,
        least: ANYTHING,
    },
    Pair {
        name: "nulls and different classes",
        one: NULLS,
        other: Kinds::Different,
        exceptions: &[],
        fits: true,
        least: Kinds::Different,
    },
    Pair {
        name: "the same different classes",
        one: Kinds::Different,
        other: Kinds::Different,
        exceptions: &[],
        fits: true,
        least: Kinds::Different,
    },
    Pair {
        name: "different classes, and an int among nulls",
        one: Kinds::Different,
        other: INT,
        exceptions: &[],
        fits: false,
        least: ANYTHING,
    },
];

/// Whether two kinds are the same.
fn are_alike(one: PlaceKind, other: PlaceKind) -> bool {
    one.fits_into(&[], other) && other.fits_into(&[], one)
}

/// Whether the one pile fits into the other as the row says, and so again.
fn fit(
    alloc: Global,
    merges: &mut Merges<'static>,
    pair: &Pair,
    one: &Pile<'static>,
    other: &Pile<'static>,
) -> Result<bool, NoMemory> {
    let first = one.fits(alloc, merges, pair.exceptions, other)?;
    let again = one.fits(alloc, merges, pair.exceptions, other)?;
    Ok(first == pair.fits && again == pair.fits)
}

/// Whether a pile has the row's least kind at a place.
fn is_least(least: &Pile, pair: &Pair, place: usize) -> bool {
    match least.get(place) {
        Some(kind) => are_alike(kind, kind_at(pair.least, place, place)),
        None => false,
    }
}

/// Whether the least pile above both has the row's kind at a place.
fn meet(
    alloc: Global,
    merges: &mut Merges<'static>,
    pair: &Pair,
    place: usize,
    one: &Pile<'static>,
    other: &Pile<'static>,
) -> Result<bool, NoMemory> {
    if one.len() != other.len() {
        return Ok(false);
    }
    let least = one.merged(alloc, merges, pair.exceptions, other)?;
    let is_least = is_least(&least, pair, place);
    drop(least);
    Ok(is_least)
}

/// Whether the row is right of two piles, and of what is merged again.
fn holds(
    alloc: Global,
    merges: &mut Merges<'static>,
    pair: &Pair,
    place: usize,
    one: &Pile<'static>,
    other: &Pile<'static>,
) -> Result<bool, NoMemory> {
    let fits = fit(alloc, merges, pair, one, other)?;
    let first = meet(alloc, merges, pair, place, one, other)?;
    let again = meet(alloc, merges, pair, place, one, other)?;
    Ok(fits && first && again)
}

/// Whether the row is right of this pile and its other one.
fn holds_of(
    alloc: Global,
    merges: &mut Merges<'static>,
    pair: &Pair,
    place: usize,
    one: &Pile<'static>,
) -> Result<bool, NoMemory> {
    let other = pile_of(alloc, pair.other, place, MANY)?;
    let holds = holds(alloc, merges, pair, place, one, &other);
    drop(other);
    holds
}

fn pair_holds(
    alloc: Global,
    merges: &mut Merges<'static>,
    pair: &Pair,
    place: usize,
) -> Result<bool, NoMemory> {
    let one = pile_of(alloc, pair.one, place, MANY)?;
    let holds = holds_of(alloc, merges, pair, place, &one);
    drop(one);
    holds
}

fn pair_holds_at(
    alloc: Global,
    merges: &mut Merges<'static>,
    pair: &Pair,
    places: &[usize],
) -> Result<(), Fail> {
    for place in places {
        expect(pair_holds(alloc, merges, pair, *place)?, pair.name)?;
    }
    Ok(())
}

fn pairs_hold(
    alloc: Global,
    merges: &mut Merges<'static>,
    pairs: &[Pair],
    places: &[usize],
) -> Result<(), Fail> {
    for pair in pairs {
        pair_holds_at(alloc, merges, pair, places)?;
    }
    Ok(())
}

#[test]
fn piles_fit_and_meet(rt: HostRuntime) -> Result<(), Fail> {
    let mut merges: Merges<'static> = Merges::new(rt.alloc());
    let held = pairs_hold(rt.alloc(), &mut merges, PAIRS, PLACES);
    drop(merges);
    held
}
