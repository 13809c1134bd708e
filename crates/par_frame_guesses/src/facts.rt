//! What is known before all pieces, which goes on from each before which it rose until none rises.

use crate::due::Due;
use crate::spots::{Spot, Way};
use par_base::memory::NoMemory;
use par_frame_steps::PlaceFrame;
use par_small_kinds::{Before, Classes, Effect, SmallKind};
use std::alloc::Global;

/// How many kinds are kept, before nothing is guessed.
const MOST_KINDS: usize = 12582912;

/// What is known before each piece to which code comes.
pub(crate) struct Facts {
    /// How many locals are listed.
    pub(crate) locals: usize,
    befores: Vec<Option<Before>>,
    /// The pieces to which code comes, or before which something rose, and that are to go on.
    due: Due,
    /// How many kinds are kept.
    kinds: usize,
}

// Written out, so that what owns one is proved without its parts.
impl Drop for Facts {
    fn drop(self) {
        let Facts {
            locals: _,
            befores: _,
            due: _,
            kinds: _,
        } = self;
    }
}

/// Lets what rose before a piece go on by a way.
fn follow(before: &mut Before, effect: &Effect, from: &Before, way: Way, bits: usize) {
    match way.caught {
        Some(caught) => before.catch(from, caught, bits),
        None => before.follow(from, effect, bits),
    }
}

/// Whether a piece goes on to itself.
fn comes_back(spot: &Spot, number: usize) -> bool {
    for way in spot.ways.as_slice() {
        if way.to == number {
            return true;
        }
    }
    false
}

/// Lets what rose before a piece come back to it, when it went on to all others.
fn go_round(
    alloc: Global,
    spot: &Spot,
    before: &mut Before,
    number: usize,
    bits: usize,
) -> Result<(), NoMemory> {
    if !comes_back(spot, number) {
        before.rest();
        return Ok(());
    }
    let from = before.copied(alloc)?;
    before.rest();
    for way in spot.ways.as_slice() {
        if way.to == number {
            follow(before, &spot.effect, &from, *way, bits);
        }
    }
    Ok(())
}

/// The kind of a place of a frame that lists so many locals, and then its operands.
fn small_at<'f>(
    classes: &mut Classes<'_, 'f>,
    locals: usize,
    frame: &PlaceFrame<'f>,
    place: usize,
) -> Result<SmallKind, NoMemory> {
    let kind = match place.checked_sub(locals) {
        None => frame.locals.get(place),
        Some(below) => frame.stack.get(below),
    };
    match kind {
        Some(kind) => classes.small(kind),
        None => Ok(SmallKind::Top),
    }
}

/// Holds the kinds of a frame that lists so many locals, at so many places.
fn hold<'f>(
    before: &mut Before,
    classes: &mut Classes<'_, 'f>,
    locals: usize,
    places: usize,
    frame: &PlaceFrame<'f>,
) -> Result<(), NoMemory> {
    for place in 0..places {
        let kind = small_at(classes, locals, frame, place)?;
        before.hold(place, kind);
    }
    Ok(())
}

impl Facts {
    /// Nothing, of so many pieces.
    pub(crate) fn of_nothing(
        alloc: Global,
        spots: &[Spot],
        locals: usize,
    ) -> Result<Facts, NoMemory> {
        let mut befores = Vec::new(alloc);
        for _spot in spots {
            befores.push(None)?;
        }
        Ok(Facts {
            locals,
            befores,
            due: Due::none(alloc, spots)?,
            kinds: 0,
        })
    }

    /// What is known before a piece, if code comes there.
    pub(crate) fn before(&self, number: usize) -> Option<&Before> {
        match self.befores.get(number) {
            Some(Some(before)) => Some(before),
            _ => None,
        }
    }

    /// What is known before a piece, which is put back when it went on.
    fn moved(&mut self, number: usize) -> Option<Before> {
        match self.befores.get_mut(number) {
            Some(place) => place.take(),
            None => None,
        }
    }

    /// Puts back what is known before a piece.
    fn put(&mut self, number: usize, before: Before) {
        let Some(place) = self.befores.get_mut(number) else {
            return;
        };
        let is_due = before.is_due();
        *place = Some(before);
        if is_due {
            self.due.add(number);
        }
    }

    /// Lets this stand before a piece to which code comes first.
    fn stand(&mut self, number: usize, before: Before) {
        let places = self.locals.saturating_add(before.operands());
        self.kinds = self.kinds.saturating_add(places);
        self.put(number, before);
    }

    /// Lets the frame that is told of a piece stand before it.
    pub(crate) fn tell<'f>(
        &mut self,
        alloc: Global,
        classes: &mut Classes<'_, 'f>,
        number: usize,
        frame: &PlaceFrame<'f>,
    ) -> Result<(), NoMemory> {
        if self.kinds > MOST_KINDS {
            return Ok(());
        }
        let places = self.locals.saturating_add(frame.stack.len());
        let mut before = Before::unset(alloc, self.locals, places)?;
        match hold(&mut before, classes, self.locals, places, frame) {
            Ok(()) => {
                self.stand(number, before);
                Ok(())
            }
            Err(error) => {
                drop(before);
                Err(error)
            }
        }
    }

    /// Lets what rose before a piece go on by a way to another.
    fn go(
        &mut self,
        alloc: Global,
        effect: &Effect,
        from: &Before,
        way: Way,
        bits: usize,
    ) -> Result<(), NoMemory> {
        let Some(Some(before)) = self.befores.get_mut(way.to) else {
            if self.kinds > MOST_KINDS {
                return Ok(());
            }
            let before = from.behind(alloc, effect, way.caught, bits)?;
            self.stand(way.to, before);
            return Ok(());
        };
        let was_due = before.is_due();
        follow(before, effect, from, way, bits);
        if !was_due && before.is_due() {
            self.due.add(way.to);
        }
        Ok(())
    }

    /// Lets what rose before a piece go on by all its ways: how much was looked at.
    fn go_on(
        &mut self,
        alloc: Global,
        spots: &[Spot],
        number: usize,
        bits: usize,
    ) -> Result<usize, NoMemory> {
        let Some(spot) = spots.get(number) else {
            return Ok(1);
        };
        let Some(mut from) = self.moved(number) else {
            return Ok(1);
        };
        for way in spot.ways.as_slice() {
            if way.to != number {
                self.go(alloc, &spot.effect, &from, *way, bits)?;
            }
        }
        let ways = spot.ways.len().saturating_add(1);
        let looked = from.work(&spot.effect).saturating_mul(ways);
        go_round(alloc, spot, &mut from, number, bits)?;
        self.put(number, from);
        Ok(looked)
    }

    /// Lets all go on until nothing rises: whether that was soon.
    pub(crate) fn settle(
        &mut self,
        alloc: Global,
        spots: &[Spot],
        bits: usize,
        patience: usize,
    ) -> Result<bool, NoMemory> {
        let mut left = patience;
        for _step in 0..patience {
            let Some(number) = self.due.next() else {
                return Ok(self.kinds <= MOST_KINDS);
            };
            let looked = self.go_on(alloc, spots, number, bits)?;
            let Some(rest) = left.checked_sub(looked) else {
                return Ok(false);
            };
            left = rest;
        }
        Ok(false)
    }
}
