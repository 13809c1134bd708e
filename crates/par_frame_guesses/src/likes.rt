//! Pieces before which the same is known, whatever that is.
//!
//! A piece that leaves each frame as it is hands on what is known before it. So the same is known
//! before two pieces that go on to each other by such pieces, and before one to which nothing else
//! comes than what came to the piece before it. Such pieces go on as one.

use crate::back::is_marked;
use crate::spots::{Spot, Way};
use par_base::memory::NoMemory;
use std::alloc::Global;

/// How many ways to a piece are looked at: one to which more come is taken for like no other.
const FEW: usize = 4;

/// How often all pieces are looked at.
const ROUNDS: usize = 4;

/// What is found of pieces.
struct Alike {
    /// Of each piece whether it leaves each frame as it is.
    plain: Vec<bool>,
    /// Of each piece whether something is caught there.
    handlers: Vec<bool>,
    /// The pieces from which code goes on to each, but by what is caught.
    froms: Vec<Vec<usize>>,
    /// Of each piece another one before which the same is known, or itself.
    likes: Vec<usize>,
    /// Of each piece a plain one before which that is known which it leaves.
    behinds: Vec<Option<usize>>,
}

// Written out, so that what owns one is proved without its parts.
impl Drop for Alike {
    fn drop(self) {
        let Alike {
            plain: _,
            handlers: _,
            froms: _,
            likes: _,
            behinds: _,
        } = self;
    }
}

/// Whether a piece leaves each frame as it is.
fn is_plain(spot: &Spot) -> bool {
    let effect = &spot.effect;
    effect.changes.is_empty() && effect.taken == 0 && effect.pushed.is_empty()
}

/// The number at a place of a list, or that of the place.
fn like_at(likes: &[usize], number: usize) -> usize {
    match likes.get(number) {
        Some(like) => *like,
        None => number,
    }
}

impl Alike {
    /// No two pieces alike, nor any way.
    fn of_nothing(alloc: Global, spots: &[Spot]) -> Result<Alike, NoMemory> {
        let mut plain = Vec::new(alloc);
        let mut froms = Vec::new(alloc);
        let mut likes = Vec::new(alloc);
        for (number, spot) in spots.iter().enumerate() {
            plain.push(is_plain(spot))?;
            froms.push(Vec::new(alloc))?;
            likes.push(number)?;
        }
        Ok(Alike {
            plain,
            handlers: vec![in alloc; false; spots.len()]?,
            froms,
            likes,
            behinds: vec![in alloc; None; spots.len()]?,
        })
    }

    /// Adds a way.
    fn add(&mut self, from: usize, way: Way) -> Result<(), NoMemory> {
        if way.caught.is_some() {
            if let Some(handler) = self.handlers.get_mut(way.to) {
                *handler = true;
            }
            return Ok(());
        }
        if let Some(froms) = self.froms.get_mut(way.to) {
            froms.push(from)?;
        }
        Ok(())
    }

    /// One of the pieces from which code goes on to one.
    fn from(&self, number: usize, nth: usize) -> Option<usize> {
        match self.froms.get(number) {
            Some(froms) => match froms.get(nth) {
                Some(from) => Some(*from),
                None => None,
            },
            None => None,
        }
    }

    /// The piece that stands for all those before which the same is known as before one.
    fn like(&mut self, number: usize) -> usize {
        let mut at = number;
        for _step in 0..self.likes.len() {
            let next = like_at(&self.likes, at);
            if next == at {
                return at;
            }
            let far = like_at(&self.likes, next);
            if let Some(like) = self.likes.get_mut(at) {
                *like = far;
            }
            at = far;
        }
        at
    }

    /// A plain piece before which that is known which a piece leaves.
    fn behind(&self, from: usize) -> Option<usize> {
        if is_marked(&self.plain, from) {
            return Some(from);
        }
        match self.behinds.get(from) {
            Some(Some(to)) => Some(*to),
            _ => None,
        }
    }

    /// A number of what a piece leaves: that of a piece before which the same is known, or one of
    /// no piece.
    fn left(&mut self, from: usize) -> usize {
        match self.behind(from) {
            Some(to) => self.like(to),
            None => self.likes.len().saturating_add(from),
        }
    }

    /// Whether what has this number came before a piece.
    fn has(&mut self, number: usize, left: usize) -> bool {
        if self.like(number) == left {
            return true;
        }
        for nth in 0..FEW {
            let Some(from) = self.from(number, nth) else {
                return false;
            };
            if self.left(from) == left {
                return true;
            }
        }
        false
    }

    /// Whether the same is known before a piece as before another one, where that comes to it.
    fn is_as(&mut self, number: usize, above: usize) -> bool {
        if self.has(above, number) {
            return true;
        }
        for nth in 0..FEW {
            let Some(from) = self.from(number, nth) else {
                return true;
            };
            let left = self.left(from);
            if left != number && !self.has(above, left) {
                return false;
            }
        }
        false
    }

    /// Another piece before which the same is known.
    fn found(&mut self, number: usize) -> Option<usize> {
        for nth in 0..FEW {
            let from = self.from(number, nth)?;
            if let Some(above) = self.behind(from) {
                let like = self.like(above);
                if like != number && self.is_as(number, above) {
                    return Some(like);
                }
            }
        }
        None
    }

    /// Looks at a piece: whether something new is found of it.
    fn look(&mut self, number: usize) -> bool {
        let is_free = is_marked(&self.plain, number) && !is_marked(&self.handlers, number);
        if !is_free || like_at(&self.likes, number) != number {
            return false;
        }
        if let Some(like) = self.found(number) {
            if let Some(place) = self.likes.get_mut(number) {
                *place = like;
            }
            return true;
        }
        let Some(from) = self.from(number, 0) else {
            return false;
        };
        if self.from(number, 1).is_some() || self.behind(from).is_some() {
            return false;
        }
        if let Some(behind) = self.behinds.get_mut(from) {
            *behind = Some(number);
        }
        true
    }

    /// Looks at all pieces: whether something new is found.
    fn look_round(&mut self) -> bool {
        let mut is_new = false;
        for number in 0..self.likes.len() {
            is_new |= self.look(number);
        }
        is_new
    }
}

/// Of each piece one before which the same is known, and which stands for all these.
pub(crate) fn likes(alloc: Global, spots: &[Spot]) -> Result<Vec<usize>, NoMemory> {
    let mut found = Alike::of_nothing(alloc, spots)?;
    for (number, spot) in spots.iter().enumerate() {
        for way in spot.ways.as_slice() {
            found.add(number, *way)?;
        }
    }
    for _round in 0..ROUNDS {
        if !found.look_round() {
            break;
        }
    }
    let mut likes = Vec::new(alloc);
    for number in 0..spots.len() {
        likes.push(found.like(number))?;
    }
    Ok(likes)
}

/// No ways of so many pieces.
fn no_ways(alloc: Global, many: usize) -> Result<Vec<Vec<Way>>, NoMemory> {
    let mut ways = Vec::new(alloc);
    for _spot in 0..many {
        ways.push(Vec::new(alloc))?;
    }
    Ok(ways)
}

/// The ways of pieces, of those alike on the one that stands for them.
fn joined_ways(alloc: Global, spots: &[Spot], likes: &[usize]) -> Result<Vec<Vec<Way>>, NoMemory> {
    let mut joined = no_ways(alloc, spots.len())?;
    let mut lasts = vec![in alloc; usize::MAX; spots.len()]?;
    for (number, spot) in spots.iter().enumerate() {
        let from = like_at(likes, number);
        let is_plain = is_plain(spot);
        for way in spot.ways.as_slice() {
            let to = like_at(likes, way.to);
            let is_known = way.caught.is_none()
                && (is_plain && to == from || like_at(&lasts, to) == from);
            if !is_known && let Some(ways) = joined.get_mut(from) {
                ways.push(Way {
                    to,
                    caught: way.caught,
                })?;
            }
            if way.caught.is_none()
                && let Some(last) = lasts.get_mut(to)
            {
                *last = from;
            }
        }
    }
    Ok(joined)
}

/// Lets pieces before which the same is known go on as the one that stands for them.
pub(crate) fn join(alloc: Global, spots: &mut Vec<Spot>, likes: &[usize]) -> Result<(), NoMemory> {
    let mut joined = joined_ways(alloc, spots, likes)?;
    for number in (0..spots.len()).rev() {
        if let Some(ways) = joined.pop()
            && let Some(spot) = spots.get_mut(number)
        {
            spot.ways = ways;
        }
    }
    Ok(())
}
