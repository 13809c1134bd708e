//! The pieces that are to go on, and which of them does so next.
//!
//! Those go first that are inside most loops, so that inner loops come to rest before outer ones.
//! Among these it is the next one ahead, and where none is the order turns round: so whatever comes
//! to a piece from many others gathers there before it goes on.

use crate::spots::Spot;
use par_base::memory::NoMemory;
use par_small_kinds::Ordered;
use std::alloc::Global;

/// A piece, by the loops around it.
#[derive(Clone, Copy, PartialEq, Eq, PartialOrd, Ord, Drop)]
struct Nested {
    loops: usize,
    number: usize,
}

/// Pieces that are to go on.
pub(crate) struct Due {
    /// All pieces, those behind that are inside most loops.
    order: Vec<Nested>,
    /// The place of each piece in the order.
    ranks: Vec<usize>,
    /// For each place the first one that is inside as many loops.
    floors: Vec<usize>,
    /// The places of those that are to go on.
    places: Ordered,
    /// None of these places is behind this one.
    top: usize,
    /// The place of the one that went on last.
    at: usize,
    goes_ahead: bool,
}

// Written out, so that what owns one is proved without its parts.
impl Drop for Due {
    fn drop(self) {
        let Due {
            order: _,
            ranks: _,
            floors: _,
            places: _,
            top: _,
            at: _,
            goes_ahead: _,
        } = self;
    }
}

/// Of each piece the last one from which code goes back to it, or itself.
fn last_backs(alloc: Global, spots: &[Spot]) -> Result<Vec<usize>, NoMemory> {
    let mut lasts = Vec::new(alloc);
    for number in 0..spots.len() {
        lasts.push(number)?;
    }
    for (number, spot) in spots.iter().enumerate() {
        for way in spot.ways.as_slice() {
            if let Some(last) = lasts.get_mut(way.to) {
                *last = number.max(*last);
            }
        }
    }
    Ok(lasts)
}

/// The pieces, each with how many others before or at it have code behind it that goes back there.
fn in_order(alloc: Global, spots: &[Spot]) -> Result<Vec<Nested>, NoMemory> {
    let lasts = last_backs(alloc, spots)?;
    let mut ends = vec![in alloc; 0usize; spots.len()]?;
    let mut order = Vec::new(alloc);
    let mut loops: usize = 0;
    for (number, last) in lasts.iter().enumerate() {
        loops = loops.saturating_add(1);
        if let Some(end) = ends.get_mut(*last) {
            *end = end.saturating_add(1);
        }
        order.push(Nested { loops, number })?;
        if let Some(end) = ends.get(number) {
            loops = loops.saturating_sub(*end);
        }
    }
    order.sort()?;
    Ok(order)
}

/// The place of each piece in an order.
fn ranks(alloc: Global, order: &[Nested]) -> Result<Vec<usize>, NoMemory> {
    let mut ranks = vec![in alloc; 0usize; order.len()]?;
    for (rank, piece) in order.iter().enumerate() {
        if let Some(place) = ranks.get_mut(piece.number) {
            *place = rank;
        }
    }
    Ok(ranks)
}

/// For each place in an order the first one that is inside as many loops.
fn floors(alloc: Global, order: &[Nested]) -> Result<Vec<usize>, NoMemory> {
    let mut floors = Vec::new(alloc);
    let mut floor = 0;
    let mut loops = 0;
    for (rank, piece) in order.iter().enumerate() {
        if piece.loops != loops {
            floor = rank;
            loops = piece.loops;
        }
        floors.push(floor)?;
    }
    Ok(floors)
}

/// A number of a list, or 0.
fn number_at(numbers: &[usize], place: usize) -> usize {
    match numbers.get(place) {
        Some(number) => *number,
        None => 0,
    }
}

impl Due {
    /// None of these pieces.
    pub(crate) fn none(alloc: Global, spots: &[Spot]) -> Result<Due, NoMemory> {
        let order = in_order(alloc, spots)?;
        let ranks = ranks(alloc, &order)?;
        let floors = floors(alloc, &order)?;
        Ok(Due {
            order,
            ranks,
            floors,
            places: Ordered::none(alloc, spots.len())?,
            top: 0,
            at: 0,
            goes_ahead: true,
        })
    }

    /// Adds a piece.
    pub(crate) fn add(&mut self, number: usize) {
        let rank = number_at(&self.ranks, number);
        self.places.add(rank);
        self.top = rank.max(self.top);
    }

    /// The place that goes on next, where this is the last one.
    fn chosen(&mut self, last: usize) -> usize {
        let floor = number_at(&self.floors, last);
        if number_at(&self.floors, self.at) != floor {
            self.at = floor;
            self.goes_ahead = true;
        }
        if self.goes_ahead
            && let Some(place) = self.places.first(self.at)
        {
            return place;
        }
        self.goes_ahead = false;
        if let Some(place) = self.places.last(self.at)
            && place >= floor
        {
            return place;
        }
        self.goes_ahead = true;
        match self.places.first(floor) {
            Some(place) => place,
            None => last,
        }
    }

    /// The piece that goes on next, which is left out, if there is one.
    pub(crate) fn next(&mut self) -> Option<usize> {
        let last = self.places.last(self.top.saturating_add(1))?;
        self.top = last;
        let place = self.chosen(last);
        self.places.remove(place);
        self.at = place;
        match self.order.get(place) {
            Some(piece) => Some(piece.number),
            None => None,
        }
    }
}
