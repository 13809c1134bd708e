//! What is known before a piece of code.

use crate::effect::{Effect, Held};
use crate::kinds::{Kinds, PLACES, bit_of, bits_below};
use crate::small_kind::SmallKind;
use par_base::memory::NoMemory;
use std::alloc::Global;

/// The kinds of 64 places, and which of them rose since they went on.
#[derive(Clone, Copy)]
struct Block {
    kinds: Kinds,
    risen: u64,
}

/// The kinds of locals before a piece, and behind them those of operands, the last that was pushed
/// at the end.
#[derive(Drop)]
pub struct Before {
    locals: usize,
    /// How many locals and operands there are.
    places: usize,
    blocks: Vec<Block>,
    /// No place went on yet.
    is_new: bool,
    /// Some place is to go on.
    is_due: bool,
}

impl Before {
    /// Nothing of so many places, which begin with so many locals.
    pub fn unset(alloc: Global, locals: usize, places: usize) -> Result<Before, NoMemory> {
        let block = Block {
            kinds: Kinds::unset(),
            risen: u64::MAX,
        };
        Ok(Before {
            locals,
            places,
            blocks: vec![in alloc; block; places.div_ceil(PLACES)]?,
            is_new: true,
            is_due: true,
        })
    }

    /// How many operands there are.
    pub fn operands(&self) -> usize {
        self.places.saturating_sub(self.locals)
    }

    /// The kind of a place.
    pub fn kind(&self, place: usize) -> SmallKind {
        match self.blocks.get(place / PLACES) {
            Some(block) => block.kinds.kind(bit_of(place)),
            None => SmallKind::Unset,
        }
    }

    /// Lets a kind stand at a place of which nothing was known.
    pub fn hold(&mut self, place: usize, kind: SmallKind) {
        if let Some(block) = self.blocks.get_mut(place / PLACES) {
            block.kinds.hold(bit_of(place), kind);
        }
    }

    /// Whether some place is to go on.
    pub fn is_due(&self) -> bool {
        self.is_due
    }

    /// Whether the same kinds are of as many places.
    pub fn is_like(&self, other: &Before) -> bool {
        if self.locals != other.locals || self.places != other.places {
            return false;
        }
        for (nth, block) in self.blocks.iter().enumerate() {
            if let Some(another) = other.blocks.get(nth)
                && !block.kinds.are(&another.kinds)
            {
                return false;
            }
        }
        true
    }

    /// All places have gone on.
    pub fn rest(&mut self) {
        for block in self.blocks.as_mut_slice() {
            block.risen = 0;
        }
        self.is_new = false;
        self.is_due = false;
    }

    /// The same kinds and places that are to go on.
    pub fn copied(&self, alloc: Global) -> Result<Before, NoMemory> {
        let mut blocks = Vec::new(alloc);
        blocks.extend_from_slice(&self.blocks)?;
        Ok(Before {
            locals: self.locals,
            places: self.places,
            blocks,
            is_new: self.is_new,
            is_due: self.is_due,
        })
    }

    /// The same kinds, of which none went on yet.
    fn renewed(&self, alloc: Global) -> Result<Before, NoMemory> {
        let mut before = self.copied(alloc)?;
        for block in before.blocks.as_mut_slice() {
            block.risen = u64::MAX;
        }
        before.is_new = true;
        before.is_due = true;
        Ok(before)
    }

    /// How much is looked at where what rose goes on by such an effect.
    pub fn work(&self, effect: &Effect) -> usize {
        self.blocks
            .len()
            .saturating_add(effect.changes.len())
            .saturating_add(effect.pushed.len())
            .saturating_add(1)
    }

    /// How many places an effect leaves where they are, but the locals that it sets.
    fn left_by(&self, effect: &Effect) -> usize {
        self.locals
            .saturating_add(self.operands().saturating_sub(effect.taken))
    }

    /// The place of what is held behind a piece, if there is one.
    fn place_of(&self, held: Held) -> Option<usize> {
        match held {
            Held::Kind(_) => None,
            Held::Local(local) if usize::from(local) < self.locals => Some(usize::from(local)),
            Held::Local(_) => None,
            Held::Operand(depth) if depth < self.operands() => {
                Some(self.places.saturating_sub(depth.saturating_add(1)))
            }
            Held::Operand(_) => None,
        }
    }

    /// Whether a place rose since it went on.
    fn rose(&self, place: usize) -> bool {
        match self.blocks.get(place / PLACES) {
            Some(block) => block.risen & bit_of(place) != 0,
            None => false,
        }
    }

    /// The kind of what is held behind a piece, if it did not go on yet.
    fn due(&self, held: Held) -> Option<SmallKind> {
        let kind = match (self.place_of(held), held) {
            (Some(place), _) => {
                if !self.rose(place) {
                    return None;
                }
                return Some(self.kind(place));
            }
            (None, Held::Kind(kind)) => kind,
            (None, _) => SmallKind::Top,
        };
        if !self.is_new {
            return None;
        }
        Some(kind)
    }

    /// Lets a kind come to a place.
    fn come(&mut self, place: usize, kind: SmallKind, bits: usize) {
        if place >= self.places {
            return;
        }
        let Some(block) = self.blocks.get_mut(place / PLACES) else {
            return;
        };
        let bit = bit_of(place);
        let risen = block.kinds.come(&Kinds::of(bit, kind), bit, bits);
        block.risen |= risen;
        self.is_due |= risen != 0;
    }

    /// Lets what rose of so many places come, but those locals that an effect sets.
    fn keep(&mut self, from: &Before, places: usize, effect: Option<&Effect>, bits: usize) {
        let mut rose = 0;
        for (nth, other) in from.blocks.iter().enumerate() {
            if other.risen != 0 && nth < self.blocks.len() {
                let below = bits_below(places, nth.saturating_mul(PLACES));
                let kept = match effect {
                    Some(effect) => other.risen & below & effect.kept(nth),
                    None => other.risen & below,
                };
                let block = &mut self.blocks[nth];
                let risen = block.kinds.come(&other.kinds, kept, bits);
                block.risen |= risen;
                rose |= risen;
            }
        }
        self.is_due |= rose != 0;
    }

    /// Lets come what an effect sets locals to.
    fn set(&mut self, from: &Before, effect: &Effect, bits: usize) {
        for change in effect.changes.as_slice() {
            let place = usize::from(change.local);
            if place < self.locals
                && let Some(kind) = from.due(change.to)
            {
                self.come(place, kind, bits);
            }
        }
    }

    /// Lets come what an effect pushes on so many places.
    fn push(&mut self, from: &Before, left: usize, effect: &Effect, bits: usize) {
        for (nth, held) in effect.pushed.iter().enumerate() {
            if let Some(kind) = from.due(*held) {
                self.come(left.saturating_add(nth), kind, bits);
            }
        }
    }

    /// Lets come what goes on by an effect, where classes have numbers of so many bits.
    pub fn follow(&mut self, from: &Before, effect: &Effect, bits: usize) {
        if effect.is_nothing() {
            self.keep(from, from.places, None, bits);
            return;
        }
        let left = from.left_by(effect);
        self.keep(from, left, Some(effect), bits);
        self.set(from, effect, bits);
        self.push(from, left, effect, bits);
    }

    /// Lets the locals come to a handler that catches such a kind.
    pub fn catch(&mut self, from: &Before, caught: SmallKind, bits: usize) {
        self.keep(from, from.locals, None, bits);
        self.come(self.locals, caught, bits);
    }

    /// What is known before a piece to which code comes first from the one behind this.
    pub fn behind(
        &self,
        alloc: Global,
        effect: &Effect,
        caught: Option<SmallKind>,
        bits: usize,
    ) -> Result<Before, NoMemory> {
        if caught.is_none() && effect.is_nothing() {
            return self.renewed(alloc);
        }
        let left = self.left_by(effect);
        let places = match caught {
            Some(_) => self.locals.saturating_add(1),
            None => left.saturating_add(effect.pushed.len()),
        };
        let mut before = Before::unset(alloc, self.locals, places)?;
        match caught {
            Some(caught) => before.catch(self, caught, bits),
            None => before.follow(self, effect, bits),
        }
        Ok(before)
    }
}
