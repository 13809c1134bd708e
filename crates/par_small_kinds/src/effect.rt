//! What straight code makes of any frame: which places it sets, and to what.

use crate::classes::Classes;
use crate::kinds::{PLACES, bit_of};
use crate::small_kind::SmallKind;
use par_base::memory::NoMemory;
use par_frame_steps::Act;
use par_frame_steps::act::Leaves;
use std::alloc::Global;

/// How many words have a bit for each local that is set.
const WORDS: usize = 4;

/// What a place holds behind the code.
#[derive(Clone, Copy)]
pub enum Held {
    Kind(SmallKind),
    /// What a local held before it.
    Local(u8),
    /// What an operand held before it, 0 for the one that was pushed last.
    Operand(usize),
}

/// A local that is set.
#[derive(Clone, Copy)]
pub struct Change {
    pub local: u8,
    pub to: Held,
}

/// What code makes of a frame.
pub struct Effect {
    pub changes: Vec<Change>,
    /// A bit for each local that is set.
    sets: [u64; WORDS],
    /// How many operands it takes of those that were there.
    pub taken: usize,
    /// What it pushes then, the last at the end.
    pub pushed: Vec<Held>,
}

// Written out, so that what owns one is proved without its parts.
impl Drop for Effect {
    fn drop(self) {
        let Effect {
            changes: _,
            sets: _,
            taken: _,
            pushed: _,
        } = self;
    }
}

impl Effect {
    /// That of no code.
    pub fn of_nothing(alloc: Global) -> Effect {
        Effect {
            changes: Vec::new(alloc),
            sets: [0; WORDS],
            taken: 0,
            pushed: Vec::new(alloc),
        }
    }

    /// Whether it leaves each frame as it is.
    pub(crate) fn is_nothing(&self) -> bool {
        self.changes.is_empty() && self.taken == 0 && self.pushed.is_empty()
    }

    /// Of the places in a word those that are no local that is set.
    pub(crate) fn kept(&self, word: usize) -> u64 {
        match self.sets.get(word) {
            Some(sets) => !*sets,
            None => u64::MAX,
        }
    }

    /// Whether it sets a local.
    fn sets(&self, local: u8) -> bool {
        let place = usize::from(local);
        self.kept(place / PLACES) & bit_of(place) == 0
    }

    /// What a local holds behind the code so far.
    fn local(&self, local: u8) -> Held {
        if !self.sets(local) {
            return Held::Local(local);
        }
        for change in self.changes.as_slice() {
            if change.local == local {
                return change.to;
            }
        }
        Held::Local(local)
    }

    /// Sets a local that is set already.
    fn reset(&mut self, local: u8, to: Held) {
        for change in self.changes.as_mut_slice() {
            if change.local == local {
                change.to = to;
                return;
            }
        }
    }

    /// Sets a local.
    fn set(&mut self, local: u8, to: Held) -> Result<(), NoMemory> {
        if self.sets(local) {
            self.reset(local, to);
            return Ok(());
        }
        let place = usize::from(local);
        self.sets[place / PLACES] |= bit_of(place);
        self.changes.push(Change { local, to })?;
        Ok(())
    }

    /// Takes an operand.
    fn pop(&mut self) -> Held {
        if let Some(held) = self.pushed.pop() {
            return held;
        }
        let place = self.taken;
        self.taken = self.taken.saturating_add(1);
        Held::Operand(place)
    }

    /// Takes so many operands, and gives the first of them.
    fn pop_all(&mut self, many: usize) -> Held {
        if many == 0 {
            return Held::Kind(SmallKind::Top);
        }
        let first = self.pop();
        for _other in 1..many {
            self.pop();
        }
        first
    }

    /// Goes on by an instruction.
    pub fn follow<'f>(
        &mut self,
        classes: &mut Classes<'_, 'f>,
        act: &Act<'f>,
    ) -> Result<(), NoMemory> {
        let top = self.pop_all(act.takes.len());
        match act.leaves {
            Leaves::Gives(Some(kind)) => {
                let kind = classes.small(kind)?;
                self.pushed.push(Held::Kind(kind))?;
            }
            Leaves::Gives(None) => {}
            Leaves::Loads(x) => {
                let held = self.local(x);
                self.pushed.push(held)?;
            }
            Leaves::Copies => {
                self.pushed.push(top)?;
                self.pushed.push(top)?;
            }
            Leaves::Stores(x) => self.set(x, top)?,
        }
        Ok(())
    }
}
