//! Kinds that are found quickly.

ghost use Rattle.std.specs.Prelude.{◌≡◌, ◌<◌, [], ◌∷◌, ◌++◌, length, IsTrue, IfOk, IfSome};
ghost use Rattle.par_kinds.specs.Kinds.{kind_at};
ghost use Rattle.par_place_kinds.specs.Marks.{kind_of, kinds_of};

use crate::kind::PlaceKind;
use crate::kinds::copied;
use par_base::memory::NoMemory;
use std::alloc::Global;
use std::hash::{FoldHasher, Hasher};
use std::marker::Model;

/// How many kinds there are at most, as many as a byte tells.
const MOST_KINDS: usize = 256;

/// How many slots there are, as many as a byte tells.
const SLOTS: usize = 256;

/// In how many slots, one behind another, a kind may be.
const TRIES: u8 = 8;

/// A number that hardly any two names share, unless they were chosen to.
fn mark_of_name(name: &[u8]) -> u64 {
    let mut hasher = FoldHasher::default();
    hasher.write(name);
    hasher.finish()
}

/// A number that hardly any two kinds share.
fn mark_of(kind: PlaceKind) -> u64 {
    match kind {
        PlaceKind::Top => 0,
        PlaceKind::Int => 1,
        PlaceKind::Null => 2,
        PlaceKind::Base(false) => 3,
        PlaceKind::Base(true) => 4,
        PlaceKind::Object(name) => mark_of_name(name),
    }
}

/// The slot in which a kind of this mark is looked for first.
fn first_slot(mark: u64) -> u8 {
    (mark % 256) as u8
}

/// Kinds, each of which is looked for in few slots, and where these are taken by others, by its
/// mark. Contracts see the kinds.
pub(crate) struct Lookup<'f> {
    kinds: Vec<PlaceKind<'f>>,
    /// The marks of kinds.
    marks: Vec<u64>,
    /// The places of kinds.
    slots: [Option<u8>; SLOTS],
}

// Written out, so that what owns one is proved without its parts.
impl Drop for Lookup<'_> {
    fn drop(self) {
        let Lookup {
            kinds: _,
            marks: _,
            slots: _,
        } = self;
    }
}

impl<'f> Model for Lookup<'f> {
    ghost use Rattle.std.specs.Prelude.{List};
    ghost use Rattle.par_kinds.specs.declared.frame.VKind.{VKind};
    ghost use Rattle.par_place_kinds.specs.Marks.{kinds_of};

    ghost Value = { List VKind };

    ghost view = { λ l. kinds_of l.kinds.items };
}

impl<'f> Lookup<'f> {
    /// No kinds.
    pub(crate) fn new(alloc: Global) -> Lookup<'f>
        ensures { result ≡ [] }
    {
        Lookup {
            kinds: Vec::new(alloc),
            marks: Vec::new(alloc),
            slots: [None; SLOTS],
        }
    }

    /// The kinds.
    pub(crate) fn kinds(&self) -> &[PlaceKind<'f>]
        ensures { kinds_of result.now ≡ self.now }
    {
        self.kinds.as_slice()
    }

    /// The kinds once more.
    pub(crate) fn copied(&self, alloc: Global) -> Result<Lookup<'f>, NoMemory>
        ensures { IfOk result (λ found. found ≡ self.now) }
    {
        let mut marks = Vec::new(alloc);
        marks.extend_from_slice(&self.marks)?;
        Ok(Lookup {
            kinds: copied(alloc, &self.kinds)?,
            marks,
            slots: self.slots,
        })
    }

    /// Whether the kind of a place is seen to be this one.
    fn is_at(&self, number: u8, kind: PlaceKind) -> bool
        ensures { IsTrue result → (number < length self.now)
            × (kind_of kind.entry ≡ kind_at self.now number) }
    {
        match self.kinds.get(usize::from(number)) {
            Some(other) => kind.is_same(*other),
            None => false,
        }
    }

    /// Whether the kind of a place has this mark.
    fn has_mark(&self, number: u8, mark: u64) -> bool {
        match self.marks.get(usize::from(number)) {
            Some(own) => *own == mark,
            None => false,
        }
    }

    /// The place of a kind, if it is seen by its mark.
    fn marked(&self, mark: u64, kind: PlaceKind) -> Option<u8>
        ensures { IfSome result (λ number. (number < length self.now)
            × (kind_of kind.entry ≡ kind_at self.now number)) }
    {
        for (place, own) in self.marks.iter().enumerate() {
            if place < MOST_KINDS && *own == mark && self.is_at(place as u8, kind) {
                return Some(place as u8);
            }
        }
        None
    }

    /// The place of a kind, if it is seen in its slots, or by its mark where these are taken.
    fn found(&self, kind: PlaceKind) -> Option<u8>
        ensures { IfSome result (λ number. (number < length self.now)
            × (kind_of kind.entry ≡ kind_at self.now number)) }
    {
        let mark = mark_of(kind);
        let first = first_slot(mark);
        for step in 0..TRIES {
            let Some(number) = self.slots[usize::from(first.wrapping_add(step))] else {
                return None;
            };
            if self.has_mark(number, mark) && self.is_at(number, kind) {
                return Some(number);
            }
        }
        self.marked(mark, kind)
    }

    /// The place of a kind, if it is seen where it is guessed or is found.
    pub(crate) fn number_of(&self, kind: PlaceKind, guess: Option<u8>) -> Option<u8>
        ensures { IfSome result (λ number. (number < length self.now)
            × (kind_of kind.entry ≡ kind_at self.now number)) }
    {
        let Some(number) = guess else {
            return self.found(kind);
        };
        if self.is_at(number, kind) {
            return Some(number);
        }
        self.found(kind)
    }

    /// Puts a kind behind them, or tells that there are too many.
    pub(crate) fn push(&mut self, kind: PlaceKind<'f>) -> Result<bool, NoMemory>
        ensures { IfOk result (λ done. IsTrue done
            → self.new ≡ self.old ++ kind_of kind.entry ∷ []) }
    {
        let number = self.kinds.len();
        if number >= MOST_KINDS {
            return Ok(false);
        }
        let mark = mark_of(kind);
        self.marks.push(mark)?;
        self.kinds.push(kind)?;
        self.note(number as u8, first_slot(mark));
        Ok(true)
    }

    /// Puts the place of a kind into a slot, if one of them is empty.
    fn note(&mut self, number: u8, first: u8)
        ensures { self.new ≡ self.old }
    {
        for step in 0..TRIES {
            let slot = usize::from(first.wrapping_add(step));
            if self.slots[slot].is_none() {
                self.slots[slot] = Some(number);
                return;
            }
        }
    }
}
