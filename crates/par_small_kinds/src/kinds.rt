//! Kinds of 64 places, each of them in a bit of some words.
//!
//! What comes to a place is only ever added, so that all places of a word are joined at once.

use crate::small_kind::SmallKind;

/// How many places have a bit in a word.
pub(crate) const PLACES: usize = 64;

/// How many bits the number of a class has.
pub(crate) const BITS: usize = 16;

/// The bit of a place, of those 64 among which it is.
pub(crate) fn bit_of(place: usize) -> u64 {
    1u64 << (place % PLACES) as u32
}

/// The bits of the places below one, of the 64 from another place on.
pub(crate) fn bits_below(place: usize, from: usize) -> u64 {
    let many = place.saturating_sub(from);
    if many >= PLACES {
        return u64::MAX;
    }
    (1u64 << many as u32) - 1
}

/// What came to each of 64 places.
#[derive(Clone, Copy)]
pub(crate) struct Kinds {
    ints: u64,
    /// Null or an object. Where an int came too, the place may hold anything.
    references: u64,
    /// An object of an exception class.
    exceptions: u64,
    /// An object of another class.
    objects: u64,
    /// Objects of several classes.
    several: u64,
    /// The number of a class, bit by bit, where objects of one alone came.
    numbers: [u64; BITS],
}

impl Kinds {
    /// Nothing came.
    pub(crate) fn unset() -> Kinds {
        Kinds {
            ints: 0,
            references: 0,
            exceptions: 0,
            objects: 0,
            several: 0,
            numbers: [0; BITS],
        }
    }

    /// A kind came to some places.
    pub(crate) fn of(places: u64, kind: SmallKind) -> Kinds {
        let mut kinds = Kinds::unset();
        kinds.hold(places, kind);
        kinds
    }

    /// Lets a kind come to some places to which nothing came yet.
    pub(crate) fn hold(&mut self, places: u64, kind: SmallKind) {
        match kind {
            SmallKind::Unset => return,
            SmallKind::Int => {
                self.ints |= places;
                return;
            }
            SmallKind::Null => {}
            SmallKind::Exception(number) => {
                self.exceptions |= places;
                self.number(places, number);
            }
            SmallKind::Object(number) => {
                self.objects |= places;
                self.number(places, number);
            }
            SmallKind::AnyException => {
                self.exceptions |= places;
                self.several |= places;
            }
            SmallKind::AnyObject => {
                self.exceptions |= places;
                self.objects |= places;
                self.several |= places;
            }
            SmallKind::Top => self.ints |= places,
        }
        self.references |= places;
    }

    /// Numbers the class of some places that had none.
    fn number(&mut self, places: u64, number: u16) {
        let mut rest = number;
        for word in self.numbers.as_mut_slice() {
            if rest % 2 == 1 {
                *word |= places;
            }
            rest /= 2;
        }
    }

    /// The number of the class of a place.
    fn class(&self, place: u64) -> u16 {
        let mut number = 0;
        let mut worth: u16 = 1;
        for word in self.numbers.as_slice() {
            if word & place != 0 {
                number |= worth;
            }
            worth = worth.wrapping_mul(2);
        }
        number
    }

    /// The kind of a place.
    pub(crate) fn kind(&self, place: u64) -> SmallKind {
        if self.references & place == 0 {
            return if self.ints & place == 0 {
                SmallKind::Unset
            } else {
                SmallKind::Int
            };
        }
        if self.ints & place != 0 {
            return SmallKind::Top;
        }
        let is_several = self.several & place != 0;
        match (self.exceptions & place != 0, self.objects & place != 0) {
            (false, false) => SmallKind::Null,
            (true, false) if is_several => SmallKind::AnyException,
            (true, false) => SmallKind::Exception(self.class(place)),
            (false, true) if !is_several => SmallKind::Object(self.class(place)),
            (_, true) => SmallKind::AnyObject,
        }
    }

    /// Lets classes come to some places: where there is another one.
    fn come_classes(&mut self, from: &Kinds, places: u64, bits: usize) -> u64 {
        let had = self.exceptions | self.objects;
        let mut differ = 0;
        for bit in 0..bits.min(BITS) {
            let come = from.numbers[bit] & places;
            differ |= (self.numbers[bit] ^ come) & places;
            self.numbers[bit] |= come & !had;
        }
        differ & had
    }

    /// Lets kinds come to some places, whose classes have numbers of so many bits: where they rose.
    #[inline(always)]
    pub(crate) fn come(&mut self, from: &Kinds, places: u64, bits: usize) -> u64 {
        let places = places & !(self.ints & self.references);
        let classes = (from.exceptions | from.objects) & places;
        let others = self.come_classes(from, classes, bits);
        let ints = self.ints | (from.ints & places);
        let references = self.references | (from.references & places);
        let both = self.exceptions | (from.exceptions & places);
        let objects = self.objects | (from.objects & places);
        let several = self.several | (from.several & places) | others | (both & objects);
        let exceptions = both | (several & objects);
        let risen = (ints ^ self.ints)
            | (references ^ self.references)
            | (exceptions ^ self.exceptions)
            | (objects ^ self.objects)
            | (several ^ self.several);
        self.ints = ints;
        self.references = references;
        self.exceptions = exceptions;
        self.objects = objects;
        self.several = several;
        risen
    }

    /// Whether the classes of some places have the same numbers.
    fn are_classes(&self, other: &Kinds, places: u64) -> bool {
        for (bit, word) in self.numbers.iter().enumerate() {
            if bit < BITS && (word ^ other.numbers[bit]) & places != 0 {
                return false;
            }
        }
        true
    }

    /// Whether the same kinds are of all places.
    pub(crate) fn are(&self, other: &Kinds) -> bool {
        let tops = self.ints & self.references;
        let differ = (self.exceptions ^ other.exceptions)
            | (self.objects ^ other.objects)
            | (self.several ^ other.several);
        self.ints == other.ints
            && self.references == other.references
            && differ & !tops == 0
            && self.are_classes(
                other,
                (self.exceptions | self.objects) & !tops & !self.several,
            )
    }
}
