// Sets of numbers, 64 in a word.
ghost use Rattle.std.specs.Prelude.{◌≡◌, ℕ, ◌*◌, ◌<◌, ◌≤◌, ◌↔◌, IsTrue};
ghost use Rattle.par_bits.specs.Sets.{has, none, adding, union, meet, minus, IsWithin, size};

use std::marker::Model;

const WORD: u32 = u64::BITS;

/// A set of numbers below `64 * W`.
#[derive(Clone, Copy)]
pub struct Bits<const W: usize> {
    words: [u64; W],
}

impl<const W: usize> Model for Bits<W> {
    ghost use Rattle.std.specs.Prelude.{◌≡◌, ℕ, ◌≤◌, length};
    ghost use Rattle.par_bits.specs.Words.{AreWords, number, words_of, words_of-number};

    ghost Value = { ℕ };

    ghost view = { λ b. number b.words };

    ghost invariant = { λ b. (length b.words ≡ W) × (W ≤ 64) × AreWords b.words };

    ghost inverse = { λ n. record { words = words_of W n } };

    ghost inverse_ok = { λ b h i. record { words = words_of-number W b.words h.0 h.2 i } };
}

impl<const W: usize> Bits<W> {
    /// The set without members.
    pub fn empty() -> Self
        requires { W ≤ 64 }
        ensures { has result ≡ none }
    {
        Bits { words: [0; W] }
    }

    /// The set with this number in it too.
    pub fn with(mut self, i: u32) -> Self
        requires { i < 64 * W }
        ensures { has result ≡ adding (has self.entry) i }
    {
        self.words[(i / WORD) as usize] |= 1 << (i % WORD);
        self
    }

    /// Whether the number is in the set.
    pub fn has(&self, i: u32) -> bool
        requires { i < 64 * W }
        ensures { result ≡ has self.now i }
    {
        (self.words[(i / WORD) as usize] >> (i % WORD)) & 1 == 1
    }

    /// What is in one of the sets.
    pub fn union(&self, other: &Self) -> Self
        ensures { has result ≡ union (has self.now) (has other.now) }
    {
        let mut words = self.words;
        for k in 0..W {
            words[k] |= other.words[k];
        }
        Bits { words }
    }

    /// What is in both sets.
    pub fn meet(&self, other: &Self) -> Self
        ensures { has result ≡ meet (has self.now) (has other.now) }
    {
        let mut words = self.words;
        for k in 0..W {
            words[k] &= other.words[k];
        }
        Bits { words }
    }

    /// What is in this set and not in the other one.
    pub fn minus(&self, other: &Self) -> Self
        ensures { has result ≡ minus (has self.now) (has other.now) }
    {
        let mut words = self.words;
        for k in 0..W {
            words[k] &= !other.words[k];
        }
        Bits { words }
    }

    /// Whether each member of this set is in the other one.
    pub fn within(&self, other: &Self) -> bool
        ensures { IsTrue result ↔ IsWithin (has self.now) (has other.now) }
    {
        for (k, word) in self.words.iter().enumerate() {
            if *word | other.words[k] != other.words[k] {
                return false;
            }
        }
        true
    }

    /// Each member is below the bound: a law, of which nothing runs.
    pub fn members_are_below(&self)
        ensures { (n : ℕ) → IsTrue (has self.now n) → n < 64 * W }
    {
        let _words = &self.words;
    }

    /// How many members the set has.
    pub fn count(&self) -> u32
        ensures { result ≡ size (has self.now) (64 * W) }
    {
        let mut members = 0;
        for word in &self.words {
            members += word.count_ones();
        }
        members
    }
}
