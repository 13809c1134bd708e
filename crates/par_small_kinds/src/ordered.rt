//! Numbers of which the next one is found at once.

use par_base::memory::NoMemory;
use std::alloc::Global;

/// How many numbers have a bit in a word.
const WORD: usize = 64;

/// The bit of a number.
fn bit_of(number: usize) -> u64 {
    1u64 << (number % WORD) as u32
}

/// The least number from one on, of those in its word.
fn first_in(words: &[u64], from: usize) -> Option<usize> {
    match words.get(from / WORD) {
        Some(word) if *word >> (from % WORD) as u32 != 0 => {
            let far = (*word >> (from % WORD) as u32).trailing_zeros();
            Some(from.saturating_add(far as usize))
        }
        _ => None,
    }
}

/// The greatest number up to one, of those in its word.
fn last_in(words: &[u64], to: usize) -> Option<usize> {
    let above = (WORD - 1 - to % WORD) as u32;
    match words.get(to / WORD) {
        Some(word) if *word << above != 0 => {
            let far = (*word << above).leading_zeros();
            Some(to.saturating_sub(far as usize))
        }
        _ => None,
    }
}

/// The least number from one on.
fn first_from(words: &[u64], from: usize) -> Option<usize> {
    let mut at = from;
    for _word in 0..words.len() {
        if let Some(number) = first_in(words, at) {
            return Some(number);
        }
        at = (at / WORD).saturating_add(1).saturating_mul(WORD);
    }
    None
}

/// The greatest number up to one.
fn last_to(words: &[u64], to: usize) -> Option<usize> {
    let mut at = to;
    for _word in 0..words.len() {
        if let Some(number) = last_in(words, at) {
            return Some(number);
        }
        at = (at / WORD).saturating_mul(WORD).checked_sub(1)?;
    }
    None
}

/// Some numbers below a bound.
#[derive(Drop)]
pub struct Ordered {
    words: Vec<u64>,
    /// A bit for each word that has one.
    marks: Vec<u64>,
}

impl Ordered {
    /// None, and never one that is not below this bound.
    pub fn none(alloc: Global, bound: usize) -> Result<Ordered, NoMemory> {
        let words = bound.div_ceil(WORD);
        Ok(Ordered {
            words: vec![in alloc; 0u64; words]?,
            marks: vec![in alloc; 0u64; words.div_ceil(WORD)]?,
        })
    }

    /// Adds a number.
    pub fn add(&mut self, number: usize) {
        if let Some(word) = self.words.get_mut(number / WORD) {
            *word |= bit_of(number);
        }
        if let Some(mark) = self.marks.get_mut(number / WORD / WORD) {
            *mark |= bit_of(number / WORD);
        }
    }

    /// Leaves a number out.
    pub fn remove(&mut self, number: usize) {
        let Some(word) = self.words.get_mut(number / WORD) else {
            return;
        };
        *word &= !bit_of(number);
        if *word != 0 {
            return;
        }
        if let Some(mark) = self.marks.get_mut(number / WORD / WORD) {
            *mark &= !bit_of(number / WORD);
        }
    }

    /// The least of them from one on.
    pub fn first(&self, from: usize) -> Option<usize> {
        if let Some(number) = first_in(&self.words, from) {
            return Some(number);
        }
        let word = first_from(&self.marks, (from / WORD).saturating_add(1))?;
        first_in(&self.words, word.saturating_mul(WORD))
    }

    /// The greatest of them below one.
    pub fn last(&self, below: usize) -> Option<usize> {
        let to = below.checked_sub(1)?;
        if let Some(number) = last_in(&self.words, to) {
            return Some(number);
        }
        let word = last_to(&self.marks, (to / WORD).checked_sub(1)?)?;
        last_in(
            &self.words,
            word.saturating_mul(WORD).saturating_add(WORD - 1),
        )
    }
}
