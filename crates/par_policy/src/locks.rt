// Sets of ground locks.
ghost use Rattle.std.specs.Prelude.{◌≡◌, ◌↔◌, [], ◌++◌, All, Contains, IsTrue, IfOk, OnOk, OnErr};
ghost use Rattle.par_policy.specs.Numbers.{IsAscending, has, within, Gains};
ghost use Rattle.par_policy.specs.Numbers.{IsUnion, IsDifference, IsIntersection};
ghost use Rattle.par_policy.specs.Marks.{AreMarks};

use crate::numbers::NumberSet;
use crate::open::OpenLocks;
use par_base::memory::NoMemory;
use par_bits::Bits;
use std::alloc::{AllocError, Global};
use std::marker::Model;

// Locks below this number are kept as bits too.
const SMALL: u16 = 256;

/// A set of ground locks by their numbers, which contracts see as an ascending list. Sets of small
/// numbers are compared by four words.
#[derive(Drop)]
pub struct Lockset {
    locks: NumberSet,
    bits: Option<Bits<4>>,
}

impl Model for Lockset {
    ghost use Rattle.std.specs.Prelude.{ℕ, List};
    ghost use Rattle.par_policy.specs.Numbers.{IsAscending};
    ghost use Rattle.par_policy.specs.Marks.{AreMarks};

    ghost Value = { List ℕ };

    ghost view = { λ s. s.locks };

    ghost invariant = { λ s. IsAscending s.locks × AreMarks s.bits s.locks };
}

impl Lockset {
    /// The set without locks. It takes no memory.
    pub fn new(alloc: Global) -> Lockset
        ensures { result ≡ [] }
    {
        Lockset::of(NumberSet::new(alloc))
    }

    fn of(locks: NumberSet) -> Lockset
        ensures { result ≡ locks }
    {
        let bits = bits_of(locks.as_slice());
        Lockset { locks, bits }
    }

    /// Whether the lock is in the set.
    pub fn has(&self, lock: u16) -> bool
        ensures member { IsTrue result ↔ Contains self.now lock }
        ensures test { result ≡ has self.now lock }
        ensures ascending { IsAscending self.now }
    {
        self.holds(lock)
    }

    fn holds(&self, lock: u16) -> bool
        ensures test { result ≡ has self.now lock }
        ensures ascending { IsAscending self.now }
    {
        if lock < SMALL {
            if let Some(bits) = self.bits {
                return bits.has(u32::from(lock));
            }
        }
        self.locks.has(lock)
    }

    /// Whether each lock of this set is in the other one.
    pub fn within(&self, other: &Lockset) -> bool
        ensures subset { IsTrue result ↔ All (Contains other.now) self.now }
        ensures test { result ≡ within self.now other.now }
    {
        self.is_part(other)
    }

    fn is_part(&self, other: &Lockset) -> bool
        ensures { result ≡ within self.now other.now }
    {
        if let Some(bits) = self.bits {
            if let Some(all) = other.bits {
                return bits.within(&all);
            }
        }
        self.locks.within(&other.locks)
    }

    // Whether each lock of this set is in the other one, or open.
    pub(crate) fn within_both<L: OpenLocks>(&self, one: &Lockset, opened: &L) -> bool
        ensures { result ≡ within self.now (one.now ++ L.locks opened.now) }
    {
        self.within_marked(one, opened, &bits_of_either(one, opened))
    }

    // The same, where the bits of both are at hand.
    pub(crate) fn within_marked<L: OpenLocks>(
        &self,
        one: &Lockset,
        opened: &L,
        marks: &Option<Bits<4>>,
    ) -> bool
        requires { AreMarks marks.now (one.now ++ L.locks opened.now) }
        ensures { result ≡ within self.now (one.now ++ L.locks opened.now) }
    {
        if let Some(bits) = self.bits {
            if let Some(all) = marks {
                return bits.within(all);
            }
        }
        self.each_within_both(one, opened)
    }

    fn each_within_both<L: OpenLocks>(&self, one: &Lockset, opened: &L) -> bool
        ensures { result ≡ within self.now (one.now ++ L.locks opened.now) }
    {
        for lock in self.locks.as_slice() {
            if !one.has(*lock) && !opened.is_open(*lock) {
                return false;
            }
        }
        true
    }

    /// Puts the lock into the set, which stays as it is where the lock is there already.
    pub fn insert(&mut self, lock: u16) -> Result<(), NoMemory>
        ensures ok { OnOk result (Gains self.old self.new lock) }
        ensures err { OnErr result (self.new ≡ self.old) }
        ensures ascending { IsAscending self.new }
    {
        self.locks.insert(lock)?;
        self.bits = bits_of(self.locks.as_slice());
        Ok(())
    }

    /// The locks that are in one of the sets.
    pub fn union(&self, alloc: Global, other: &Lockset) -> Result<Lockset, NoMemory>
        ensures numbers { IfOk result (λ s. IsUnion s self.now other.now) }
        ensures ascending { IfOk result (λ s. IsAscending s) }
    {
        let locks = self.locks.union(alloc, &other.locks)?;
        Ok(Lockset::of(locks))
    }

    // How many locks are in one of the sets, which is exact where both are kept as bits.
    pub(crate) fn count_of_either(&self, other: &Lockset) -> usize {
        if let Some(bits) = &self.bits {
            if let Some(more) = &other.bits {
                return bits.union(more).count() as usize;
            }
        }
        self.as_slice().len().max(other.as_slice().len())
    }

    // The locks that are in one of the sets, where both are kept as bits.
    pub(crate) fn bits_of_both(&self, other: &Lockset) -> Option<Bits<4>>
        ensures { AreMarks result (self.now ++ other.now) }
    {
        if let Some(bits) = &self.bits {
            if let Some(more) = &other.bits {
                return Some(bits.union(more));
            }
        }
        None
    }

    /// The locks of this set that are not in the other one.
    pub fn minus(&self, alloc: Global, other: &Lockset) -> Result<Lockset, NoMemory>
        ensures numbers { IfOk result (λ s. IsDifference s self.now other.now) }
        ensures ascending { IfOk result (λ s. IsAscending s) }
    {
        let locks = self.locks.minus(alloc, &other.locks)?;
        Ok(Lockset::of(locks))
    }

    /// The locks that are in both sets.
    pub fn both(&self, alloc: Global, other: &Lockset) -> Result<Lockset, NoMemory>
        ensures numbers { IfOk result (λ s. IsIntersection s self.now other.now) }
        ensures ascending { IfOk result (λ s. IsAscending s) }
    {
        let locks = self.locks.both(alloc, &other.locks)?;
        Ok(Lockset::of(locks))
    }

    pub(crate) fn bits(&self) -> Option<Bits<4>>
        ensures { AreMarks result self.now }
    {
        self.bits
    }

    /// The locks, ascending. It takes no memory.
    pub fn as_slice(&self) -> &[u16]
        ensures locks { result.now ≡ self.now }
        ensures ascending { IsAscending self.now }
    {
        self.locks.as_slice()
    }
}

impl Clone for Lockset {
    ghost is_clone = { λ x y. y ≡ x };

    fn clone(&self) -> Result<Lockset, AllocError>
        ensures same { IfOk result (λ s. s ≡ self.now) }
        ensures ascending { IsAscending self.now }
    {
        Ok(Lockset {
            locks: self.locks.clone()?,
            bits: self.bits,
        })
    }
}

// The numbers as bits, where all of them are small.
fn bits_of(numbers: &[u16]) -> Option<Bits<4>>
    ensures { AreMarks result numbers.now }
{
    let mut bits = Bits::empty();
    for number in numbers {
        if *number >= SMALL {
            return None;
        }
        bits = bits.with(u32::from(*number));
    }
    Some(bits)
}

// The locks of the set and those that are open, where both are kept as bits.
fn bits_of_either<L: OpenLocks>(one: &Lockset, opened: &L) -> Option<Bits<4>>
    ensures { AreMarks result (one.now ++ L.locks opened.now) }
{
    if let Some(bits) = one.bits {
        if let Some(more) = opened.as_bits() {
            return Some(bits.union(&more));
        }
    }
    None
}
