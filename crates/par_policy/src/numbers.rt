// A finite set of numbers, which sets of locks and sets of policies are made of.
ghost use Rattle.std.specs.Prelude.{◌≡◌, [], IfOk, OnOk, OnErr};
ghost use Rattle.par_policy.specs.Numbers.{IsAscending, has, within, Gains, GainsAll};
ghost use Rattle.par_policy.specs.Numbers.{IsUnion, IsDifference, IsIntersection};

use par_base::memory::NoMemory;
use std::alloc::{AllocError, Global};
use std::marker::Model;

#[derive(Drop)]
pub(crate) struct NumberSet {
    numbers: Vec<u16>,
}

impl Model for NumberSet {
    ghost use Rattle.std.specs.Prelude.{ℕ, List};
    ghost use Rattle.par_policy.specs.Numbers.{IsAscending};

    ghost Value = { List ℕ };

    ghost view = { λ s. s.numbers.items };

    ghost invariant = { λ s. IsAscending s.numbers.items };
}

impl NumberSet {
    pub(crate) fn new(alloc: Global) -> NumberSet
        ensures { result ≡ [] }
    {
        NumberSet {
            numbers: Vec::new(alloc),
        }
    }

    pub(crate) fn as_slice(&self) -> &[u16]
        ensures numbers { result.now ≡ self.now }
        ensures ascending { IsAscending self.now }
    {
        self.numbers.as_slice()
    }

    pub(crate) fn has(&self, number: u16) -> bool
        ensures { result ≡ has self.now number }
    {
        self.numbers.contains(&number)
    }

    pub(crate) fn within(&self, other: &NumberSet) -> bool
        ensures { result ≡ within self.now other.now }
    {
        self.numbers.iter().all(|number| other.has(*number))
    }

    pub(crate) fn insert(&mut self, number: u16) -> Result<(), NoMemory>
        ensures ok { OnOk result (Gains self.old self.new number) }
        ensures err { OnErr result (self.new ≡ self.old) }
        ensures ascending { IsAscending self.new }
    {
        if let Err(place) = self.numbers.binary_search(&number) {
            self.numbers.insert(place, number)?;
        }
        Ok(())
    }

    // The set is copied first, so that a refusal leaves it as it is.
    pub(crate) fn insert_all(&mut self, other: &NumberSet) -> Result<(), NoMemory>
        ensures ok { OnOk result (GainsAll self.old self.new other.now) }
        ensures err { OnErr result (self.new ≡ self.old) }
        ensures ascending { IsAscending self.new }
    {
        let copy = self.clone()?;
        *self = copy.with_all(other)?;
        Ok(())
    }

    fn with_all(mut self, other: &NumberSet) -> Result<NumberSet, NoMemory>
        ensures numbers { IfOk result (λ s. IsUnion s self other.now) }
        ensures ascending { IfOk result (λ s. IsAscending s) }
    {
        for number in other.as_slice() {
            self.insert(*number)?;
        }
        Ok(self)
    }

    pub(crate) fn union(&self, alloc: Global, other: &NumberSet) -> Result<NumberSet, NoMemory>
        ensures numbers { IfOk result (λ s. IsUnion s self.now other.now) }
        ensures ascending { IfOk result (λ s. IsAscending s) }
    {
        let copy = NumberSet {
            numbers: Vec::from_slice(alloc, self.numbers.as_slice())?,
        };
        copy.with_all(other)
    }

    pub(crate) fn minus(&self, alloc: Global, other: &NumberSet) -> Result<NumberSet, NoMemory>
        ensures numbers { IfOk result (λ s. IsDifference s self.now other.now) }
        ensures ascending { IfOk result (λ s. IsAscending s) }
    {
        let rest = self.numbers.iter().copied();
        let numbers = rest.filter(|number| !other.has(*number)).collect(alloc)?;
        Ok(NumberSet { numbers })
    }

    pub(crate) fn both(&self, alloc: Global, other: &NumberSet) -> Result<NumberSet, NoMemory>
        ensures numbers { IfOk result (λ s. IsIntersection s self.now other.now) }
        ensures ascending { IfOk result (λ s. IsAscending s) }
    {
        let all = self.numbers.iter().copied();
        let numbers = all.filter(|number| other.has(*number)).collect(alloc)?;
        Ok(NumberSet { numbers })
    }
}

impl Clone for NumberSet {
    ghost is_clone = { λ x y. y ≡ x };

    fn clone(&self) -> Result<NumberSet, AllocError>
        ensures same { IfOk result (λ s. s ≡ self.now) }
        ensures ascending { IsAscending self.now }
    {
        Ok(NumberSet {
            numbers: self.numbers.clone()?,
        })
    }
}
