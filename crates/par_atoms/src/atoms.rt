// Joins of policies.
ghost use Rattle.std.specs.Prelude.{◌≡◌, ℕ, ◌<◌, ◌↔◌, [], IsTrue, length, slice_index_or};
ghost use Rattle.par_policy.specs.par_bits.Sets.{has, none, adding, union, minus, IsWithin};
ghost use Rattle.par_policy.specs.Order.{IsBelowAt};
ghost use Rattle.par_atoms.specs.Atoms.{members, IsSetBelowAt};

use crate::opened::Opened;
use par_policy::par_bits::Bits;
use par_policy::{Policy, leq_where};
use std::marker::Model;

const POLICIES: u16 = 256;

/// A set of policies by their numbers in a table, which are below 256. It stands for the join of
/// these policies, the empty set for the policy that is below all others.
#[derive(Clone, Copy)]
pub struct Atoms {
    policies: Bits<4>,
}

impl Model for Atoms {
    ghost use Rattle.std.specs.Prelude.{ℕ};

    ghost Value = { ℕ };

    ghost view = { λ a. a.policies };

    ghost inverse = { λ n. record { policies = n } };
}

/// Whether the policy of a number, specialised to the locks, is below `q`.
pub fn is_below_at(policies: &[Policy], number: u16, locks: &Bits<4>, q: &Policy) -> bool
    requires { number < length policies.now }
    ensures { IsTrue result
        ↔ IsBelowAt (slice_index_or policies.now number []) (members locks.now) q.now }
{
    let opened = Opened { locks };
    leq_where(&policies[usize::from(number)], &opened, q)
}

impl Atoms {
    /// The set without policies.
    pub fn empty() -> Atoms
        ensures { has result ≡ none }
    {
        Atoms {
            policies: Bits::empty(),
        }
    }

    /// The set with this policy in it too.
    pub fn with(self, policy: u16) -> Atoms
        requires { policy < 256 }
        ensures { has result ≡ adding (has self) policy }
    {
        Atoms {
            policies: self.policies.with(u32::from(policy)),
        }
    }

    /// Whether the policy is in the set.
    pub fn has(&self, policy: u16) -> bool
        requires { policy < 256 }
        ensures { result ≡ has self.now policy }
    {
        self.policies.has(u32::from(policy))
    }

    /// The policies of both sets, which stand for the join of both joins.
    pub fn union(&self, other: &Atoms) -> Atoms
        ensures { has result ≡ union (has self.now) (has other.now) }
    {
        Atoms {
            policies: self.policies.union(&other.policies),
        }
    }

    /// The policies of this set that are not in the other one.
    pub fn minus(&self, other: &Atoms) -> Atoms
        ensures { has result ≡ minus (has self.now) (has other.now) }
    {
        Atoms {
            policies: self.policies.minus(&other.policies),
        }
    }

    /// Each policy of the set has a number below 256: a law, of which nothing runs.
    pub fn members_are_below(&self)
        ensures { (n : ℕ) → IsTrue (has self.now n) → n < 256 }
    {
        self.policies.members_are_below();
    }

    /// Whether each policy of this set is in the other one.
    pub fn within(&self, other: &Atoms) -> bool
        ensures { IsTrue result ↔ IsWithin (has self.now) (has other.now) }
    {
        self.policies.within(&other.policies)
    }

    /// Whether the join of these policies of the table, specialised to the locks, is below `q`.
    pub fn leq_at(&self, policies: &[Policy], locks: &Bits<4>, q: &Policy) -> bool
        requires { (n : ℕ) → IsTrue (has self.now n) → n < length policies.now }
        ensures { IsTrue result ↔ IsSetBelowAt policies.now self.now locks.now q.now }
    {
        let opened = Opened { locks };
        for number in 0..POLICIES {
            if self.has(number) && !leq_where(&policies[usize::from(number)], &opened, q) {
                return false;
            }
        }
        true
    }
}
