// Joins of policies as sets of policy numbers.
ghost use Rattle.std.specs.Prelude.{◌≡◌, ◌<◌, ◌↔◌, [], All, Contains, IsTrue, IfOk, OnOk, OnErr};
ghost use Rattle.std.specs.Prelude.{length};
ghost use Rattle.par_policy.specs.Numbers.{IsAscending, within, Gains, GainsAll};
ghost use Rattle.par_policy.specs.Order.{IsJoinBelowAt, policies_of};

use crate::locks::Lockset;
use crate::numbers::NumberSet;
use crate::order::leq_at;
use crate::policies::Policy;
use par_base::memory::NoMemory;
use std::alloc::{AllocError, Global};
use std::marker::Model;

/// A set of policies by their numbers in a table, which stands for the join of these policies.
/// The empty set stands for the policy that is below all others. Contracts see an ascending list.
#[derive(Drop)]
pub struct PolicySet {
    policies: NumberSet,
}

impl Model for PolicySet {
    ghost use Rattle.std.specs.Prelude.{ℕ, List};
    ghost use Rattle.par_policy.specs.Numbers.{IsAscending};

    ghost Value = { List ℕ };

    ghost view = { λ s. s.policies };

    ghost invariant = { λ s. IsAscending s.policies };
}

impl PolicySet {
    /// The set without policies. It takes no memory.
    pub fn new(alloc: Global) -> PolicySet
        ensures { result ≡ [] }
    {
        PolicySet {
            policies: NumberSet::new(alloc),
        }
    }

    /// Puts the policy into the set, which stays as it is where the policy is there already.
    pub fn add(&mut self, policy: u16) -> Result<(), NoMemory>
        ensures ok { OnOk result (Gains self.old self.new policy) }
        ensures err { OnErr result (self.new ≡ self.old) }
        ensures ascending { IsAscending self.new }
    {
        self.policies.insert(policy)
    }

    /// Puts each policy of the other set into this one.
    pub fn add_all(&mut self, other: &PolicySet) -> Result<(), NoMemory>
        ensures ok { OnOk result (GainsAll self.old self.new other.now) }
        ensures err { OnErr result (self.new ≡ self.old) }
        ensures ascending { IsAscending self.new }
    {
        self.policies.insert_all(&other.policies)
    }

    /// Whether each policy of this set is in the other one.
    pub fn within(&self, other: &PolicySet) -> bool
        ensures subset { IsTrue result ↔ All (Contains other.now) self.now }
        ensures test { result ≡ within self.now other.now }
        ensures ascending { IsAscending self.now }
    {
        self.policies.within(&other.policies)
    }

    /// Whether the join of these policies of the table, specialised to the locks, is below `q`.
    pub fn below(&self, policies: &[Policy], locks: &Lockset, q: &Policy) -> bool
        requires { All (λ n. n < length policies.now) self.now }
        ensures { IsTrue result
            ↔ IsJoinBelowAt (policies_of policies.now self.now) locks.now q.now }
    {
        for policy in self.policies.as_slice() {
            if !leq_at(&policies[usize::from(*policy)], locks, q) {
                return false;
            }
        }
        true
    }
}

impl Clone for PolicySet {
    ghost is_clone = { λ x y. y ≡ x };

    fn clone(&self) -> Result<PolicySet, AllocError>
        ensures same { IfOk result (λ s. s ≡ self.now) }
        ensures ascending { IsAscending self.now }
    {
        Ok(PolicySet {
            policies: self.policies.clone()?,
        })
    }
}
