// One clause of a policy, and how clauses compare.
ghost use Rattle.std.specs.Prelude.{◌≡◌, ◌↔◌, [], ◌∷◌, ◌++◌, IsTrue, IfOk};
ghost use Rattle.par_policy.specs.Numbers.{IsAscending};
ghost use Rattle.par_policy.specs.Sees.{allows};
ghost use Rattle.par_policy.specs.Order.{IsBelow};
ghost use Rattle.par_policy.specs.Normal.{clause_cmp, covers};

use crate::locks::Lockset;
use crate::open::OpenLocks;
use std::alloc::AllocError;
use std::cmp::Ordering;

/// Lets the actor see what the policy guards once all these locks are open.
#[derive(Drop)]
pub struct Clause {
    pub actor: u8,
    pub locks: Lockset,
}

impl Clone for Clause {
    ghost is_clone = { λ x y. y ≡ x };

    fn clone(&self) -> Result<Clause, AllocError>
        ensures same { IfOk result (λ c. c ≡ self.now) }
        ensures ascending { IsAscending self.now.locks }
    {
        Ok(Clause {
            actor: self.actor,
            locks: self.locks.clone()?,
        })
    }
}

/// The order of the two policies that have these single clauses.
pub fn clause_leq(c: &Clause, d: &Clause) -> bool
    ensures { IsTrue result ↔ IsBelow (c.now ∷ []) (d.now ∷ []) }
{
    covers(c, d)
}

pub(crate) fn covers(c: &Clause, d: &Clause) -> bool
    ensures { result ≡ covers c.now d.now }
{
    allows(c, d.actor, &d.locks)
}

pub(crate) fn allows(clause: &Clause, actor: u8, locks: &Lockset) -> bool
    ensures { result ≡ allows actor locks.now clause.now }
{
    clause.actor == actor && clause.locks.within(locks)
}

pub(crate) fn allows_at<L: OpenLocks>(
    clause: &Clause,
    opened: &L,
    actor: u8,
    locks: &Lockset,
) -> bool
    ensures { result ≡ allows actor (locks.now ++ L.locks opened.now) clause.now }
{
    clause.actor == actor && clause.locks.within_both(locks, opened)
}

pub(crate) fn compare(c: &Clause, d: &Clause) -> Ordering
    ensures { result ≡ clause_cmp c.now d.now }
{
    match c.actor.cmp(&d.actor) {
        Ordering::Equal => c.locks.as_slice().cmp(d.locks.as_slice()),
        by_actor => by_actor,
    }
}
