// Policies as functions of their clauses.
ghost use Rattle.std.specs.Prelude.{◌≡◌, ◌≤◌, length, IfOk};
ghost use Rattle.par_typed.specs.par_policy.Normal.{IsNormal};
ghost use Rattle.par_typed.specs.par_policy.Order.{IsBelow};
ghost use Rattle.par_resolved.specs.Sets.{normal, joined, met};

use crate::limits::MOST_CLAUSES;
use par_base::memory::NoMemory;
use par_typed::par_policy::{Clause, Policy};
use std::alloc::Global;

/// The policy of these clauses.
pub fn form(alloc: Global, clauses: &[Clause]) -> Result<Policy, NoMemory>
    ensures { IfOk result (λ p. p ≡ normal clauses.now) }
{
    let policy = Policy::of(alloc, clauses)?;
    Ok(policy)
}

/// The join of two policies.
pub fn joined(alloc: Global, p: &Policy, q: &Policy) -> Result<Policy, NoMemory>
    ensures { IfOk result (λ r. r ≡ joined p.now q.now) }
{
    let policy = par_typed::par_policy::join(alloc, p, q)?;
    Ok(policy)
}

/// The join of two policies where it has no more clauses than a policy may have, and else a policy
/// of more clauses, which is above both.
pub fn front(alloc: Global, p: &Policy, q: &Policy) -> Result<Policy, NoMemory>
    ensures above { IfOk result (λ r. IsBelow p.now r × IsBelow q.now r) }
    ensures whole { IfOk result (λ r. length r ≤ MOST_CLAUSES → r ≡ joined p.now q.now) }
    ensures normal { IfOk result (λ r. IsNormal r) }
{
    let policy = par_typed::par_policy::join_front(alloc, p, q, MOST_CLAUSES)?;
    Ok(policy)
}

/// The meet of two policies.
pub fn met(alloc: Global, p: &Policy, q: &Policy) -> Result<Policy, NoMemory>
    ensures { IfOk result (λ r. r ≡ met p.now q.now) }
{
    let policy = par_typed::par_policy::meet(alloc, p, q)?;
    Ok(policy)
}
