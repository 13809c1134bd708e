// Joins of policies where each clause of one has a nearest clause of the other: one that adds no
// lock but those that each of them adds.
ghost use Rattle.std.specs.Prelude.{◌≡◌, ◌++◌, Contains, IfOk, IfSome};
ghost use Rattle.std.specs.List.{list_all};
ghost use Rattle.par_typed.specs.par_policy.Lattice.{AllowsBoth, IsJoin};
ghost use Rattle.par_typed.specs.par_policy.Numbers.{within};
ghost use Rattle.par_resolved.specs.Nearest.{is_near, IsAdded, IsNearest};
ghost use Rattle.par_resolved.specs.Sets.{joined};

use crate::settled::{bits_of_both, has_only_locks_of};
use par_base::memory::NoMemory;
use par_typed::par_policy::par_bits::Bits;
use par_typed::par_policy::{Clause, OpenLocks, Policy, leq};
use std::alloc::Global;

/// The join of two policies, neither of which is below the other, where each clause of the first
/// has a nearest one: then only these are joined.
pub(crate) fn near_join(alloc: Global, p: &Policy, q: &Policy) -> Result<Option<Policy>, NoMemory>
    ensures { IfOk result (λ found. IfSome found (λ r. r ≡ joined p.now q.now)) }
{
    if leq(p, q) || leq(q, p) {
        return Ok(None);
    }
    match near_clauses(alloc, p.clauses(), q.clauses())? {
        None => Ok(None),
        Some(clauses) => {
            let policy = Policy::of(alloc, clauses.as_slice())?;
            Ok(Some(policy))
        }
    }
}

// Each clause with the locks of the nearest one.
fn near_clauses(alloc: Global, p: &[Clause], q: &[Clause]) -> Result<Option<Vec<Clause>>, NoMemory>
    ensures { IfOk result (λ found. IfSome found (λ made. IsJoin made.items p.now q.now)) }
{
    let mut made = Vec::new(alloc);
    for clause in p {
        match nearest(clause, q) {
            None => return Ok(None),
            Some(near) => made.push(with_locks_of(alloc, clause, near)?)?,
        }
    }
    Ok(Some(made))
}

// The clause with the locks of the other one too.
fn with_locks_of(alloc: Global, clause: &Clause, other: &Clause) -> Result<Clause, NoMemory>
    requires { clause.now.actor ≡ other.now.actor }
    ensures { IfOk result (λ both. AllowsBoth both clause.now other.now) }
{
    Ok(Clause {
        actor: clause.actor,
        locks: clause.locks.union(alloc, &other.locks)?,
    })
}

// The nearest of the other clauses, if there is one.
fn nearest<'a>(clause: &Clause, others: &'a [Clause]) -> Option<&'a Clause>
    ensures actor { IfSome result (λ near. clause.now.actor ≡ near.now.actor) }
    ensures seen { IfSome result (λ near. IsNearest others.now clause.now near.now) }
{
    let near = closest(clause, others)?;
    if near.actor == clause.actor && is_nearest(near, clause, others) {
        return Some(near);
    }
    None
}

fn is_nearest(near: &Clause, clause: &Clause, others: &[Clause]) -> bool
    ensures { result ≡ list_all (is_near clause.now near.now) others.now }
{
    match added_bits(near, clause) {
        None => others.iter().all(|other| other.actor != clause.actor
            || has_only_locks_of(near, clause, other)),
        Some(added) => each_has(&added, near, clause, others),
    }
}

// The locks that the near one adds to the clause, where they are kept as bits.
fn added_bits(near: &Clause, clause: &Clause) -> Option<Bits<4>>
    ensures { IfSome result (IsAdded near.now clause.now) }
{
    let bits = near.locks.as_bits()?;
    let own = clause.locks.as_bits()?;
    Some(bits.minus(&own))
}

// The same by what the near one adds, which each other one of its actor has.
fn each_has(added: &Bits<4>, near: &Clause, clause: &Clause, others: &[Clause]) -> bool
    requires { IsAdded near.now clause.now added.now }
    ensures { result ≡ list_all (is_near clause.now near.now) others.now }
{
    for other in others {
        if other.actor == clause.actor && !has_added(added, near, clause, other) {
            return false;
        }
    }
    true
}

fn has_added(added: &Bits<4>, near: &Clause, clause: &Clause, other: &Clause) -> bool
    requires { IsAdded near.now clause.now added.now }
    ensures { result ≡ within near.now.locks (clause.now.locks ++ other.now.locks) }
{
    match other.locks.as_bits() {
        None => has_only_locks_of(near, clause, other),
        Some(bits) => added.within(&bits),
    }
}

// The only one of the other clauses that may be the nearest.
fn closest<'a>(clause: &Clause, others: &'a [Clause]) -> Option<&'a Clause>
    ensures { IfSome result (λ near. Contains others.now near.now) }
{
    let mut near = others.first()?;
    let mut marks = bits_of_both(clause, near);
    for other in others {
        if other.actor == clause.actor {
            if let (Some(all), Some(bits)) = (&marks, other.locks.as_bits()) {
                if near.actor != clause.actor || bits.within(all) {
                    near = other;
                    marks = bits_of_both(clause, near);
                }
            }
        }
    }
    Some(near)
}
