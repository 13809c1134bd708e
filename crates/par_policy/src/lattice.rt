// Join and meet of policies, and policies specialised to open locks.
ghost use Rattle.std.specs.Prelude.{◌≡◌, ◌≤◌, length, IfOk, OnOk};
ghost use Rattle.par_policy.specs.Lattice.{IsJoin, IsMeet, IsSpecialised};
ghost use Rattle.par_policy.specs.Lattice.{AllowsBoth, AllowsWith, GainsBoth};
ghost use Rattle.par_policy.specs.Products.{AreSeen, AreSeenIn, GainsProducts, GainsSome};
ghost use Rattle.par_policy.specs.Normal.{IsNormal};
ghost use Rattle.par_policy.specs.Numbers.{IsAscending, IsUnion};
ghost use Rattle.par_policy.specs.Order.{IsBelow};
ghost use Rattle.par_policy.specs.Sees.{sees_at};

use crate::clauses::Clause;
use crate::locks::Lockset;
use crate::normal::{keep, keep_all, put};
use crate::order::leq;
use crate::policies::Policy;
use crate::products::{Product, products_of};
use par_base::memory::NoMemory;
use std::alloc::Global;

/// The least restrictive policy that is at least as restrictive as both.
pub fn join(alloc: Global, p: &Policy, q: &Policy) -> Result<Policy, NoMemory>
    ensures seen { IfOk result (λ r. IsJoin r p.now q.now) }
    ensures normal { IfOk result (λ r. IsNormal r) }
{
    if leq(p, q) {
        return q.share();
    }
    if leq(q, p) {
        return p.share();
    }
    let products = products_of(alloc, p, q)?;
    let kept = front_kept(alloc, products.as_slice(), usize::MAX)?;
    Policy::of_normal(alloc, kept)
}

/// The join of the two where it has at most so many clauses. Else a policy of more clauses, which
/// is above both: those of the join that have the fewest locks.
pub fn join_front(alloc: Global, p: &Policy, q: &Policy, most: usize) -> Result<Policy, NoMemory>
    ensures above { IfOk result (λ r. IsBelow p.now r × IsBelow q.now r) }
    ensures whole { IfOk result (λ r. length r ≤ most → IsJoin r p.now q.now) }
    ensures normal { IfOk result (λ r. IsNormal r) }
{
    if leq(p, q) {
        return q.share();
    }
    if leq(q, p) {
        return p.share();
    }
    front_of(alloc, p, q, most)
}

// The same, of the joins of all clauses.
fn front_of(alloc: Global, p: &Policy, q: &Policy, most: usize) -> Result<Policy, NoMemory>
    ensures above { IfOk result (λ r. IsBelow p.now r × IsBelow q.now r) }
    ensures whole { IfOk result (λ r. length r ≤ most → IsJoin r p.now q.now) }
    ensures normal { IfOk result (λ r. IsNormal r) }
{
    let products = products_of(alloc, p, q)?;
    let kept = front_kept(alloc, products.as_slice(), most)?;
    Policy::of_normal(alloc, kept)
}

// The joins of these clauses, up to the first that makes them more than so many. Those of fewest
// locks come first: a clause is covered only by one of fewer locks or by its equal, so nothing that
// is kept is dropped again.
fn front_kept(
    alloc: Global,
    groups: &[Vec<Product<'_>>],
    most: usize,
) -> Result<Vec<Clause>, NoMemory>
    ensures only { IfOk result (λ kept. AreSeenIn kept.items groups.now) }
    ensures whole { IfOk result (λ kept.
        length kept.items ≤ most → AreSeen kept.items groups.now) }
    ensures normal { IfOk result (λ kept. IsNormal kept.items) }
{
    let mut kept = Vec::new(alloc);
    for products in groups {
        keep_front(&mut kept, alloc, products.as_slice(), most)?;
        if kept.len() > most {
            return Ok(kept);
        }
    }
    Ok(kept)
}

// Keeps the joins of these clauses, up to the first that makes them more than so many.
fn keep_front(
    kept: &mut Vec<Clause>,
    alloc: Global,
    products: &[Product<'_>],
    most: usize,
) -> Result<(), NoMemory>
    requires { IsNormal kept.old.items }
    ensures normal { OnOk result (IsNormal kept.new.items) }
    ensures only { OnOk result (GainsSome kept.old.items kept.new.items products.now) }
    ensures whole { OnOk result (length kept.new.items ≤ most →
        GainsProducts kept.old.items kept.new.items products.now) }
{
    for product in products {
        keep_both(kept, alloc, product.one, product.other)?;
        if kept.len() > most {
            return Ok(());
        }
    }
    Ok(())
}

/// The most restrictive policy that each of the two is at least as restrictive as.
pub fn meet(alloc: Global, p: &Policy, q: &Policy) -> Result<Policy, NoMemory>
    ensures seen { IfOk result (λ r. IsMeet r p.now q.now) }
    ensures normal { IfOk result (λ r. IsNormal r) }
{
    if leq(p, q) {
        return p.share();
    }
    if leq(q, p) {
        return q.share();
    }
    let mut kept = Vec::new(alloc);
    keep_all(&mut kept, p.clauses())?;
    keep_all(&mut kept, q.clauses())?;
    Policy::of_normal(alloc, kept)
}

/// The policy without the locks, which are open.
pub fn special(alloc: Global, p: &Policy, locks: &Lockset) -> Result<Policy, NoMemory>
    ensures seen { IfOk result (λ r. IsSpecialised r p.now locks.now) }
    ensures normal { IfOk result (λ r. IsNormal r) }
{
    let mut kept = Vec::new(alloc);
    for clause in p.clauses() {
        let rest = without(alloc, clause, locks)?;
        keep(&mut kept, &rest)?;
    }
    Policy::of_normal(alloc, kept)
}

// Keeps the join of the two clauses, which is made only where they have the same actor and none
// that is kept covers it.
fn keep_both(
    kept: &mut Vec<Clause>,
    alloc: Global,
    clause: &Clause,
    other: &Clause,
) -> Result<(), NoMemory>
    requires { IsNormal kept.old.items }
    ensures normal { OnOk result (IsNormal kept.new.items) }
    ensures seen { OnOk result (GainsBoth kept.old.items kept.new.items clause.now other.now) }
{
    if clause.actor != other.actor {
        return Ok(());
    }
    if is_covered_by_both(kept, clause, other) {
        return Ok(());
    }
    let both = with_locks_of(alloc, clause, other)?;
    put(kept, both)
}

// Whether one of the clauses covers the join of these two.
fn is_covered_by_both(kept: &[Clause], clause: &Clause, other: &Clause) -> bool
    ensures { result
        ≡ sees_at kept.now other.now.locks clause.now.actor clause.now.locks }
{
    let marks = clause.locks.bits_of_both(&other.locks);
    for held in kept {
        if held.actor == clause.actor
            && held
                .locks
                .within_marked(&clause.locks, &other.locks, &marks)
        {
            return true;
        }
    }
    false
}

// The clause with the locks of the other one too.
fn with_locks_of(alloc: Global, clause: &Clause, other: &Clause) -> Result<Clause, NoMemory>
    requires { clause.now.actor ≡ other.now.actor }
    ensures actor { IfOk result (λ both. both.actor ≡ clause.now.actor) }
    ensures locks { IfOk result (λ both. IsUnion both.locks clause.now.locks other.now.locks) }
    ensures ascending { IfOk result (λ both. IsAscending both.locks) }
    ensures seen { IfOk result (λ both. AllowsBoth both clause.now other.now) }
{
    Ok(Clause {
        actor: clause.actor,
        locks: clause.locks.union(alloc, &other.locks)?,
    })
}

// The clause without the locks.
fn without(alloc: Global, clause: &Clause, locks: &Lockset) -> Result<Clause, NoMemory>
    ensures { IfOk result (λ rest. AllowsWith rest clause.now locks.now) }
{
    Ok(Clause {
        actor: clause.actor,
        locks: clause.locks.minus(alloc, locks)?,
    })
}
