// Clauses that stay in a join, whatever else is put into it.
ghost use Rattle.std.specs.Prelude.{◌≡◌, ◌++◌};
ghost use Rattle.std.specs.List.{list_all};
ghost use Rattle.par_typed.specs.par_policy.Marks.{AreMarks};
ghost use Rattle.par_typed.specs.par_policy.Numbers.{within};
ghost use Rattle.par_typed.specs.par_policy.Normal.{covers};
ghost use Rattle.par_resolved.specs.Settled.{settled, settled_beside};

use par_typed::par_policy::par_bits::Bits;
use par_typed::par_policy::{Clause, OpenLocks, Policy};

/// Whether no join of clauses of the two policies that covers one of these has fewer locks.
pub(crate) fn are_settled(clauses: &[Clause], p: &Policy, q: &Policy) -> bool
    ensures { result ≡ list_all (settled p.now q.now) clauses.now }
{
    clauses
        .iter()
        .all(|clause| is_settled(clause, p.clauses(), q.clauses()))
}

fn is_settled(clause: &Clause, p: &[Clause], q: &[Clause]) -> bool
    ensures { result ≡ settled p.now q.now clause.now }
{
    p.iter().all(|one| !covers(one, clause) || is_settled_beside(clause, one, q))
}

fn is_settled_beside(clause: &Clause, one: &Clause, q: &[Clause]) -> bool
    ensures { result ≡ settled_beside q.now clause.now one.now }
{
    q.iter().all(|other| !covers(other, clause) || has_only_locks_of(clause, one, other))
}

fn covers(one: &Clause, clause: &Clause) -> bool
    ensures { result ≡ covers one.now clause.now }
{
    one.actor == clause.actor && one.locks.within(&clause.locks)
}

// Whether each lock of the clause is in one of the two others.
#[inline(always)]
pub(crate) fn has_only_locks_of(clause: &Clause, one: &Clause, other: &Clause) -> bool
    ensures { result ≡ within clause.now.locks (one.now.locks ++ other.now.locks) }
{
    if let Some(marks) = bits_of_both(one, other) {
        if let Some(bits) = clause.locks.as_bits() {
            return bits.within(&marks);
        }
    }
    each_is_of(clause, one, other)
}

// The locks of both clauses, where they are kept as bits.
#[inline(always)]
pub(crate) fn bits_of_both(one: &Clause, other: &Clause) -> Option<Bits<4>>
    ensures { AreMarks result (one.now.locks ++ other.now.locks) }
{
    if let Some(bits) = one.locks.as_bits() {
        if let Some(more) = other.locks.as_bits() {
            return Some(bits.union(&more));
        }
    }
    None
}

fn each_is_of(clause: &Clause, one: &Clause, other: &Clause) -> bool
    ensures { result ≡ within clause.now.locks (one.now.locks ++ other.now.locks) }
{
    for lock in clause.locks.as_slice() {
        if !one.locks.has(*lock) && !other.locks.has(*lock) {
            return false;
        }
    }
    true
}
