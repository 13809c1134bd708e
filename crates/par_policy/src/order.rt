// The order of policies, and who sees them.
ghost use Rattle.std.specs.Prelude.{◌≡◌, ◌↔◌, IsTrue};
ghost use Rattle.std.specs.List.{list_all};
ghost use Rattle.par_policy.specs.Sees.{sees, sees_at};
ghost use Rattle.par_policy.specs.Order.{IsBelow, IsBelowAt};

use crate::clauses::{allows, allows_at};
use crate::locks::Lockset;
use crate::open::OpenLocks;
use crate::policies::Policy;

/// Whether the second policy is at least as restrictive as the first.
pub fn leq(p: &Policy, q: &Policy) -> bool
    ensures { IsTrue result ↔ IsBelow p.now q.now }
{
    each_clause_sees(q, p)
}

/// Whether the second policy is at least as restrictive as the first, specialised to these locks.
pub fn leq_at(p: &Policy, locks: &Lockset, q: &Policy) -> bool
    ensures { IsTrue result ↔ IsBelowAt p.now locks.now q.now }
{
    leq_where(p, locks, q)
}

/// Whether the second policy is at least as restrictive as the first, specialised to the locks
/// that are open. It takes no memory, however they are kept.
pub fn leq_where<L: OpenLocks>(p: &Policy, opened: &L, q: &Policy) -> bool
    ensures { IsTrue result ↔ IsBelowAt p.now (L.locks opened.now) q.now }
{
    each_clause_sees_at(q, p, opened)
}

/// Whether the observer, this actor with these locks, sees the policy.
pub fn sees(p: &Policy, actor: u8, locks: &Lockset) -> bool
    ensures { result ≡ sees p.now actor locks.now }
{
    p.clauses()
        .iter()
        .any(|clause| allows(clause, actor, locks))
}

// The same, where the clause at this place is asked first.
fn sees_from(p: &Policy, place: usize, actor: u8, locks: &Lockset) -> bool
    ensures { result ≡ sees p.now actor locks.now }
{
    match p.clauses().get(place) {
        None => sees(p, actor, locks),
        Some(clause) => allows(clause, actor, locks) || sees(p, actor, locks),
    }
}

fn sees_at<L: OpenLocks>(p: &Policy, opened: &L, actor: u8, locks: &Lockset) -> bool
    ensures { result ≡ sees_at p.now (L.locks opened.now) actor locks.now }
{
    p.clauses()
        .iter()
        .any(|clause| allows_at(clause, opened, actor, locks))
}

// Whether each clause of the first policy, taken as an observer, sees the second. The clause at its
// own place is asked first, since policies that are compared are often the same.
fn each_clause_sees(q: &Policy, p: &Policy) -> bool
    ensures { result ≡ list_all (λ d. sees p.now d.actor d.locks) q.now }
{
    for (place, clause) in q.clauses().iter().enumerate() {
        if !sees_from(p, place, clause.actor, &clause.locks) {
            return false;
        }
    }
    true
}

fn each_clause_sees_at<L: OpenLocks>(q: &Policy, p: &Policy, opened: &L) -> bool
    ensures { result ≡ list_all (λ d. sees_at p.now (L.locks opened.now) d.actor d.locks) q.now }
{
    q.clauses()
        .iter()
        .all(|clause| sees_at(p, opened, clause.actor, &clause.locks))
}
