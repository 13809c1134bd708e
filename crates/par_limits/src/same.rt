// Whether policies are the same.
ghost use Rattle.std.specs.Prelude.{◌≡◌};
ghost use Rattle.std.specs.List.{list_any};
ghost use Rattle.par_resolved.specs.Numbered.{same_clause, same_policy};
ghost use Rattle.par_parts.specs.Gathered.{all_of};

use par_resolved::entries::Entry;
use par_typed::par_policy::{Clause, Policy};

fn same_clause(c: &Clause, d: &Clause) -> bool
    ensures { result ≡ same_clause c.now d.now }
{
    c.actor == d.actor && c.locks.as_slice() == d.locks.as_slice()
}

fn same_clauses(p: &[Clause], q: &[Clause]) -> bool
    ensures { result ≡ same_policy p.now q.now }
{
    if p.len() != q.len() {
        return false;
    }
    for i in 0..p.len() {
        if !same_clause(&p[i], &q[i]) {
            return false;
        }
    }
    true
}

/// Whether two policies have the same clauses, in the same order.
pub fn same_policy(p: &Policy, q: &Policy) -> bool
    ensures { result ≡ same_policy p.now q.now }
{
    same_clauses(p.clauses(), q.clauses())
}

/// Whether one of these has the policy.
pub fn is_there(found: &[&Entry], policy: &Policy) -> bool
    ensures { result ≡ list_any (λ f. same_policy policy.now f.policy) (all_of found.now) }
{
    for entry in found {
        if same_policy(policy, &entry.policy) {
            return true;
        }
    }
    false
}
