// Limits of the literals of policy expressions.
ghost use Rattle.std.specs.Prelude.{◌≡◌, nat_lt, map, flat_map, find, length, None};
ghost use Rattle.par_refusals.specs.First.{first_of};
ghost use Rattle.par_resolved.specs.Sizes.{literal_sizes, literal_locks, literal_faults};
ghost use Rattle.par_parts.specs.Gathered.{all_of};

use crate::joins::note_exceeded;
use crate::limits::{CLAUSE_LIMIT, LOCK_LIMIT, MOST_CLAUSES, MOST_LOCKS};
use par_refusals::refusal::{Findings, Refusal};
use par_tree::policy::{ClauseTree, PolicyExpr, PolicyTerm};

/// The first limit that a literal of these exceeds, as it is written.
pub fn first_literal(exprs: &[&PolicyExpr]) -> Option<Refusal>
    ensures { result ≡ first_of None (flat_map literal_faults (all_of exprs.now)) }
{
    let mut findings = Findings::new();
    for e in exprs {
        check_literals(e, &mut findings);
    }
    findings.first()
}

#[tactic(auto, using(par_refusals::proofs::First::firsts))]
fn check_literals(e: &PolicyExpr, findings: &mut Findings)
    ensures { findings.new ≡ first_of findings.old (literal_faults e.now) }
{
    let terms = e.terms.as_slice();
    note_exceeded(CLAUSE_LIMIT, e.at, too_many_clauses(terms), findings);
    note_exceeded(LOCK_LIMIT, e.at, too_many_locks(terms), findings);
}

// The clauses of the first literal that has too many.
fn too_many_clauses(terms: &[PolicyTerm]) -> Option<usize>
    ensures { result ≡ find (λ n. nat_lt MOST_CLAUSES n) (flat_map literal_sizes terms.now) }
{
    for term in terms {
        match large_literal(term) {
            None => {}
            Some(count) => return Some(count),
        }
    }
    None
}

#[tactic(auto, unfolding(crate::specs::Sizes::literal_sizes))]
fn large_literal(term: &PolicyTerm) -> Option<usize>
    ensures { result ≡ find (λ n. nat_lt MOST_CLAUSES n) (literal_sizes term.now) }
{
    match term {
        PolicyTerm::Clauses(clauses) => {
            if clauses.len() > MOST_CLAUSES {
                Some(clauses.len())
            } else {
                None
            }
        }
        PolicyTerm::Named(_) | PolicyTerm::Bottom | PolicyTerm::Top => None,
    }
}

// The locks of the first clause of a literal that has too many.
fn too_many_locks(terms: &[PolicyTerm]) -> Option<usize>
    ensures { result ≡ find (λ n. nat_lt MOST_LOCKS n) (flat_map literal_locks terms.now) }
{
    for term in terms {
        match large_clause_of(term) {
            None => {}
            Some(count) => return Some(count),
        }
    }
    None
}

#[tactic(auto, unfolding(crate::specs::Sizes::literal_locks))]
fn large_clause_of(term: &PolicyTerm) -> Option<usize>
    ensures { result ≡ find (λ n. nat_lt MOST_LOCKS n) (literal_locks term.now) }
{
    match term {
        PolicyTerm::Clauses(clauses) => large_clause(clauses.as_slice()),
        PolicyTerm::Named(_) | PolicyTerm::Bottom | PolicyTerm::Top => None,
    }
}

fn large_clause(clauses: &[ClauseTree]) -> Option<usize>
    ensures { result ≡ find (λ n. nat_lt MOST_LOCKS n) (map (λ c. length c.locks) clauses.now) }
{
    let mut counts = clauses.iter().map(|clause| clause.locks.len());
    counts.find(|count| *count > MOST_LOCKS)
}
