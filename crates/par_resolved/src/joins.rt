// Joins from the left, within the limits of a policy.
ghost use Rattle.std.specs.Prelude.{◌≡◌, nat_le, nat_lt, find, map, length, IfOk, OnOk, Some};
ghost use Rattle.std.specs.List.{list_all};
ghost use Rattle.par_refusals.specs.First.{first_of};
ghost use Rattle.par_resolved.specs.Policies.{fits, within_limits, join_with, join_of};
ghost use Rattle.par_resolved.specs.Sets.{joined};
ghost use Rattle.par_resolved.specs.Sizes.{exceeded_by, form_faults, steps_faults, join_faults};

use crate::forms::{front, joined};
use crate::known::top;
use crate::limits::{CLAUSE_LIMIT, LOCK_LIMIT, MOST_CLAUSES, MOST_LOCKS};
use crate::near::near_join;
use crate::settled::are_settled;
use par_base::memory::NoMemory;
use par_refusals::refusal::{Findings, LIMIT_RULE, Refusal};
use par_typed::par_policy::{Clause, Policy};
use std::alloc::Global;

/// Whether a policy is within the limits of clauses and of their locks.
pub fn fits(policy: &Policy) -> bool
    ensures { result ≡ fits policy.now }
{
    let clauses = policy.clauses();
    clauses.len() <= MOST_CLAUSES && have_few_locks(clauses)
}

fn have_few_locks(clauses: &[Clause]) -> bool
    ensures { result ≡ list_all (λ c. nat_le (length c.locks) MOST_LOCKS) clauses.now }
{
    clauses
        .iter()
        .all(|clause| clause.locks.as_slice().len() <= MOST_LOCKS)
}

/// Notes that a limit is exceeded by this count, if there is one.
#[tactic(auto, using(crate::proofs::Exceeded::exceeds))]
pub fn note_exceeded(limit: u8, at: u32, count: Option<usize>, findings: &mut Findings)
    ensures { findings.new ≡ first_of findings.old (exceeded_by limit at count) }
{
    match count {
        None => {}
        Some(count) => findings.note(Refusal {
            rule: LIMIT_RULE,
            at,
            limit,
            count: count.min(u32::MAX as usize) as u32,
        }),
    }
}

// The count of locks of the first clause that has too many.
fn too_many_locks(clauses: &[Clause]) -> Option<usize>
    ensures { result ≡ find (λ n. nat_lt MOST_LOCKS n) (map (λ c. length c.locks) clauses.now) }
{
    let mut counts = clauses.iter().map(|clause| clause.locks.as_slice().len());
    counts.find(|count| *count > MOST_LOCKS)
}

/// Notes the limits that a normal form exceeds at this place.
#[tactic(auto, using(par_refusals::proofs::First::firsts))]
pub fn note_form(at: u32, policy: &Policy, findings: &mut Findings)
    ensures { findings.new ≡ first_of findings.old (form_faults at policy.now) }
{
    let clauses = policy.clauses();
    let many = if clauses.len() > MOST_CLAUSES {
        Some(clauses.len())
    } else {
        None
    };
    note_exceeded(CLAUSE_LIMIT, at, many, findings);
    note_exceeded(LOCK_LIMIT, at, too_many_locks(clauses), findings);
}

// The policy, where it is within the limits.
fn within_limits(policy: Policy) -> Option<Policy>
    ensures { result ≡ within_limits policy }
{
    if fits(&policy) { Some(policy) } else { None }
}

// The join of the two, where it is within the limits. A join of too many clauses is left as soon as
// it has too many that stay in it, and where each clause of one policy has a nearest one of the
// other, no others are joined.
fn join_within_limits(alloc: Global, p: &Policy, q: &Policy) -> Result<Option<Policy>, NoMemory>
    ensures { IfOk result (λ r. r ≡ within_limits (joined p.now q.now)) }
{
    if let Some(join) = near_join(alloc, p, q)? {
        return Ok(within_limits(join));
    }
    let policy = front(alloc, p, q)?;
    if policy.clauses().len() <= MOST_CLAUSES {
        return Ok(within_limits(policy));
    }
    if are_settled(policy.clauses(), p, q) {
        return Ok(None);
    }
    let policy = joined(alloc, p, q)?;
    Ok(within_limits(policy))
}

// The first joined with the others in turn, as long as the joins are within the limits.
#[tactic(auto, using(crate::proofs::Steps::joins))]
fn join_with(alloc: Global, first: Policy, others: &[Policy]) -> Result<Option<Policy>, NoMemory>
    ensures { IfOk result (λ p. p ≡ join_with first others.now) }
{
    let mut policy = first;
    for other in others {
        match join_within_limits(alloc, &policy, other)? {
            None => return Ok(None),
            Some(join) => policy = join,
        }
    }
    Ok(Some(policy))
}

/// The join of these from the left on, where each join is within the limits.
#[tactic(auto, using(crate::proofs::Steps::joined_terms))]
pub fn join_all(alloc: Global, policies: &[Policy]) -> Result<Option<Policy>, NoMemory>
    ensures { IfOk result (λ p. p ≡ join_of (Some policies.now)) }
{
    match policies {
        [] => {
            let policy = top(alloc)?;
            Ok(Some(policy))
        }
        [first, others @ ..] => {
            let first = first.clone()?;
            join_with(alloc, first, others)
        }
    }
}

// Notes the limits that the first join exceeds which exceeds one.
#[tactic(auto, using(crate::proofs::Steps::joins))]
fn note_steps(
    alloc: Global,
    at: u32,
    first: Policy,
    others: &[Policy],
    findings: &mut Findings,
) -> Result<(), NoMemory>
    ensures { OnOk result (findings.new
        ≡ first_of findings.old (steps_faults at first others.now)) }
{
    let mut policy = first;
    for other in others {
        policy = joined(alloc, &policy, other)?;
        if !fits(&policy) {
            note_form(at, &policy, findings);
            return Ok(());
        }
    }
    Ok(())
}

/// Notes the limits that the first join of these from the left on exceeds which exceeds one.
#[tactic(auto, using(crate::proofs::Steps::joined_terms))]
pub fn note_joins(
    alloc: Global,
    at: u32,
    policies: &[Policy],
    findings: &mut Findings,
) -> Result<(), NoMemory>
    ensures { OnOk result (findings.new
        ≡ first_of findings.old (join_faults at (Some policies.now))) }
{
    match policies {
        [] => Ok(()),
        [first, others @ ..] => {
            let first = first.clone()?;
            note_steps(alloc, at, first, others, findings)
        }
    }
}
