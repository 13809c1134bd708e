// The birth policies of classes.
ghost use Rattle.std.specs.Prelude.{◌≡◌, map, fold, IfOk, OnOk};
ghost use Rattle.std.specs.List.{list_all};
ghost use Rattle.par_tree.specs.Shown.{class_of};
ghost use Rattle.par_refusals.specs.First.{first_of};
ghost use Rattle.par_resolved.specs.Sets.{met};
ghost use Rattle.par_resolved.specs.Births.{part_policies, meet_of, birth_policy, is_below};
ghost use Rattle.par_resolved.specs.Births.{birth_faults};
ghost use Rattle.par_resolved.specs.Seen.{known_seen};

use crate::forms;
use crate::joins::note_form;
use crate::known::{Known, bottom};
use crate::limits::BIRTH_RULE;
use par_base::memory::NoMemory;
use par_refusals::refusal::Findings;
use par_tree::decl::{ClassDecl, FieldDecl};
use par_tree::policy::PolicyExpr;
use par_typed::par_policy::Policy;
use std::alloc::Global;

/// The policies of the fields of an object that are not inferred.
fn part_policies(
    alloc: Global,
    known: &Known<'_>,
    fields: &[FieldDecl],
) -> Result<Vec<Policy>, NoMemory>
    ensures { IfOk result (λ found. found.items ≡ part_policies (known_seen known.now) fields.now) }
{
    let mut found = Vec::new(alloc);
    for field in fields {
        if !field.is_static && !field.inferred {
            found.push(known.policy_or_bottom(alloc, &field.policy)?)?;
        }
    }
    Ok(found)
}

// The first met with the others in turn.
fn meet_with(alloc: Global, first: Policy, others: &[Policy]) -> Result<Policy, NoMemory>
    ensures { IfOk result (λ p. p ≡ fold met first others.now) }
{
    let mut policy = first;
    for other in others {
        policy = forms::met(alloc, &policy, other)?;
    }
    Ok(policy)
}

// The meet of these, or the other policy where there is none.
#[tactic(auto, unfolding(crate::specs::Births::meet_of))]
fn meet_of(alloc: Global, none: Policy, policies: &[Policy]) -> Result<Policy, NoMemory>
    ensures { IfOk result (λ p. p ≡ meet_of none policies.now) }
{
    match policies.first() {
        None => Ok(none),
        Some(first) => {
            let first = first.clone()?;
            meet_with(alloc, first, &policies[1..])
        }
    }
}

/// The birth policy of a class with these fields: the written one, else the meet of the policies of
/// the fields of an object.
#[tactic(auto, unfolding(crate::specs::Births::birth_policy))]
pub fn birth_policy(
    alloc: Global,
    known: &Known<'_>,
    birth: &Option<PolicyExpr>,
    fields: &[FieldDecl],
) -> Result<Policy, NoMemory>
    ensures { IfOk result (λ p. p ≡ birth_policy (known_seen known.now) birth.now fields.now) }
{
    match birth {
        Some(e) => known.policy_of(alloc, e),
        None => {
            let none = bottom(alloc, &known.numbers)?;
            let parts = part_policies(alloc, known, fields)?;
            meet_of(alloc, none, parts.as_slice())
        }
    }
}

fn is_below(p: &Policy, q: &Policy) -> bool
    ensures { result ≡ is_below p.now q.now }
{
    par_typed::par_policy::leq(p, q)
}

fn is_below_all(p: &Policy, policies: &[Policy]) -> bool
    ensures { result ≡ list_all (is_below p.now) policies.now }
{
    policies.iter().all(|q| is_below(p, q))
}

/// Notes where a written birth policy is not below that of a field, and the limits that another
/// one exceeds.
#[tactic(auto, unfolding(crate::specs::Births::birth_faults))]
pub fn check_birth(
    alloc: Global,
    known: &Known<'_>,
    class: &ClassDecl,
    findings: &mut Findings,
) -> Result<(), NoMemory>
    ensures { OnOk result (findings.new
        ≡ first_of findings.old
        (birth_faults (known_seen known.now) (class_of class.now) class.now.birth)) }
{
    match &class.birth {
        Some(e) => {
            let policy = known.policy_of(alloc, e)?;
            let parts = part_policies(alloc, known, class.fields.as_slice())?;
            let holds = is_below_all(&policy, parts.as_slice());
            findings.expect(holds, BIRTH_RULE, class.id.at);
        }
        None => {
            let policy = birth_policy(alloc, known, &class.birth, class.fields.as_slice())?;
            note_form(class.id.at, &policy, findings);
        }
    }
    Ok(())
}
