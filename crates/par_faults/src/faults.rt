//! The passes over names and limits, one after the other.

ghost use Rattle.std.specs.Prelude.{◌≡◌, ◌≤◌, List, None, IfOk, IfSome};
ghost use Rattle.par_lexer.specs.declared.cut.TheConstants.{LONGEST_SOURCE};
ghost use Rattle.par_tree.specs.Shown.{source};
ghost use Rattle.par_parser.specs.Bodies.{source_size};
ghost use Rattle.par_refusals.specs.First.{first_of, IsAnswer};
ghost use Rattle.par_faults.specs.Limits.{declared_limits};
ghost use Rattle.par_limits.specs.par_resolved.Limits.{policy_faults};
ghost use Rattle.par_limits.specs.par_resolved.Policies as policies;
ghost use Rattle.par_limits.specs.par_resolved.Seen.{known_seen};
ghost use Rattle.par_limits.specs.par_resolved.Sizes.{all_literal_faults};
ghost use Rattle.par_refusals.specs.declared.refusal.Refusal.{Refusal};
ghost use Rattle.par_faults.specs.Faults.{where_none, policies_faults, limit_faults, all_faults};

use crate::{check_class_counts, check_declared, first_broken_name};
use par_limits::Outcome;
use par_limits::par_resolved::NoMemory;
use par_limits::par_resolved::known::Known;
use par_limits::par_resolved::literals::first_literal;
use par_parts::written::written;
use par_refusals::refusal::{Findings, Refusal};
use par_tree::decl::Program;
use std::alloc::Global;

// The first limit that a policy exceeds as it is written.
fn first_written(alloc: Global, program: &Program) -> Result<Option<Refusal>, NoMemory>
    ensures { IfOk result (λ first.
        first ≡ first_of None (all_literal_faults (source program.now))) }
{
    let exprs = written(alloc, program)?;
    Ok(first_literal(exprs.as_slice()))
}

// The first limit of policies, where there are not too many actors or locks.
fn look_among_few<'a>(
    alloc: Global,
    program: &'a Program,
    declared: Option<Refusal>,
) -> Result<Outcome<'a>, NoMemory>
    requires { declared ≡ first_of None (declared_limits (source program.now)) }
    ensures first { IfOk result (λ found. found.first ≡ first_of None
        (where_none (declared_limits (source program.now)) (policy_faults (source program.now)))) }
    ensures known { IfOk result (λ found.
        IfSome found.known (λ k. known_seen k ≡ policies.known (source program.now))) }
{
    match declared {
        None => par_limits::look(alloc, program),
        Some(_) => Ok(Outcome {
            first: None,
            known: None,
        }),
    }
}

fn look_at_policies<'a>(
    alloc: Global,
    program: &'a Program,
    declared: Option<Refusal>,
) -> Result<Outcome<'a>, NoMemory>
    requires { declared ≡ first_of None (declared_limits (source program.now)) }
    ensures first { IfOk result (λ found.
        found.first ≡ first_of None (policies_faults (source program.now))) }
    ensures known { IfOk result (λ found.
        IfSome found.known (λ k. known_seen k ≡ policies.known (source program.now))) }
{
    match first_written(alloc, program)? {
        None => look_among_few(alloc, program, declared),
        Some(exceeded) => Ok(Outcome::fault(exceeded)),
    }
}

// Notes the first fault that is found, and gives what is known.
fn note_found<'a>(found: Outcome<'a>, findings: &mut Findings) -> Option<Known<'a>>
    ensures noted { (faults : List Refusal) → found.entry.first ≡ first_of None faults
        → findings.new ≡ first_of findings.old faults }
    ensures known { result ≡ found.entry.known }
{
    let Outcome { first, known } = found;
    match first {
        None => {}
        Some(first) => findings.note(first),
    }
    known
}

// The limits, those of policies behind the others.
#[tactic(auto, using(par_refusals::proofs::First::firsts))]
fn look_at_limits(alloc: Global, program: &Program) -> Result<Outcome<'_>, NoMemory>
    requires { source_size (source program.now) ≤ LONGEST_SOURCE }
    ensures first { IfOk result (λ found.
        found.first ≡ first_of None (limit_faults (source program.now))) }
    ensures known { IfOk result (λ found.
        IfSome found.known (λ k. known_seen k ≡ policies.known (source program.now))) }
{
    let mut findings = Findings::new();
    check_declared(alloc, program.decls.as_slice(), &mut findings)?;
    let declared = findings.first();
    check_class_counts(alloc, program, &mut findings)?;
    let found = look_at_policies(alloc, program, declared)?;
    let known = note_found(found, &mut findings);
    Ok(Outcome {
        first: findings.first(),
        known,
    })
}

/// Looks at names, and where they are right, at limits and at birth policies where they are
/// written. The first fault is the first broken rule on names, and where there is none, the first
/// limit that is exceeded or birth policy that is not below the policies of fields.
pub fn look(alloc: Global, program: &Program) -> Result<Outcome<'_>, NoMemory>
    requires { source_size (source program.now) ≤ LONGEST_SOURCE }
    ensures first { IfOk result (λ found. IsAnswer (all_faults (source program.now)) found.first) }
    ensures known { IfOk result (λ found.
        IfSome found.known (λ k. known_seen k ≡ policies.known (source program.now))) }
{
    match first_broken_name(alloc, program)? {
        None => look_at_limits(alloc, program),
        Some(first) => Ok(Outcome::fault(first)),
    }
}

/// The first fault that `look` finds.
pub fn first_fault(alloc: Global, program: &Program) -> Result<Option<Refusal>, NoMemory>
    requires { source_size (source program.now) ≤ LONGEST_SOURCE }
    ensures { IfOk result (IsAnswer (all_faults (source program.now))) }
{
    let Outcome { first, known } = look(alloc, program)?;
    drop(known);
    Ok(first)
}
