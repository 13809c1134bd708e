//! The verdict on a program whose facts are not kept.

ghost use Rattle.std.specs.Prelude.{◌≡◌, ◌≤◌, None, List as Items, length, IfOk, OnOk};
ghost use Rattle.std.specs.List.{AllByRecursion};
ghost use Rattle.par_typed.specs.Shown as shown;
ghost use Rattle.par_asked.specs.par_program_laws.Facts.{Facts};
ghost use Rattle.par_asked.specs.par_program_laws.Lattice.{numbers};
ghost use Rattle.par_program_laws.specs.Orderly.{IsOrderlyBody};
ghost use Rattle.par_asked.specs.par_check_laws.Accepted.{IsAcceptedBy, MOST_BODIES};
ghost use Rattle.par_check.specs.Judged.{IsVerdict};
ghost use Rattle.par_check.specs.Told.{HasTold, HaveTold};

use crate::first::note_body;
use crate::policies::Policies;
use par_base::memory::NoMemory;
use par_flow::found_facts;
use par_refusals::refusal::{Findings, Refusal};
use par_typed::program::{TBody, Typed};
use std::alloc::Global;

// Notes the broken rules of a body, over facts that are found for it and dropped.
fn note_found(
    alloc: Global,
    policies: &mut Policies<'_>,
    body: &TBody,
    findings: &mut Findings,
) -> Result<(), NoMemory>
    requires policies { length policies.old.policies ≤ 256 }
    requires classes { length policies.old.classes ≤ 65536 }
    requires orderly { IsOrderlyBody policies.old (shown.body body.now) }
    ensures table { policies.new ≡ policies.old }
    ensures told { OnOk result
        (HasTold policies.old (shown.body body.now) findings.old findings.new) }
{
    let facts = found_facts(alloc, policies.table(), body)?;
    note_body(alloc, &facts, policies, body, findings)?;
    Ok(())
}

// Notes those of bodies, one body after the other.
fn note_all_found(
    alloc: Global,
    policies: &mut Policies<'_>,
    bodies: &[TBody],
    findings: &mut Findings,
) -> Result<(), NoMemory>
    requires policies { length policies.old.policies ≤ 256 }
    requires classes { length policies.old.classes ≤ 65536 }
    requires orderly { AllByRecursion (IsOrderlyBody policies.old) (shown.bodies bodies.now) }
    ensures { OnOk result
        (HaveTold policies.old (shown.bodies bodies.now) findings.old findings.new) }
{
    for body in bodies {
        note_found(alloc, policies, body, findings)?;
    }
    Ok(())
}

/// The first broken rule on flows: the one at the least place, and there the least rule. None is
/// broken exactly where some closed facts of each body keep all rules, as an accepted program has
/// them. They are not kept: those of a body are dropped once they are asked.
pub fn verdict(alloc: Global, typed: &Typed) -> Result<Option<Refusal>, NoMemory>
    requires policies { length typed.now.table.policies ≤ 256 }
    requires classes { length typed.now.table.classes ≤ 65536 }
    requires few { length typed.now.bodies ≤ MOST_BODIES }
    requires orderly { AllByRecursion (IsOrderlyBody typed.now.table)
        (shown.bodies typed.now.bodies) }
    ensures judged { IfOk result
        (IsVerdict typed.now.table (shown.bodies typed.now.bodies)) }
    ensures kept { IfOk result (λ first. first ≡ None
        → (facts : Items (Facts numbers)) × IsAcceptedBy typed.now facts) }
{
    let mut policies = Policies::of(alloc, &typed.table);
    let mut findings = Findings::new();
    note_all_found(alloc, &mut policies, typed.bodies.as_slice(), &mut findings)?;
    Ok(findings.first())
}
