//! The first broken rule of a program.

ghost use Rattle.std.specs.Prelude.{◌≡◌, ◌≤◌, List as Items, length, map, IfOk, OnOk};
ghost use Rattle.par_refusals.specs.declared.refusal.Refusal.{Refusal as Told};
ghost use Rattle.par_refusals.specs.First.{first_of, IsAnswer};
ghost use Rattle.par_typed.specs.Shown as shown;
ghost use Rattle.par_asked.specs.par_check_laws.Checks.{checks};
ghost use Rattle.par_asked.specs.par_check_laws.Verdict.{KeepsNumbered};
ghost use Rattle.par_asked.specs.Seen.{seen_checks};
ghost use Rattle.par_asked.specs.par_check_laws.Right.{AreAllRight};
ghost use Rattle.par_check.specs.Judged.{IsVerdict};
ghost use Rattle.par_check.specs.Told.{AreBroken, AreAllBroken};

use crate::keeps::keeps;
use crate::policies::Policies;
use par_asked::body::checks_of;
use par_asked::check::Check;
use par_base::memory::NoMemory;
use par_flow::known::KnownFacts;
use par_refusals::refusal::{Findings, Refusal};
use par_typed::program::TBody;
use par_typed::table::Table;
use std::alloc::Global;

// Notes those of the rules that the facts do not keep.
fn note_broken<F: KnownFacts>(
    facts: &F,
    policies: &mut Policies<'_>,
    asked: &[Check<'_>],
    findings: &mut Findings,
) -> Result<(), NoMemory>
    requires { length policies.old.policies ≤ 256 }
    ensures table { policies.new ≡ policies.old }
    ensures noted { OnOk result ((told : Items Told)
        × AreBroken (KeepsNumbered policies.old (F.facts facts.now)) (seen_checks asked.now) told
        × (findings.new ≡ first_of findings.old told)) }
{
    for check in asked {
        findings.expect(keeps(facts, policies, check)?, check.rule, check.at);
    }
    Ok(())
}

/// Notes the broken rules of a body.
pub(crate) fn note_body<F: KnownFacts>(
    alloc: Global,
    facts: &F,
    policies: &mut Policies<'_>,
    body: &TBody,
    findings: &mut Findings,
) -> Result<(), NoMemory>
    requires policies { length policies.old.policies ≤ 256 }
    requires classes { length policies.old.classes ≤ 65536 }
    ensures table { policies.new ≡ policies.old }
    ensures noted { OnOk result ((told : Items Told)
        × AreBroken (KeepsNumbered policies.old (F.facts facts.now))
        (checks policies.old (shown.body body.now)) told
        × (findings.new ≡ first_of findings.old told)) }
{
    let asked = checks_of(alloc, policies.table(), body)?;
    note_broken(facts, policies, asked.as_slice(), findings)
}

// Notes the broken rules of bodies, each over its facts.
fn note_bodies<F: KnownFacts>(
    alloc: Global,
    facts: &[F],
    policies: &mut Policies<'_>,
    bodies: &[TBody],
    findings: &mut Findings,
) -> Result<(), NoMemory>
    requires policies { length policies.old.policies ≤ 256 }
    requires classes { length policies.old.classes ≤ 65536 }
    requires facts { length facts.now ≡ length bodies.now }
    ensures { OnOk result ((told : Items Told)
        × AreAllBroken policies.old (shown.bodies bodies.now) (map F.facts facts.now) told
        × (findings.new ≡ first_of findings.old told)) }
{
    for (place, body) in bodies.iter().enumerate() {
        note_body(alloc, &facts[place], policies, body, findings)?;
    }
    Ok(())
}

/// The first broken rule of bodies, each over its facts: the one at the least place, and there the
/// least rule. None is broken where there is none.
pub fn first_broken<F: KnownFacts>(
    alloc: Global,
    facts: &[F],
    table: &Table,
    bodies: &[TBody],
) -> Result<Option<Refusal>, NoMemory>
    requires policies { length table.now.policies ≤ 256 }
    requires classes { length table.now.classes ≤ 65536 }
    requires facts { length facts.now ≡ length bodies.now }
    ensures told { IfOk result (λ first. (told : Items Told)
        × AreAllBroken table.now (shown.bodies bodies.now) (map F.facts facts.now) told
        × IsAnswer told first) }
    ensures judged { AreAllRight table.now (shown.bodies bodies.now) (map F.facts facts.now)
        → IfOk result (IsVerdict table.now (shown.bodies bodies.now)) }
{
    let mut policies = Policies::of(alloc, table);
    let mut findings = Findings::new();
    note_bodies(alloc, facts, &mut policies, bodies, &mut findings)?;
    Ok(findings.first())
}
