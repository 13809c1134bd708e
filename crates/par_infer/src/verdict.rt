//! The first rule that no policies for inferred fields keep.

ghost use Rattle.std.specs.Prelude.{◌≡◌, ◌<◌, ◌≤◌, ℕ, IsTrue, IfOk, OnOk, length, map};
ghost use Rattle.std.specs.Prelude.{List as Items};
ghost use Rattle.par_bits.specs.Sets.{has};
ghost use Rattle.par_program_laws.specs.Inferred.{inferred};
ghost use Rattle.par_reached.specs.Reached.{set_at};
ghost use Rattle.par_refusals.specs.declared.refusal.Refusal.{Refusal as Told};
ghost use Rattle.par_refusals.specs.First.{first_of};
ghost use Rattle.par_typed.specs.Shown as shown;
ghost use Rattle.par_infer.specs.par_check_laws.Checks.{checks};
ghost use Rattle.par_check.specs.par_check_laws.Right.{AreAllRight};
ghost use Rattle.par_check.specs.Told.{AreBroken};
ghost use Rattle.par_infer.specs.Laws.{KeepsOther};
ghost use Rattle.par_infer.specs.Judged.{AreAllFailed, IsJudged};

use crate::keeps::note_failed;
use par_asked::body::checks_of;
use par_atoms::Atoms;
use par_base::memory::NoMemory;
use par_check::Policies;
use par_flow::known::KnownFacts;
use par_refusals::refusal::{Findings, Refusal};
use par_typed::program::TBody;
use par_typed::table::Table;
use std::alloc::Global;

// Notes the other rules on a body that fail with these sets in place of inferred numbers.
fn note_body<F: KnownFacts>(
    alloc: Global,
    facts: &F,
    policies: &mut Policies<'_>,
    body: &TBody,
    numbers: &Atoms,
    sets: &[Atoms],
    findings: &mut Findings,
) -> Result<(), NoMemory>
    requires few { length policies.old.policies ≤ 256 }
    requires classes { length policies.old.classes ≤ 65536 }
    requires inferred { (n : ℕ) → has numbers.now n ≡ inferred policies.old n }
    requires inside { (n : ℕ) → IsTrue (has numbers.now n) → n < length sets.now }
    ensures table { policies.new ≡ policies.old }
    ensures noted { OnOk result ((told : Items Told)
        × AreBroken (KeepsOther policies.old (set_at sets.now) (F.facts facts.now))
        (checks policies.old (shown.body body.now)) told
        × (findings.new ≡ first_of findings.old told)) }
{
    let asked = checks_of(alloc, policies.table(), body)?;
    let noted = note_failed(facts, policies, asked.as_slice(), numbers, sets, findings);
    drop(asked);
    noted
}

// Notes those on bodies, each over its facts.
fn note_bodies<F: KnownFacts>(
    alloc: Global,
    facts: &[F],
    policies: &mut Policies<'_>,
    bodies: &[TBody],
    numbers: &Atoms,
    sets: &[Atoms],
    findings: &mut Findings,
) -> Result<(), NoMemory>
    requires few { length policies.old.policies ≤ 256 }
    requires classes { length policies.old.classes ≤ 65536 }
    requires facts { length facts.now ≡ length bodies.now }
    requires inferred { (n : ℕ) → has numbers.now n ≡ inferred policies.old n }
    requires inside { (n : ℕ) → IsTrue (has numbers.now n) → n < length sets.now }
    ensures { OnOk result ((told : Items Told)
        × AreAllFailed policies.old (set_at sets.now) (shown.bodies bodies.now)
        (map F.facts facts.now) told
        × (findings.new ≡ first_of findings.old told)) }
{
    for (place, body) in bodies.iter().enumerate() {
        note_body(
            alloc,
            &facts[place],
            policies,
            body,
            numbers,
            sets,
            findings,
        )?;
    }
    Ok(())
}

/// The first of the other rules that fail with these sets in place of inferred numbers: the one at
/// the least place, and there the least rule. All are kept where there is none.
pub fn first_failed<F: KnownFacts>(
    alloc: Global,
    facts: &[F],
    table: &Table,
    bodies: &[TBody],
    numbers: &Atoms,
    sets: &[Atoms],
) -> Result<Option<Refusal>, NoMemory>
    requires few { length table.now.policies ≤ 256 }
    requires classes { length table.now.classes ≤ 65536 }
    requires facts { length facts.now ≡ length bodies.now }
    requires inferred { (n : ℕ) → has numbers.now n ≡ inferred table.now n }
    requires inside { (n : ℕ) → IsTrue (has numbers.now n) → n < length sets.now }
    requires right { AreAllRight table.now (shown.bodies bodies.now) (map F.facts facts.now) }
    ensures { IfOk result (IsJudged table.now (shown.bodies bodies.now) (map F.facts facts.now)
        (set_at sets.now)) }
{
    let mut policies = Policies::of(alloc, table);
    let mut findings = Findings::new();
    let noted = note_bodies(
        alloc,
        facts,
        &mut policies,
        bodies,
        numbers,
        sets,
        &mut findings,
    );
    drop(policies);
    match noted {
        Ok(()) => Ok(findings.first()),
        Err(error) => Err(error),
    }
}
