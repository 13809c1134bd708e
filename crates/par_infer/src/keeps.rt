//! Whether facts keep a rule, with each inferred number replaced by the set of its field.

ghost use Rattle.std.specs.Prelude.{◌≡◌, ◌<◌, ◌≤◌, ◌↔◌, ℕ, IsTrue, IfOk, OnOk, length};
ghost use Rattle.std.specs.Prelude.{List as Items};
ghost use Rattle.par_bits.specs.Sets.{has};
ghost use Rattle.par_program_laws.specs.Inferred.{inferred};
ghost use Rattle.par_reached.specs.Reached.{set_at};
ghost use Rattle.par_refusals.specs.declared.refusal.Refusal.{Refusal as Told};
ghost use Rattle.par_refusals.specs.First.{first_of};
ghost use Rattle.par_asked.specs.Seen.{seen_check, seen_checks};
ghost use Rattle.par_check.specs.Told.{AreBroken};
ghost use Rattle.par_infer.specs.Bounds.{replaced};
ghost use Rattle.par_infer.specs.Keeps.{limit};
ghost use Rattle.par_infer.specs.Laws.{is_in, KeepsOther, KeepsReplaced};

use crate::collect::{is_member, limit};
use crate::sets::replace;
use par_asked::check::Check;
use par_atoms::Atoms;
use par_base::memory::NoMemory;
use par_check::{Policies, is_met, known_at, value_of};
use par_flow::known::{Known, KnownFacts};
use par_refusals::refusal::Findings;

// What is known at a spot, with the inferred numbers of its context replaced.
fn replace_known(known: &Known, numbers: &Atoms, sets: &[Atoms]) -> Known
    requires { (n : ℕ) → IsTrue (has numbers.now n) → n < length sets.now }
    ensures context { (n : ℕ) → has result.context n
        ≡ replaced (has numbers.now) (set_at sets.now) (has known.now.context) n }
    ensures locks { result.locks ≡ known.now.locks }
{
    Known {
        context: replace(&known.context, numbers, sets),
        locks: known.locks,
    }
}

/// Whether the facts keep the rule, with each inferred number replaced by the set of its field: the
/// condition holds so at its spot, where that is reached.
#[tactic(auto, using(crate::proofs::Tested::kept_unreached))]
pub fn keeps_replaced<F: KnownFacts>(
    facts: &F,
    policies: &mut Policies<'_>,
    check: &Check<'_>,
    numbers: &Atoms,
    sets: &[Atoms],
) -> Result<bool, NoMemory>
    requires few { length policies.old.policies ≤ 256 }
    requires inferred { (n : ℕ) → has numbers.now n ≡ inferred policies.old n }
    requires inside { (n : ℕ) → IsTrue (has numbers.now n) → n < length sets.now }
    ensures table { policies.new ≡ policies.old }
    ensures kept { IfOk result (λ kept. IsTrue kept ↔ KeepsReplaced policies.old
        (set_at sets.now) (F.facts facts.now) (seen_check check.now)) }
{
    match known_at(facts, check.point, check.way) {
        None => Ok(true),
        Some(known) => {
            let spoken = value_of(facts, check.condition);
            let value = replace(&spoken, numbers, sets);
            let standing = replace_known(&known, numbers, sets);
            is_met(policies, &value, &standing, check.condition)
        }
    }
}

// Whether the rule is a lower bound of an inferred number.
fn is_bound(check: &Check<'_>, numbers: &Atoms) -> bool
    ensures { result ≡ is_in (has numbers.now) (limit (seen_check check.now).condition) }
{
    match limit(check.condition) {
        None => false,
        Some(number) => is_member(numbers, number),
    }
}

/// Whether the rule is a lower bound, or is kept with each inferred number replaced.
pub fn keeps_other<F: KnownFacts>(
    facts: &F,
    policies: &mut Policies<'_>,
    check: &Check<'_>,
    numbers: &Atoms,
    sets: &[Atoms],
) -> Result<bool, NoMemory>
    requires few { length policies.old.policies ≤ 256 }
    requires inferred { (n : ℕ) → has numbers.now n ≡ inferred policies.old n }
    requires inside { (n : ℕ) → IsTrue (has numbers.now n) → n < length sets.now }
    ensures table { policies.new ≡ policies.old }
    ensures kept { IfOk result (λ kept. IsTrue kept ↔ KeepsOther policies.old
        (set_at sets.now) (F.facts facts.now) (seen_check check.now)) }
{
    if is_bound(check, numbers) {
        return Ok(true);
    }
    keeps_replaced(facts, policies, check, numbers, sets)
}

/// Notes those of the rules that are no lower bounds and that the facts do not keep so.
pub fn note_failed<F: KnownFacts>(
    facts: &F,
    policies: &mut Policies<'_>,
    asked: &[Check<'_>],
    numbers: &Atoms,
    sets: &[Atoms],
    findings: &mut Findings,
) -> Result<(), NoMemory>
    requires few { length policies.old.policies ≤ 256 }
    requires inferred { (n : ℕ) → has numbers.now n ≡ inferred policies.old n }
    requires inside { (n : ℕ) → IsTrue (has numbers.now n) → n < length sets.now }
    ensures table { policies.new ≡ policies.old }
    ensures noted { OnOk result ((told : Items Told)
        × AreBroken (KeepsOther policies.old (set_at sets.now) (F.facts facts.now))
        (seen_checks asked.now) told
        × (findings.new ≡ first_of findings.old told)) }
{
    for check in asked {
        let kept = keeps_other(facts, policies, check, numbers, sets)?;
        findings.expect(kept, check.rule, check.at);
    }
    Ok(())
}
