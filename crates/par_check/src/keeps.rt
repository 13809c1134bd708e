//! Whether facts keep a rule.

ghost use Rattle.std.specs.Prelude.{◌≡◌, ◌≤◌, ◌↔◌, length, slice_get, IfOk, IsTrue};
ghost use Rattle.par_bits.specs.Sets.{has};
ghost use Rattle.par_asked.specs.par_program_laws.Lattice.{IsSeenBelow, joined, seen_by};
ghost use Rattle.par_asked.specs.Seen.{seen_check, seen_condition};
ghost use Rattle.par_asked.specs.par_check_laws.Verdict.{KeepsNumbered};
ghost use Rattle.par_flow.specs.Standing.{stand};
ghost use Rattle.par_check.specs.Meets.{Meets, value_of};

use crate::locks::{are_among, are_open};
use crate::policies::Policies;
use crate::ways::known_at;
use par_asked::check::{Check, Condition};
use par_atoms::Atoms;
use par_base::memory::NoMemory;
use par_flow::known::{Known, KnownFacts};

// Whether the context is below the policy, whichever locks are open.
fn is_context_below(
    policies: &mut Policies<'_>,
    known: &Known,
    policy: u16,
) -> Result<bool, NoMemory>
    requires { length policies.old.policies ≤ 256 }
    ensures table { policies.new ≡ policies.old }
    ensures below { IfOk result (λ below. IsTrue below
        ↔ IsSeenBelow (joined policies.old.policies (has known.now.context))
        (seen_by (slice_get policies.old.policies policy))) }
{
    policies.is_below(&known.context, policy)
}

/// The value that the condition speaks of: no policies where it speaks of no value.
pub fn value_of<F: KnownFacts>(facts: &F, condition: Condition<'_>) -> Atoms
    ensures { has result ≡ value_of (F.facts facts.now) (seen_condition condition.entry) }
{
    match condition {
        Condition::Released(value, _) => facts.value(value),
        Condition::Worth(value, _) => facts.value(value),
        Condition::Joined(value, _) => facts.value(value),
        Condition::Open(_) => Atoms::empty(),
        Condition::Context(_) => Atoms::empty(),
        Condition::Effect(_, _) => Atoms::empty(),
        Condition::Among(_, _) => Atoms::empty(),
        Condition::Never => Atoms::empty(),
    }
}

/// Whether the condition holds of the value that it speaks of, and of what is known at its spot.
pub fn is_met(
    policies: &mut Policies<'_>,
    value: &Atoms,
    known: &Known,
    condition: Condition<'_>,
) -> Result<bool, NoMemory>
    requires { length policies.old.policies ≤ 256 }
    ensures table { policies.new ≡ policies.old }
    ensures met { IfOk result (λ met. IsTrue met
        ↔ Meets policies.old (has value.now) (stand known.now) (seen_condition condition.entry)) }
{
    match condition {
        Condition::Open(locks) => Ok(are_open(locks, &known.locks)),
        Condition::Released(_, policy) => policies.is_below_at(value, &known.locks, policy),
        Condition::Worth(_, policy) => policies.is_below(value, policy),
        Condition::Joined(_, policy) => policies.is_below(&value.union(&known.context), policy),
        Condition::Context(policy) => is_context_below(policies, known, policy),
        Condition::Effect(effect, policy) => policies.is_number_below(effect, policy),
        Condition::Among(locks, those) => Ok(are_among(locks, those)),
        Condition::Never => Ok(false),
    }
}

/// Whether the facts keep the rule: the condition holds at its spot, where that is reached.
#[tactic(auto, using(crate::proofs::Kept::kept))]
pub(crate) fn keeps<F: KnownFacts>(
    facts: &F,
    policies: &mut Policies<'_>,
    check: &Check<'_>,
) -> Result<bool, NoMemory>
    requires { length policies.old.policies ≤ 256 }
    ensures table { policies.new ≡ policies.old }
    ensures kept { IfOk result (λ kept. IsTrue kept
        ↔ KeepsNumbered policies.old (F.facts facts.now) (seen_check check.now)) }
{
    match known_at(facts, check.point, check.way) {
        None => Ok(true),
        Some(known) => {
            let value = value_of(facts, check.condition);
            is_met(policies, &value, &known, check.condition)
        }
    }
}
