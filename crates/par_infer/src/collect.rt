//! The lower bounds of inferred fields, read off the rules.

ghost use Rattle.std.specs.Prelude.{◌≡◌, ◌<◌, ◌≤◌, ℕ, IsTrue, OnOk, length};
ghost use Rattle.par_bits.specs.Sets.{has};
ghost use Rattle.par_typed.specs.Shown as shown;
ghost use Rattle.par_check.specs.par_check_laws.Checks.{checks as all_checks};
ghost use Rattle.par_asked.specs.Seen.{seen_check, seen_checks, seen_condition};
ghost use Rattle.par_infer.specs.Keeps as keeps;
ghost use Rattle.par_infer.specs.Bounds.{all_above, asked_above};
ghost use Rattle.par_infer.specs.Collected.{asked_of, compared_of, Gains, HasSmallEffect};
ghost use Rattle.par_infer.specs.Collected.{HaveSmallEffects};

use par_asked::body::checks_of;
use par_asked::check::{Check, Condition};
use par_atoms::Atoms;
use par_base::memory::NoMemory;
use par_check::{known_at, value_of};
use par_flow::known::{Known, KnownFacts};
use par_typed::program::TBody;
use par_typed::table::Table;
use std::alloc::Global;

const POLICIES: u16 = 256;

// The number of the policy that something is to be below.
pub(crate) fn limit(condition: Condition<'_>) -> Option<u16>
    ensures { result ≡ keeps.limit (seen_condition condition.entry) }
{
    match condition {
        Condition::Released(_, policy) => Some(policy),
        Condition::Worth(_, policy) => Some(policy),
        Condition::Joined(_, policy) => Some(policy),
        Condition::Context(policy) => Some(policy),
        Condition::Effect(_, policy) => Some(policy),
        Condition::Open(_) => None,
        Condition::Among(_, _) => None,
        Condition::Never => None,
    }
}

// What the condition compares with that policy.
fn compared(value: &Atoms, known: &Known, condition: Condition<'_>) -> Atoms
    requires { HasSmallEffect (seen_condition condition) }
    ensures { has result
        ≡ compared_of (has value.now) (has known.now.context) (seen_condition condition.entry) }
{
    match condition {
        Condition::Released(_, _) => *value,
        Condition::Worth(_, _) => *value,
        Condition::Joined(_, _) => value.union(&known.context),
        Condition::Context(_) => known.context,
        Condition::Effect(effect, _) => Atoms::empty().with(effect),
        Condition::Open(_) => Atoms::empty(),
        Condition::Among(_, _) => Atoms::empty(),
        Condition::Never => Atoms::empty(),
    }
}

// What the rule compares: no policies where its spot is not reached.
#[tactic(auto, using(crate::proofs::Asked::asked_unreached))]
fn asked<F: KnownFacts>(facts: &F, check: &Check<'_>) -> Atoms
    requires { HasSmallEffect (seen_condition check.now.condition) }
    ensures { has result ≡ asked_of (F.facts facts.now) (seen_check check.now) }
{
    match known_at(facts, check.point, check.way) {
        None => Atoms::empty(),
        Some(known) => {
            let value = value_of(facts, check.condition);
            compared(&value, &known, check.condition)
        }
    }
}

// Whether the number is in the set. One that is no policy's is not.
pub(crate) fn is_member(numbers: &Atoms, number: u16) -> bool
    ensures { result ≡ has numbers.now number }
{
    numbers.members_are_below();
    number < POLICIES && numbers.has(number)
}

// Notes what the rule asks the policy of an inferred number to be above.
fn note_bound<F: KnownFacts>(facts: &F, check: &Check<'_>, numbers: &Atoms, sets: &mut [Atoms])
    requires effect { HasSmallEffect (seen_condition check.now.condition) }
    requires inside { (n : ℕ) → IsTrue (has numbers.now n) → n < length sets.old }
    ensures { Gains (has numbers.now) sets.old sets.new
        (asked_above (F.facts facts.now) (seen_check check.now)) }
{
    if let Some(number) = limit(check.condition) {
        if is_member(numbers, number) {
            let more = asked(facts, check);
            let place = usize::from(number);
            sets[place] = sets[place].union(&more);
        }
    }
}

/// Notes what rules ask the policies of inferred numbers to be above.
pub fn note_bounds<F: KnownFacts>(
    facts: &F,
    checks: &[Check<'_>],
    numbers: &Atoms,
    sets: &mut [Atoms],
)
    requires effects { HaveSmallEffects (seen_checks checks.now) }
    requires inside { (n : ℕ) → IsTrue (has numbers.now n) → n < length sets.old }
    ensures { Gains (has numbers.now) sets.old sets.new
        (all_above (F.facts facts.now) (seen_checks checks.now)) }
{
    for check in checks {
        note_bound(facts, check, numbers, sets);
    }
}

/// Notes what the rules on a body ask the policies of inferred numbers to be above.
pub fn note_body<F: KnownFacts>(
    alloc: Global,
    facts: &F,
    table: &Table,
    body: &TBody,
    numbers: &Atoms,
    sets: &mut [Atoms],
) -> Result<(), NoMemory>
    requires classes { length table.now.classes ≤ 65536 }
    requires effects { HaveSmallEffects (all_checks table.now (shown.body body.now)) }
    requires inside { (n : ℕ) → IsTrue (has numbers.now n) → n < length sets.old }
    ensures { OnOk result (Gains (has numbers.now) sets.old sets.new
        (all_above (F.facts facts.now) (all_checks table.now (shown.body body.now)))) }
{
    let asked = checks_of(alloc, table, body)?;
    note_bounds(facts, asked.as_slice(), numbers, sets);
    Ok(())
}
