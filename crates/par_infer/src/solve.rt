//! Policies for the inferred fields of a program.

ghost use Rattle.std.specs.Prelude.{◌≡◌, ◌≤◌, ℕ, false, IfOk, IfErr, OnOk, length, map};
ghost use Rattle.std.specs.List.{AllByRecursion};
ghost use Rattle.par_bits.specs.Sets.{has};
ghost use Rattle.par_program_laws.specs.WellDeclared.{HasFewFields, IsWellDeclared};
ghost use Rattle.par_program_laws.specs.Inferred.{inferred};
ghost use Rattle.par_reached.specs.Reached.{AreLeastSets, set_at};
ghost use Rattle.par_typed.specs.Shown as shown;
ghost use Rattle.par_check.specs.par_check_laws.Right.{AreAllRight};
ghost use Rattle.par_program_laws.specs.Orderly.{IsOrderlyBody};
ghost use Rattle.par_infer.specs.Bounds.{bounds};
ghost use Rattle.par_infer.specs.Inferred.{IsInferred, IsRefused};
ghost use Rattle.par_infer.specs.Judged.{IsJudged};

use crate::error::InferError;
use crate::filling::{Filling, fill};
use crate::least::least_sets;
use crate::numbers::inferred_numbers;
use crate::verdict::first_failed;
use par_atoms::Atoms;
use par_base::memory::NoMemory;
use par_check::all_facts;
use par_flow::known::KnownFacts;
use par_refusals::refusal::Refusal;
use par_typed::program::Typed;
use std::alloc::Global;

const POLICIES: usize = 256;

// Sets of nothing, one for each number of a policy.
fn no_sets() -> [Atoms; POLICIES]
    ensures size { length result ≡ 256 }
    ensures empty { (i n : ℕ) → set_at result i n ≡ false }
{
    [Atoms::empty(); POLICIES]
}

// The least sets that meet the bounds, and the first other rule that fails with them.
fn decide<F: KnownFacts>(
    alloc: Global,
    facts: &[F],
    typed: &Typed,
    numbers: &Atoms,
    sets: &mut [Atoms],
) -> Result<Option<Refusal>, NoMemory>
    requires policies { length typed.now.table.policies ≤ 256 }
    requires classes { length typed.now.table.classes ≤ 65536 }
    requires declared { IsWellDeclared typed.now.table }
    requires facts { length facts.now ≡ length typed.now.bodies }
    requires right { AreAllRight typed.now.table (shown.bodies typed.now.bodies)
        (map F.facts facts.now) }
    requires inferred { (n : ℕ) → has numbers.now n ≡ inferred typed.now.table n }
    requires size { length sets.old ≡ 256 }
    requires empty { (i n : ℕ) → set_at sets.old i n ≡ false }
    ensures size { OnOk result (length sets.new ≡ 256) }
    ensures least { OnOk result (AreLeastSets (inferred typed.now.table)
        (bounds typed.now.table (shown.bodies typed.now.bodies) (map F.facts facts.now))
        (set_at sets.new)) }
    ensures judged { IfOk result (IsJudged typed.now.table (shown.bodies typed.now.bodies)
        (map F.facts facts.now) (set_at sets.new)) }
{
    let table = &typed.table;
    let bodies = typed.bodies.as_slice();
    least_sets(alloc, facts, table, bodies, numbers, sets)?;
    first_failed(alloc, facts, table, bodies, numbers, sets)
}

/// The least policies for the inferred fields of a program with which it is accepted: those of each
/// accepted filling are above them, field by field. A refusal comes exactly where no filling is
/// accepted.
pub fn infer_fields(alloc: Global, typed: &Typed) -> Result<Filling, InferError>
    requires policies { length typed.now.table.policies ≤ 256 }
    requires classes { length typed.now.table.classes ≤ 65536 }
    requires fields { AllByRecursion HasFewFields typed.now.table.classes }
    requires orderly { AllByRecursion (IsOrderlyBody typed.now.table)
        (shown.bodies typed.now.bodies) }
    requires declared { IsWellDeclared typed.now.table }
    ensures filled { IfOk result (λ filling. IsInferred typed.now filling.fields) }
    ensures refused { IfErr result (IsRefused typed.now) }
{
    let facts = all_facts(alloc, typed)?;
    let numbers = inferred_numbers(&typed.table);
    let mut sets = no_sets();
    match decide(alloc, facts.as_slice(), typed, &numbers, &mut sets)? {
        Some(refusal) => Err(InferError::Broken(refusal)),
        None => Ok(fill(alloc, typed.table.classes.as_slice(), &sets)?),
    }
}
