//! The least sets that meet the bounds.

ghost use Rattle.std.specs.Prelude.{◌≡◌, ◌<◌, ◌≤◌, ℕ, false, IsTrue, OnOk, length, map};
ghost use Rattle.std.specs.List.{AllByRecursion};
ghost use Rattle.par_bits.specs.Sets.{has};
ghost use Rattle.par_program_laws.specs.Inferred.{inferred};
ghost use Rattle.par_reached.specs.Reached.{AreLeastSets, set_at};
ghost use Rattle.par_typed.specs.Shown as shown;
ghost use Rattle.par_infer.specs.Bounds.{bounds};
ghost use Rattle.par_infer.specs.Least.{HaveFewEffects};

use crate::births::note_births;
use crate::bodies::note_bodies;
use par_atoms::Atoms;
use par_base::memory::NoMemory;
use par_flow::known::KnownFacts;
use par_reached::reach;
use par_typed::program::TBody;
use par_typed::table::Table;
use std::alloc::Global;

/// The least sets that meet the bounds of inferred numbers, from empty ones.
pub fn least_sets<F: KnownFacts>(
    alloc: Global,
    facts: &[F],
    table: &Table,
    bodies: &[TBody],
    numbers: &Atoms,
    sets: &mut [Atoms],
) -> Result<(), NoMemory>
    requires classes { length table.now.classes ≤ 65536 }
    requires facts { length facts.now ≡ length bodies.now }
    requires births { AllByRecursion (λ c. c.birth < 256) table.now.classes }
    requires effects { HaveFewEffects table.now }
    requires inferred { (n : ℕ) → has numbers.now n ≡ inferred table.now n }
    requires inside { (n : ℕ) → IsTrue (has numbers.now n) → n < length sets.old }
    requires empty { (i n : ℕ) → set_at sets.old i n ≡ false }
    ensures size { OnOk result (length sets.new ≡ length sets.old) }
    ensures least { OnOk result (AreLeastSets (inferred table.now)
        (bounds table.now (shown.bodies bodies.now) (map F.facts facts.now))
        (set_at sets.new)) }
{
    note_births(table.classes.as_slice(), sets);
    note_bodies(alloc, facts, table, bodies, numbers, sets)?;
    reach(sets, numbers);
    Ok(())
}
