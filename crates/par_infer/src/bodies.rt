//! What bodies ask the policies of inferred fields to be above.

ghost use Rattle.std.specs.Prelude.{◌≡◌, ◌<◌, ◌≤◌, ℕ, IsTrue, OnOk, length, map};
ghost use Rattle.par_bits.specs.Sets.{has};
ghost use Rattle.par_typed.specs.Shown as shown;
ghost use Rattle.par_infer.specs.Bounds.{bodies_above};
ghost use Rattle.par_infer.specs.Collected.{Gains};
ghost use Rattle.par_infer.specs.Least.{HaveFewEffects};

use crate::collect::note_body;
use par_atoms::Atoms;
use par_base::memory::NoMemory;
use par_flow::known::KnownFacts;
use par_typed::program::TBody;
use par_typed::table::Table;
use std::alloc::Global;

/// Notes what the rules on bodies, each over its facts, ask the policies of inferred numbers to be
/// above.
pub fn note_bodies<F: KnownFacts>(
    alloc: Global,
    facts: &[F],
    table: &Table,
    bodies: &[TBody],
    numbers: &Atoms,
    sets: &mut [Atoms],
) -> Result<(), NoMemory>
    requires classes { length table.now.classes ≤ 65536 }
    requires facts { length facts.now ≡ length bodies.now }
    requires effects { HaveFewEffects table.now }
    requires inside { (n : ℕ) → IsTrue (has numbers.now n) → n < length sets.old }
    ensures { OnOk result (Gains (has numbers.now) sets.old sets.new
        (bodies_above table.now (shown.bodies bodies.now) (map F.facts facts.now))) }
{
    for (place, body) in bodies.iter().enumerate() {
        note_body(alloc, &facts[place], table, body, numbers, sets)?;
    }
    Ok(())
}
