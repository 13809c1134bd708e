// Locks by points.
ghost use Rattle.std.specs.Prelude.{◌≡◌, ◌<◌, ℕ, Some, IfOk, length, slice_get};
ghost use Rattle.std.specs.List.{AllByRecursion};
ghost use Rattle.std.specs.Option.{option_copied};
ghost use Rattle.par_typed.specs.Plain.{Body};
ghost use Rattle.par_typed.specs.Shown as shown;
ghost use Rattle.par_rounds.specs.par_except.Seen.{may_see};
ghost use Rattle.par_rounds.specs.par_pass_laws.Written.{table as by_point};
ghost use Rattle.par_rounds.specs.par_ways.Seen.{seen_facts};
ghost use Rattle.par_program_laws.specs.Orderly.{IsOrderlyBody};
ghost use Rattle.par_locks.specs.Open.{entering, open_at, AreOpenOf};
ghost use Rattle.par_rounds.specs.par_ways.Changes.{may_have};

use par_base::memory::NoMemory;
use par_bits::Bits;
use par_rounds::{Fact, body_at, rows_of};
use par_typed::program::Typed;
use std::alloc::Global;

/// The locks that are open at each point of a body.
#[derive(Drop)]
pub struct LockFacts {
    locks: Vec<Option<Bits<4>>>,
}

impl LockFacts {
    /// The locks that are open whenever the point is reached, if it is.
    pub fn at(&self, point: u32) -> Option<&Bits<4>>
        ensures { may_have (option_copied result) ≡ open_at self.now point }
    {
        let place = point as usize;
        if place < self.locks.len() {
            match &self.locks[place] {
                None => None,
                Some(locks) => Some(locks),
            }
        } else {
            None
        }
    }
}

// The locks of the way that enters.
fn entering(row: &Fact) -> Option<Bits<4>>
    ensures { may_have result ≡ entering (may_see row.now.entry) }
{
    match &row.entry {
        None => None,
        Some(way) => Some(way.locks()),
    }
}

// Those of each row.
fn all_entering(alloc: Global, rows: &[Fact]) -> Result<LockFacts, NoMemory>
    ensures { IfOk result (λ l. (point : ℕ)
        → open_at l point ≡ entering (by_point (seen_facts rows.now) point).entry) }
{
    let mut locks = Vec::new(alloc);
    for row in rows {
        locks.push(entering(row))?;
    }
    Ok(LockFacts { locks })
}

/// The locks that are open at the points of a body: those of its least facts.
pub fn locks_of(alloc: Global, typed: &Typed, body: u16) -> Result<LockFacts, NoMemory>
    requires body { body < length typed.now.bodies }
    requires orderly { AllByRecursion (IsOrderlyBody typed.now.table)
        (shown.bodies typed.now.bodies) }
    ensures { IfOk result (λ l. (b : Body) → slice_get (shown.bodies typed.now.bodies) body ≡ Some b
        → AreOpenOf typed.now.table b (open_at l)) }
{
    let body = body_at(typed, body);
    let rows = rows_of(alloc, &typed.table, body)?;
    let locks = all_entering(alloc, &rows)?;
    Ok(locks)
}
