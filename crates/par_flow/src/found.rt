//! The facts of a body as they are found.

ghost use Rattle.std.specs.Prelude.{◌≡◌, IfOk};
ghost use Rattle.std.specs.Option.{option_copied};
ghost use Rattle.par_typed.specs.Shown as shown;
ghost use Rattle.par_rounds.specs.par_except.Seen.{may_see};
ghost use Rattle.par_rounds.specs.par_pass_laws.Written.{table as by_point};
ghost use Rattle.par_rounds.specs.Bodies.{AreLeastClosed};
ghost use Rattle.par_program_laws.specs.Orderly.{IsOrderlyBody};
ghost use Rattle.par_rounds.specs.par_ways.Seen.{seen_facts};
ghost use Rattle.par_flow.specs.Standing.{standing, stands};

use crate::known::{Known, KnownFacts};
use par_atoms::Atoms;
use par_base::memory::NoMemory;
use par_nodes::rule::Kind;
use par_rounds::{Fact, SharedWay, entry_at, exit_at, rows_of, value_at};
use par_typed::program::TBody;
use par_typed::table::Table;
use std::alloc::Global;

/// The least facts of a body, by points, for who asks them once and drops them.
#[derive(Drop)]
pub struct FoundFacts {
    rows: Vec<Fact>,
}

// What is asked of a way, if there is one.
fn known(way: Option<&SharedWay>) -> Option<Known>
    ensures { stands result ≡ standing (may_see (option_copied way.entry)) }
{
    match way {
        None => None,
        Some(way) => Some(Known {
            context: way.context(),
            locks: way.locks(),
        }),
    }
}

impl KnownFacts for FoundFacts {
    ghost facts = { λ f. by_point (seen_facts f.rows.items) };

    fn entry(&self, point: u32) -> Option<Known> {
        known(entry_at(&self.rows, point))
    }

    fn exit(&self, point: u32, kind: Kind) -> Option<Known> {
        known(exit_at(&self.rows, point, kind))
    }

    fn value(&self, point: u32) -> Atoms {
        value_at(&self.rows, point)
    }
}

/// The least facts of a body of the table, as they are found.
pub fn found_facts(alloc: Global, table: &Table, body: &TBody) -> Result<FoundFacts, NoMemory>
    requires { IsOrderlyBody table.now (shown.body body.now) }
    ensures { IfOk result (λ f. AreLeastClosed table.now (shown.body body.now)
        (by_point (seen_facts f.rows.items))) }
{
    let rows = rows_of(alloc, table, body)?;
    Ok(FoundFacts { rows })
}
