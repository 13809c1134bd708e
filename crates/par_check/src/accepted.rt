//! Accepted programs.

ghost use Rattle.std.specs.Prelude.{◌≡◌, ◌<◌, ◌≤◌, length, map, None, slice_index_or, IfOk, IfErr};
ghost use Rattle.std.specs.List.{AllByRecursion};
ghost use Rattle.par_typed.specs.Shown as shown;
ghost use Rattle.par_program_laws.specs.Orderly.{IsOrderlyBody};
ghost use Rattle.par_flow.specs.Table.{facts_in};
ghost use Rattle.par_asked.specs.par_check_laws.Right.{AreAllRight, AreRight};
ghost use Rattle.par_check.specs.Judged.{IsVerdict};
ghost use Rattle.par_asked.specs.par_check_laws.Accepted.{IsAcceptedBy, MOST_BODIES};
ghost use Rattle.par_check.specs.Accepted.{IsRefused};

use crate::error::CheckError;
use crate::first::first_broken;
use par_base::list::List;
use par_base::memory::NoMemory;
use par_flow::{FactTable, table_of};
use par_typed::program::{TBody, Typed};
use par_typed::table::Table;
use std::alloc::Global;

/// A program with the facts of its bodies, which keep all rules on flows.
#[derive(Drop)]
pub struct Accepted {
    typed: Typed,
    facts: List<FactTable>,
    ghost kept: { ∥ IsAcceptedBy typed (map facts_in facts) ∥₁ },
}

impl Accepted {
    /// The program.
    pub fn typed(&self) -> &Typed
        ensures { result.now ≡ self.now.typed }
    {
        &self.typed
    }

    /// The facts of a body.
    pub fn facts(&self, body: u16) -> &FactTable
        requires { body < length self.now.typed.bodies }
        ensures { result.now ≡ slice_index_or self.now.facts body result.now }
    {
        &self.facts.as_slice()[usize::from(body)]
    }
}

// The facts of a body, as rules ask for them.
fn right_facts(alloc: Global, table: &Table, body: &TBody) -> Result<FactTable, NoMemory>
    requires { IsOrderlyBody table.now (shown.body body.now) }
    ensures { IfOk result (λ f. AreRight table.now (shown.body body.now) (facts_in f)) }
{
    let facts = table_of(alloc, table, body)?;
    Ok(facts)
}

/// The facts of all bodies, in their order.
pub fn all_facts(alloc: Global, typed: &Typed) -> Result<List<FactTable>, NoMemory>
    requires { AllByRecursion (IsOrderlyBody typed.now.table) (shown.bodies typed.now.bodies) }
    ensures many { IfOk result (λ fs. length fs ≡ length typed.now.bodies) }
    ensures right { IfOk result (λ fs.
        AreAllRight typed.now.table (shown.bodies typed.now.bodies) (map facts_in fs)) }
{
    let mut facts = List::new(alloc);
    for body in typed.bodies.as_slice() {
        facts.push(right_facts(alloc, &typed.table, body)?)?;
    }
    Ok(facts)
}

// The facts of all bodies of a program that keeps all rules on flows.
fn kept_facts(alloc: Global, typed: &Typed) -> Result<List<FactTable>, CheckError>
    requires policies { length typed.now.table.policies ≤ 256 }
    requires classes { length typed.now.table.classes ≤ 65536 }
    requires few { length typed.now.bodies ≤ MOST_BODIES }
    requires orderly { AllByRecursion (IsOrderlyBody typed.now.table)
        (shown.bodies typed.now.bodies) }
    ensures kept { IfOk result (λ facts. IsAcceptedBy typed.now (map facts_in facts)) }
    ensures accepted { IfOk result (λ _.
        IsVerdict typed.now.table (shown.bodies typed.now.bodies) None) }
    ensures refused { IfErr result (IsRefused typed.now) }
{
    let facts = all_facts(alloc, typed)?;
    let first = first_broken(
        alloc,
        facts.as_slice(),
        &typed.table,
        typed.bodies.as_slice(),
    )?;
    match first {
        Some(refusal) => Err(CheckError::Broken(refusal)),
        None => Ok(facts),
    }
}

/// The program with its facts, exactly where some closed facts of each body keep all rules: locks
/// that are expected, closed and opened, values and contexts below the policies of what they go to,
/// and exceptions. The facts of each body are closed and the least ones, and they keep all rules as
/// facts over sets of policy numbers. A refusal drops the program.
pub fn check(alloc: Global, typed: Typed) -> Result<Accepted, CheckError>
    requires policies { length typed.table.policies ≤ 256 }
    requires classes { length typed.table.classes ≤ 65536 }
    requires few { length typed.bodies ≤ MOST_BODIES }
    requires orderly { AllByRecursion (IsOrderlyBody typed.table) (shown.bodies typed.bodies) }
    ensures program { IfOk result (λ accepted. accepted.typed ≡ typed) }
    ensures kept { IfOk result (λ accepted.
        IsAcceptedBy typed (map facts_in accepted.facts)) }
    ensures accepted { IfOk result (λ _.
        IsVerdict typed.table (shown.bodies typed.bodies) None) }
    ensures refused { IfErr result (IsRefused typed) }
{
    match kept_facts(alloc, &typed) {
        Err(error) => {
            drop(typed);
            Err(error)
        }
        Ok(facts) => Ok(Accepted { typed, facts }),
    }
}
