// The facts of a body.
ghost use Rattle.std.specs.Prelude.{◌≡◌, ◌<◌, ◌||◌, ℕ, false, nat_eq, Some, IfOk, OnOk};
ghost use Rattle.std.specs.Prelude.{length, slice_get, slice_index_or};
ghost use Rattle.par_policy.specs.Numbers.{has as is_among};
ghost use Rattle.std.specs.List.{AllByRecursion};
ghost use Rattle.std.specs.Option.{option_copied};
ghost use Rattle.par_typed.specs.Plain.{Body};
ghost use Rattle.par_typed.specs.Shown as shown;
ghost use Rattle.par_envs.specs.Numbered.{AreFound, Extends, envs};
ghost use Rattle.par_locks.specs.par_except.Seen.{may_see, MayHaveLocals};
ghost use Rattle.par_rounds.specs.par_ways.Seen.{seen_fact, seen_facts, AreRowsWide, IsRowWide};
ghost use Rattle.par_program_laws.specs.Orderly.{IsOrderlyBody};
ghost use Rattle.par_flow.specs.Standing.{stands};
ghost use Rattle.par_locks.specs.Open.{open_at, AreOpenOf};
ghost use Rattle.par_flow.specs.Kept.{AddsOnly, AreLong};
ghost use Rattle.par_flow.specs.Table.{entry_at, envs_in, exits_at, facts_in, flags, row_at};
ghost use Rattle.par_flow.specs.Table.{stood, value_at};
ghost use Rattle.par_flow.specs.Table.{AllShow, IsNamedAt, IsNamedIn, IsTableOf, ShowsFact};

use crate::keep::{keep_exits, may_keep};
use crate::kept::{KeptWay, KeptWays, exit_of};
use crate::known::{Known, KnownFacts};
use crate::same::are_same;
use crate::statements::list_points;
use par_atoms::Atoms;
use par_base::memory::NoMemory;
use par_envs::Envs;
use par_locks::LockFacts;
use par_nodes::rule::Kind;
use par_rounds::{Fact, SharedWay, body_at, rows_of};
use par_typed::program::{TBody, Typed};
use par_typed::table::Table;
use std::alloc::Global;
use std::rc::Rc;

/// The way that enters a node, if it is reached, its value if it is an expression, and how it is
/// left, which one row after the other shares as long as it stays the same.
#[derive(Drop)]
struct Row {
    entry: Option<KeptWay>,
    value: Atoms,
    is_statement: bool,
    exits: Rc<KeptWays>,
}

/// The least facts of a body, by the points of its nodes.
#[derive(Drop)]
pub struct FactTable {
    numbered: Envs,
    rows: Vec<Row>,
}

impl FactTable {
    /// The way that enters the node, if it is reached.
    pub fn entry(&self, point: u32) -> Option<&KeptWay>
        ensures { option_copied result ≡ entry_at self.now point }
    {
        match self.rows.get(point as usize) {
            None => None,
            Some(row) => match &row.entry {
                None => None,
                Some(way) => Some(way),
            },
        }
    }

    /// The value of the node, if it is an expression and is reached.
    pub fn value(&self, point: u32) -> Option<&Atoms>
        ensures { option_copied result ≡ value_at self.now point }
    {
        match self.rows.get(point as usize) {
            None => None,
            Some(row) => {
                if row.entry.is_some() && !row.is_statement {
                    Some(&row.value)
                } else {
                    None
                }
            }
        }
    }

    /// How the node is left, if it is reached.
    pub fn exits(&self, point: u32) -> Option<&KeptWays>
        ensures { option_copied result ≡ exits_at self.now point }
    {
        match self.rows.get(point as usize) {
            None => None,
            Some(row) => {
                if row.entry.is_some() {
                    Some(&row.exits)
                } else {
                    None
                }
            }
        }
    }

    /// The policies of the locals in the environment of a number, if the number names one.
    pub fn env(&self, number: u32) -> Option<&[Atoms]>
        ensures { option_copied result ≡ slice_get (envs_in self.now) number }
    {
        self.numbered.get(number)
    }
}

// The exits, which are those of the row before where they are the same.
fn shared(alloc: Global, exits: KeptWays, before: Option<&Row>) -> Result<Rc<KeptWays>, NoMemory>
    ensures { IfOk result (λ kept. kept.value ≡ exits) }
{
    if let Some(row) = before {
        if are_same(&row.exits, &exits) {
            let kept = row.exits.clone()?;
            return Ok(kept);
        }
    }
    let kept = Rc::new(alloc, exits)?;
    Ok(kept)
}

// What is kept of the fact of a point.
fn keep_row(
    alloc: Global,
    numbered: &mut Envs,
    fact: &Fact,
    is_statement: bool,
    before: Option<&Row>,
) -> Result<Row, NoMemory>
    requires { AreFound numbered.old.entries.items }
    ensures found { OnOk result (AreFound numbered.new.entries.items) }
    ensures more { OnOk result
        (Extends (envs numbered.old.entries.items) (envs numbered.new.entries.items)) }
    ensures fact { IfOk result
        (λ row. ShowsFact (envs numbered.new.entries.items) row (seen_fact fact.now)) }
    ensures statement { IfOk result (λ row. row.is_statement ≡ is_statement) }
    ensures adds { IfOk result (λ row. AddsOnly (envs numbered.old.entries.items)
        (envs numbered.new.entries.items) (λ n. IsNamedIn n row)) }
    ensures long { OnOk result ((n : ℕ) → IsRowWide n fact.now
        → AreLong n (envs numbered.old.entries.items)
        → AreLong n (envs numbered.new.entries.items)) }
{
    let entry = may_keep(alloc, numbered, entry_of(fact))?;
    let left = keep_exits(alloc, numbered, &fact.exits)?;
    let exits = shared(alloc, left, before)?;
    Ok(Row {
        entry,
        value: fact.value,
        is_statement,
        exits,
    })
}

fn entry_of(fact: &Fact) -> Option<&SharedWay>
    ensures way { may_see (option_copied result) ≡ may_see fact.now.entry }
    ensures locals { (n : ℕ) → MayHaveLocals n fact.now.entry
        → MayHaveLocals n (option_copied result) }
{
    match &fact.entry {
        None => None,
        Some(way) => Some(way),
    }
}

// The table of these facts, and of which points are those of statements.
fn keep_rows(alloc: Global, facts: &[Fact], statements: &[bool]) -> Result<FactTable, NoMemory>
    requires { length statements.now ≡ length facts.now }
    ensures found { IfOk result (λ t. AreFound t.numbered.entries.items) }
    ensures facts { IfOk result (λ t. AllShow (envs_in t) t.rows.items (seen_facts facts.now)) }
    ensures statements { IfOk result (λ t. flags t.rows.items ≡ statements.now) }
    ensures used { IfOk result (λ t. (n : ℕ) → n < length (envs_in t)
        → (p : ℕ) × IsNamedAt n (row_at t p)) }
    ensures long { IfOk result (λ t. (n : ℕ) → AreRowsWide n facts.now → AreLong n (envs_in t)) }
{
    let mut numbered = Envs::new(alloc);
    let mut rows: Vec<Row> = Vec::with_capacity(alloc, facts.len())?;
    for (place, fact) in facts.iter().enumerate() {
        let row = keep_row(alloc, &mut numbered, fact, statements[place], rows.last())?;
        rows.push(row)?;
    }
    Ok(FactTable { numbered, rows })
}

// Notes a point, if it has a place.
fn mark(flags: &mut [bool], point: u32)
    ensures size { length flags.new ≡ length flags.old }
    ensures flags { (p : ℕ) → p < length flags.old → slice_index_or flags.new p false
        ≡ (slice_index_or flags.old p false || nat_eq point p) }
{
    let place = point as usize;
    if place < flags.len() {
        flags[place] = true;
    }
}

// For each point, whether it is listed.
fn flags_of(alloc: Global, points: usize, listed: &[u32]) -> Result<Vec<bool>, NoMemory>
    ensures size { IfOk result (λ fs. length fs.items ≡ points) }
    ensures flags { IfOk result (λ fs. (p : ℕ) → p < points
        → slice_index_or fs.items p false ≡ is_among listed.now p) }
{
    let mut flags = vec![in alloc; false; points]?;
    for point in listed {
        mark(flags.as_mut_slice(), *point);
    }
    Ok(flags)
}

/// The least facts of a body of the table, kept by points.
pub fn table_of(alloc: Global, table: &Table, body: &TBody) -> Result<FactTable, NoMemory>
    requires { IsOrderlyBody table.now (shown.body body.now) }
    ensures { IfOk result (λ t. IsTableOf table.now (shown.body body.now) t) }
{
    let facts = rows_of(alloc, table, body)?;
    let mut listed = Vec::new(alloc);
    list_points(&body.body, &mut listed)?;
    let statements = flags_of(alloc, facts.len(), &listed)?;
    let table = keep_rows(alloc, &facts, &statements)?;
    Ok(table)
}

/// The least facts of a body of a number, whose open locks these are.
pub fn facts_of(
    alloc: Global,
    typed: &Typed,
    body: u16,
    locks: &LockFacts,
) -> Result<FactTable, NoMemory>
    requires body { body < length typed.now.bodies }
    requires orderly { AllByRecursion (IsOrderlyBody typed.now.table)
        (shown.bodies typed.now.bodies) }
    requires locks { (b : Body) → slice_get (shown.bodies typed.now.bodies) body ≡ Some b
        → AreOpenOf typed.now.table b (open_at locks.now) }
    ensures { IfOk result (λ t. (b : Body) → slice_get (shown.bodies typed.now.bodies) body ≡ Some b
        → IsTableOf typed.now.table b t) }
{
    let _locks = locks;
    let body = body_at(typed, body);
    let table = table_of(alloc, &typed.table, body)?;
    Ok(table)
}

// What is asked of a way, if there is one.
fn known(way: Option<KeptWay>) -> Option<Known>
    ensures { stands result ≡ stood way }
{
    match way {
        None => None,
        Some(way) => Some(Known {
            context: way.context,
            locks: way.locks,
        }),
    }
}

impl KnownFacts for FactTable {
    ghost facts = { facts_in };

    fn entry(&self, point: u32) -> Option<Known> {
        match self.rows.get(point as usize) {
            None => None,
            Some(row) => known(row.entry),
        }
    }

    fn exit(&self, point: u32, kind: Kind) -> Option<Known> {
        match self.rows.get(point as usize) {
            None => None,
            Some(row) => known(exit_of(&row.exits, kind)),
        }
    }

    fn value(&self, point: u32) -> Atoms {
        match self.rows.get(point as usize) {
            None => Atoms::empty(),
            Some(row) => row.value,
        }
    }
}
