// Rounds of passes, until one raises no head.
ghost use Rattle.std.specs.Prelude.{◌≡◌, ℕ, IfOk, length};
ghost use Rattle.par_typed.specs.Shown.{does};
ghost use Rattle.par_program_laws.specs.Body.{sta};
ghost use Rattle.par_program_laws.specs.Declares.{declares};
ghost use Rattle.par_pass_laws.specs.par_except.Seen.{seen};
ghost use Rattle.par_pass_laws.specs.Pass.{pass};
ghost use Rattle.par_pass_laws.specs.Written.{AllFit};
ghost use Rattle.par_ways.specs.Seen.{ways_of, AreHeadsWide, AreRowsWide};
ghost use Rattle.par_rounds.specs.Took.{MayBeSmall};
ghost use Rattle.par_rounds.specs.Passes.{IsPassable};
ghost use Rattle.par_rounds.specs.Rounds.{AreAfter, IsRound, IsSettled};

use crate::notes::Notes;
use crate::stmt;
use par_base::memory::NoMemory;
use par_typed::stmt::TStmt;
use par_typed::table::Table;
use par_ways::fact::Fact;
use par_ways::way::SharedWay;
use std::alloc::Global;

// One pass from the start. Facts are kept of so many points.
fn round(
    alloc: Global,
    table: &Table,
    stmt: &TStmt,
    way: &SharedWay,
    heads: &[Option<SharedWay>],
    points: usize,
) -> Result<Notes, NoMemory>
    requires heads { AreHeadsWide (length way.now.env) heads.now }
    requires node { IsPassable (length way.now.env) (length heads.now)
        (sta (declares table.now) (does stmt.now)) }
    ensures { IfOk result (λ notes. IsRound (length way.now.env) points heads.now
        (pass (ways_of heads.now) (sta (declares table.now) (does stmt.now)) (seen way.now)).events
        notes) }
{
    let mut notes = Notes::new(alloc, way.env().len(), heads, points)?;
    let found = stmt::sta(alloc, table, stmt, way, heads, &mut notes)?;
    drop(found);
    Ok(notes)
}

fn no_heads(alloc: Global, points: usize) -> Result<Vec<Option<SharedWay>>, NoMemory>
    ensures way { IfOk result (λ heads. (i : ℕ) → ways_of heads.items i ≡ None) }
    ensures locals { IfOk result (λ heads. (n : ℕ) → AreHeadsWide n heads.items) }
    ensures size { IfOk result (λ heads. length heads.items ≡ points) }
{
    let mut heads = Vec::with_capacity(alloc, points)?;
    for _ in 0..points {
        heads.push(None)?;
    }
    Ok(heads)
}

// The heads after so many rounds that one more would raise none, from those after some rounds.
fn quiet(
    alloc: Global,
    table: &Table,
    stmt: &TStmt,
    way: &SharedWay,
    points: usize,
    first: Vec<Option<SharedWay>>,
) -> Result<Vec<Option<SharedWay>>, NoMemory>
    requires node { IsPassable (length way.now.env) points
        (sta (declares table.now) (does stmt.now)) }
    requires small { MayBeSmall (Some (seen way.now)) }
    requires after { AreAfter (length way.now.env) points
        (sta (declares table.now) (does stmt.now)) (seen way.now) first.items }
    ensures after { IfOk result (λ heads. AreAfter (length way.now.env) points
        (sta (declares table.now) (does stmt.now)) (seen way.now) heads.items) }
    ensures fits { IfOk result (λ heads. AllFit (ways_of heads.items)
        (pass (ways_of heads.items) (sta (declares table.now) (does stmt.now))
        (seen way.now)).events) }
{
    let mut heads = first;
    loop {
        let notes = round(alloc, table, stmt, way, &heads, 0)?;
        if !notes.rose {
            return Ok(heads);
        }
        heads = notes.heads;
    }
}

/// The facts of a node that the way enters, by points. The first round keeps facts, since it is the
/// only one where there are no loops.
pub fn settle(
    alloc: Global,
    table: &Table,
    stmt: &TStmt,
    way: &SharedWay,
    points: usize,
) -> Result<Vec<Fact>, NoMemory>
    requires node { IsPassable (length way.now.env) points
        (sta (declares table.now) (does stmt.now)) }
    requires small { MayBeSmall (Some (seen way.now)) }
    ensures rows { IfOk result
        (λ rows. IsSettled (sta (declares table.now) (does stmt.now)) (seen way.now) points
        rows.items) }
    ensures locals { IfOk result (λ rows. AreRowsWide (length way.now.env) rows.items) }
{
    let unreached = no_heads(alloc, points)?;
    let first = round(alloc, table, stmt, way, &unreached, points)?;
    if !first.rose {
        return Ok(first.rows);
    }
    drop(first.rows);
    let heads = quiet(alloc, table, stmt, way, points, first.heads)?;
    let last = round(alloc, table, stmt, way, &heads, points)?;
    Ok(last.rows)
}
