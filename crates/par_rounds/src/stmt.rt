// One pass over a statement.
ghost use Rattle.std.specs.Prelude.{◌≡◌, [], OnOk, IfOk, Some, length};
ghost use Rattle.par_nodes.specs.Starts.{else_rules, goes_first};
ghost use Rattle.par_typed.specs.Shown.{all_do, does, otherwise, shown};
ghost use Rattle.par_program_laws.specs.Body as body;
ghost use Rattle.par_program_laws.specs.Declares.{declares};
ghost use Rattle.par_program_laws.specs.Kinds.{absorbed, normal, Next};
ghost use Rattle.par_program_laws.specs.Lattice.{numbers};
ghost use Rattle.par_program_laws.specs.Ranges.{IsFromInRange};
ghost use Rattle.par_program_laws.specs.Rules.{Entry, Done, Part, goes_on, spot};
ghost use Rattle.par_program_laws.specs.Rules.{way as way_from};
ghost use Rattle.par_program_laws.specs.Rules.{Rules as Listed};
ghost use Rattle.par_nodes.specs.Seen.{seen_absorber, seen_origin, assigned as written};
ghost use Rattle.par_pass_laws.specs.par_except.Seen.{may_see, seen, MayHaveLocals};
ghost use Rattle.par_pass_laws.specs.Pass.{HeadWays, pass, visited};
ghost use Rattle.par_ways.specs.Seen.{latest_first, ways_of, AreFactsWide, AreHeadsWide, AreWide};
ghost use Rattle.par_rounds.specs.declared.notes.Notes.{Notes as Noted};
ghost use Rattle.par_rounds.specs.declared.pass.Found.{Found as Taken};
ghost use Rattle.par_rounds.specs.Passes.{within, GoesOn, Passed, TookPart};
ghost use Rattle.par_rounds.specs.Passes.{IsPassable, ArePassable, IsReady, IsSoFar};

use crate::expr::{operand, visit as visit_test};
use crate::notes::Notes;
use crate::pass::{
    Found, SoFar, finish, flow, head_at, leave, pass_draft, pass_rest, pass_rules, take,
};
use par_base::memory::NoMemory;
use par_nodes::expr::start_at;
use par_nodes::make::{ENTRY, PAST, TESTED};
use par_nodes::rule::{Absorber, Kind, Origin, Rules, Start};
use par_nodes::stmt as rules;
use par_typed::expr::TExpr;
use par_typed::stmt::{TStmt, TStmtKind};
use par_typed::table::Table;
use par_ways::changes::way_at;
use par_ways::way::SharedWay;
use std::alloc::Global;

// An expression, whose value may go into a local, and nothing else.
fn ends(
    alloc: Global,
    table: &Table,
    value: &TExpr,
    assigned: Option<(u16, usize)>,
    way: &SharedWay,
    heads: &[Option<SharedWay>],
    so: &mut SoFar,
    notes: &mut Notes,
) -> Result<(), NoMemory>
    requires ready { IsReady way.now heads.now notes.old }
    requires so_far { IsSoFar notes.old so.old }
    requires rules { ArePassable notes.old.locals (length notes.old.heads.items)
        (Part Entry Next (body.exp (declares table.now) (shown value.now))
        (goes_on (written assigned body.past) Done)) }
    ensures { OnOk result (GoesOn (ways_of heads.now)
        (Part Entry Next (body.exp (declares table.now) (shown value.now))
        (goes_on (written assigned body.past) Done))
        (seen way.now) so.old notes.old so.new.found notes.new) }
{
    operand(alloc, table, value, &ENTRY, way, heads, so, notes)?;
    let from = Origin { assigned, ..PAST };
    let rest = Rules::Ends(from, Kind::Normal);
    pass_rest(alloc, rest, way, heads, so, notes)?;
    Ok(())
}

// Without `else` the way goes on.
fn goes_first(
    alloc: Global,
    way: &SharedWay,
    other: &Option<Box<TStmt>>,
    from: &Origin,
    so: &mut SoFar,
) -> Result<(), NoMemory>
    requires parts { AreFactsWide (length way.now.env) so.old.parts.items }
    requires exits { AreWide (length way.now.env) so.old.found.exits.items }
    requires range { IsFromInRange (length way.now.env) (seen_origin from.now) }
    ensures head { OnOk result (so.new.head ≡ so.old.head) }
    ensures parts { OnOk result (so.new.parts ≡ so.old.parts) }
    ensures locals { OnOk result (AreWide (length way.now.env) so.new.found.exits.items) }
    ensures goes { OnOk result ((h : HeadWays) (more : Listed) (m : Noted) (r : Taken) (o : Noted)
        → GoesOn h more (seen way.now) so.new m r o
        → GoesOn h (goes_first (otherwise other.now) (seen_origin from.now) more) (seen way.now)
        so.old m r o) }
{
    match other {
        None => {
            leave(alloc, way, from, Kind::Normal, so)?;
            Ok(())
        }
        Some(_) => Ok(()),
    }
}

// The way behind the test of a loop goes on, unless the loop has no end.
fn unless(alloc: Global, way: &SharedWay, forever: bool, so: &mut SoFar) -> Result<(), NoMemory>
    requires parts { AreFactsWide (length way.now.env) so.old.parts.items }
    requires exits { AreWide (length way.now.env) so.old.found.exits.items }
    ensures head { OnOk result (so.new.head ≡ so.old.head) }
    ensures parts { OnOk result (so.new.parts ≡ so.old.parts) }
    ensures locals { OnOk result (AreWide (length way.now.env) so.new.found.exits.items) }
    ensures goes { OnOk result ((h : HeadWays) (more : Listed) (m : Noted) (r : Taken) (o : Noted)
        → GoesOn h more (seen way.now) so.new m r o
        → GoesOn h (body.if_not forever (goes_on body.past) more) (seen way.now) so.old m r o) }
{
    if forever {
        return Ok(());
    }
    leave(alloc, way, &PAST, Kind::Normal, so)?;
    Ok(())
}

// The test of a loop, which is entered from the head of the loop.
fn loop_test(
    alloc: Global,
    table: &Table,
    test: &TExpr,
    heads: &[Option<SharedWay>],
    so: &mut SoFar,
    notes: &mut Notes,
) -> Result<(), NoMemory>
    requires heads { AreHeadsWide notes.old.locals heads.now
        × AreHeadsWide notes.old.locals notes.old.heads.items }
    requires so_far { IsSoFar notes.old so.old }
    requires node { IsPassable notes.old.locals (length notes.old.heads.items)
        (body.exp (declares table.now) (shown test.now)) }
    ensures head { OnOk result
        (so.new.head ≡ Some (spot (body.exp (declares table.now) (shown test.now)))) }
    ensures took { OnOk result (let n = body.exp (declares table.now) (shown test.now) in
        let o = ways_of heads.now (spot n) in
        TookPart normal o (visited o (spot n) (pass (ways_of heads.now) n))
        so.old so.new notes.old notes.new) }
{
    let entry = head_at(heads, test.point)?;
    let found = visit_test(alloc, table, test, &entry, heads, notes)?;
    take(alloc, so, entry, found, &Absorber::Next)?;
    so.head = Some(test.point);
    Ok(())
}

/// Goes through a statement that the way enters, with the heads of loops as they stand.
#[cycle(sta)]
#[inline(never)]
pub fn sta(
    alloc: Global,
    table: &Table,
    stmt: &TStmt,
    way: &SharedWay,
    heads: &[Option<SharedWay>],
    notes: &mut Notes,
) -> Result<Found, NoMemory>
    requires ready { IsReady way.now heads.now notes.old }
    requires node { IsPassable notes.old.locals (length notes.old.heads.items)
        (body.sta (declares table.now) (does stmt.now)) }
    ensures { IfOk result (λ r. Passed r (pass (ways_of heads.now)
        (body.sta (declares table.now) (does stmt.now)) (seen way.now)) notes.old notes.new) }
{
    let mut so = SoFar::new(alloc);
    parts(alloc, table, stmt, way, heads, &mut so, notes)?;
    let found = finish(alloc, stmt.point, way, so.found, notes)?;
    Ok(found)
}

// The parts of a statement, and what it makes of them.
#[cycle(sta)]
fn parts(
    alloc: Global,
    table: &Table,
    stmt: &TStmt,
    way: &SharedWay,
    heads: &[Option<SharedWay>],
    so: &mut SoFar,
    notes: &mut Notes,
) -> Result<(), NoMemory>
    requires ready { IsReady way.now heads.now notes.old }
    requires so_far { IsSoFar notes.old so.old }
    requires rules { ArePassable notes.old.locals (length notes.old.heads.items)
        (within (body.sta (declares table.now) (does stmt.now))) }
    ensures { OnOk result (GoesOn (ways_of heads.now)
        (within (body.sta (declares table.now) (does stmt.now))) (seen way.now)
        so.old notes.old so.new.found notes.new) }
{
    match &stmt.kind {
        TStmtKind::Block(stmts) => {
            block(alloc, table, stmts.as_slice(), way, heads, so, notes)?;
            Ok(())
        }
        TStmtKind::SetLocal(local, _, value) => {
            ends(
                alloc,
                table,
                value,
                Some((*local, 0)),
                way,
                heads,
                so,
                notes,
            )?;
            Ok(())
        }
        TStmtKind::SetStatic(_, _, value) => {
            ends(alloc, table, value, None, way, heads, so, notes)?;
            Ok(())
        }
        TStmtKind::Eval(value) => {
            ends(alloc, table, value, None, way, heads, so, notes)?;
            Ok(())
        }
        TStmtKind::If(_, _, _) => branch(alloc, table, stmt, way, heads, so, notes),
        TStmtKind::While(_, _) => repeat(alloc, table, stmt, way, heads, so, notes),
        _ => by_rules(alloc, table, stmt, way, heads, so, notes),
    }
}

// A test, and what stands behind each of its values.
#[cycle(sta)]
#[inline(never)]
fn branch(
    alloc: Global,
    table: &Table,
    stmt: &TStmt,
    way: &SharedWay,
    heads: &[Option<SharedWay>],
    so: &mut SoFar,
    notes: &mut Notes,
) -> Result<(), NoMemory>
    requires ready { IsReady way.now heads.now notes.old }
    requires so_far { IsSoFar notes.old so.old }
    requires rules { ArePassable notes.old.locals (length notes.old.heads.items)
        (within (body.sta (declares table.now) (does stmt.now))) }
    ensures { OnOk result (GoesOn (ways_of heads.now)
        (within (body.sta (declares table.now) (does stmt.now))) (seen way.now)
        so.old notes.old so.new.found notes.new) }
{
    match &stmt.kind {
        TStmtKind::If(test, block, other) => {
            operand(alloc, table, test, &ENTRY, way, heads, so, notes)?;
            goes_first(alloc, way, other, &PAST, so)?;
            step(
                alloc,
                table,
                block,
                &TESTED,
                &Absorber::Next,
                way,
                heads,
                so,
                notes,
            )?;
            leave(alloc, way, &PAST, Kind::Normal, so)?;
            otherwise(
                alloc,
                table,
                other,
                &rules::OTHERWISE,
                way,
                heads,
                so,
                notes,
            )?;
            Ok(())
        }
        _ => by_rules(alloc, table, stmt, way, heads, so, notes),
    }
}

// A loop: its test, its block, and the way back.
#[cycle(sta)]
#[inline(never)]
fn repeat(
    alloc: Global,
    table: &Table,
    stmt: &TStmt,
    way: &SharedWay,
    heads: &[Option<SharedWay>],
    so: &mut SoFar,
    notes: &mut Notes,
) -> Result<(), NoMemory>
    requires ready { IsReady way.now heads.now notes.old }
    requires so_far { IsSoFar notes.old so.old }
    requires rules { ArePassable notes.old.locals (length notes.old.heads.items)
        (within (body.sta (declares table.now) (does stmt.now))) }
    ensures { OnOk result (GoesOn (ways_of heads.now)
        (within (body.sta (declares table.now) (does stmt.now))) (seen way.now)
        so.old notes.old so.new.found notes.new) }
{
    match &stmt.kind {
        TStmtKind::While(test, block) => {
            loop_test(alloc, table, test, heads, so, notes)?;
            flow(alloc, way, &ENTRY, so, notes)?;
            unless(alloc, way, rules::is_forever(test), so)?;
            step(
                alloc,
                table,
                block,
                &TESTED,
                &Absorber::Loop,
                way,
                heads,
                so,
                notes,
            )?;
            let rest = rules::again(alloc)?;
            pass_draft(alloc, rest, way, heads, so, notes)?;
            Ok(())
        }
        _ => by_rules(alloc, table, stmt, way, heads, so, notes),
    }
}

// Goes by the rules of the statement, whatever it is.
fn by_rules(
    alloc: Global,
    table: &Table,
    stmt: &TStmt,
    way: &SharedWay,
    heads: &[Option<SharedWay>],
    so: &mut SoFar,
    notes: &mut Notes,
) -> Result<(), NoMemory>
    requires ready { IsReady way.now heads.now notes.old }
    requires so_far { IsSoFar notes.old so.old }
    requires rules { ArePassable notes.old.locals (length notes.old.heads.items)
        (within (body.sta (declares table.now) (does stmt.now))) }
    ensures { OnOk result (GoesOn (ways_of heads.now)
        (within (body.sta (declares table.now) (does stmt.now))) (seen way.now)
        so.old notes.old so.new.found notes.new) }
{
    let known = rules::sta(alloc, table, stmt)?;
    pass_rules(alloc, &known.node.rules, way, heads, so, notes)?;
    Ok(())
}

// What stands behind `else`.
#[cycle(sta)]
fn otherwise(
    alloc: Global,
    table: &Table,
    other: &Option<Box<TStmt>>,
    from: &Origin,
    way: &SharedWay,
    heads: &[Option<SharedWay>],
    so: &mut SoFar,
    notes: &mut Notes,
) -> Result<(), NoMemory>
    requires ready { IsReady way.now heads.now notes.old }
    requires so_far { IsSoFar notes.old so.old }
    requires rules { ArePassable notes.old.locals (length notes.old.heads.items)
        (else_rules (declares table.now) (otherwise other.now) (seen_origin from.now)) }
    ensures { OnOk result (GoesOn (ways_of heads.now)
        (else_rules (declares table.now) (otherwise other.now) (seen_origin from.now))
        (seen way.now) so.old notes.old so.new.found notes.new) }
{
    match other {
        None => Ok(()),
        Some(stmt) => {
            step(
                alloc,
                table,
                stmt,
                from,
                &Absorber::Next,
                way,
                heads,
                so,
                notes,
            )?;
            let rest = Rules::Ends(PAST, Kind::Normal);
            pass_rest(alloc, rest, way, heads, so, notes)?;
            Ok(())
        }
    }
}

// Statements one after the other.
#[cycle(sta)]
fn block(
    alloc: Global,
    table: &Table,
    stmts: &[TStmt],
    way: &SharedWay,
    heads: &[Option<SharedWay>],
    so: &mut SoFar,
    notes: &mut Notes,
) -> Result<(), NoMemory>
    requires ready { IsReady way.now heads.now notes.old }
    requires so_far { IsSoFar notes.old so.old }
    requires rules { ArePassable notes.old.locals (length notes.old.heads.items)
        (body.stas (declares table.now) Entry (all_do stmts.now)) }
    ensures { OnOk result (GoesOn (ways_of heads.now)
        (body.stas (declares table.now) Entry (all_do stmts.now)) (seen way.now)
        so.old notes.old so.new.found notes.new) }
{
    for (place, stmt) in stmts.iter().enumerate() {
        let from = Origin {
            start: start_at(place, Start::Entry),
            ..ENTRY
        };
        step(
            alloc,
            table,
            stmt,
            &from,
            &Absorber::Next,
            way,
            heads,
            so,
            notes,
        )?;
    }
    let last = Origin {
        start: start_at(stmts.len(), Start::Entry),
        ..ENTRY
    };
    let rest = Rules::Ends(last, Kind::Normal);
    pass_rest(alloc, rest, way, heads, so, notes)?;
    Ok(())
}

// Goes through a part that is a statement and is entered from there.
#[cycle(sta)]
#[inline(never)]
fn step(
    alloc: Global,
    table: &Table,
    stmt: &TStmt,
    from: &Origin,
    absorber: &Absorber,
    way: &SharedWay,
    heads: &[Option<SharedWay>],
    so: &mut SoFar,
    notes: &mut Notes,
) -> Result<(), NoMemory>
    requires ready { IsReady way.now heads.now notes.old }
    requires so_far { IsSoFar notes.old so.old }
    requires range { IsFromInRange notes.old.locals (seen_origin from.now) }
    requires node { IsPassable notes.old.locals (length notes.old.heads.items)
        (body.sta (declares table.now) (does stmt.now)) }
    ensures head { OnOk result (so.new.head ≡ so.old.head) }
    ensures took { OnOk result (let o = way_from numbers (Some (seen way.now))
        (latest_first so.old.parts.items []) (seen_origin from.now) in
        let n = body.sta (declares table.now) (does stmt.now) in
        TookPart (absorbed (seen_absorber absorber.now)) o
        (visited o (spot n) (pass (ways_of heads.now) n)) so.old so.new notes.old notes.new) }
{
    let entry = way_at(alloc, way, &so.parts, from)?;
    let found = visit(alloc, table, stmt, &entry, heads, notes)?;
    take(alloc, so, entry, found, absorber)?;
    Ok(())
}

// The same where it may not be reached.
#[cycle(sta)]
fn visit(
    alloc: Global,
    table: &Table,
    stmt: &TStmt,
    entry: &Option<SharedWay>,
    heads: &[Option<SharedWay>],
    notes: &mut Notes,
) -> Result<Found, NoMemory>
    requires entry { MayHaveLocals notes.old.locals entry.now }
    requires heads { AreHeadsWide notes.old.locals heads.now
        × AreHeadsWide notes.old.locals notes.old.heads.items }
    requires node { IsPassable notes.old.locals (length notes.old.heads.items)
        (body.sta (declares table.now) (does stmt.now)) }
    ensures { IfOk result (λ r. let n = body.sta (declares table.now) (does stmt.now) in
        Passed r (visited (may_see entry.now) (spot n) (pass (ways_of heads.now) n))
        notes.old notes.new) }
{
    match entry {
        None => {
            notes.blank(alloc, stmt.point);
            Ok(Found::nothing(alloc))
        }
        Some(way) => {
            let found = sta(alloc, table, stmt, way, heads, notes)?;
            Ok(found)
        }
    }
}
