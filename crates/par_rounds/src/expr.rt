// One pass over an expression.
ghost use Rattle.std.specs.Prelude.{◌≡◌, ℕ, [], OnOk, IfOk, IfSome, Some, length};
ghost use Rattle.par_bits.specs.Sets.{has};
ghost use Rattle.par_typed.specs.Shown.{all_shown, receiver, shown};
ghost use Rattle.par_program_laws.specs.Body as body;
ghost use Rattle.par_program_laws.specs.Declares.{declares};
ghost use Rattle.par_program_laws.specs.Kinds.{absorbed, Next};
ghost use Rattle.par_program_laws.specs.Lattice.{numbers};
ghost use Rattle.par_program_laws.specs.Ranges.{IsFromInRange, IsWorthInRange};
ghost use Rattle.par_program_laws.specs.Rules.{node, Entry, Done, Worths, goes_on, spot};
ghost use Rattle.par_program_laws.specs.Rules.{Rules as Listed, way as way_from};
ghost use Rattle.par_nodes.specs.Seen.{seen_origin, seen_start, seen_worth};
ghost use Rattle.par_nodes.specs.Starts.{behind};
ghost use Rattle.par_pass_laws.specs.par_except.Seen.{may_see, seen, HasLocals, MayHaveLocals};
ghost use Rattle.par_pass_laws.specs.Exits.{Way};
ghost use Rattle.par_pass_laws.specs.Pass.{HeadWays, pass, visited};
ghost use Rattle.par_ways.specs.Seen.{latest_first, ways_of, AreHeadsWide};
ghost use Rattle.par_rounds.specs.Passes.{left_as, within, GoesOn, IsLed, Passed, TookPart};
ghost use Rattle.par_rounds.specs.Passes.{IsPassable, ArePassable, IsReady, IsSoFar};

use crate::notes::Notes;
use crate::pass::{Found, SoFar, finish, pass_draft, pass_rest, pass_rules, take};
use par_atoms::Atoms;
use par_base::memory::NoMemory;
use par_nodes::make::{ENTRY, PAST};
use par_nodes::rule::{Absorber, Kind, Origin, Rules, Start, Worth};
use par_nodes::{declared, expr as rules};
use par_typed::expr::{TExpr, TExprKind};
use par_typed::table::Table;
use par_ways::changes::{way_at, worth_at};
use par_ways::exits;
use par_ways::way::SharedWay;
use std::alloc::Global;

// The value of a node that has none.
fn nothing() -> Atoms
    ensures { (h : HeadWays) (p : ℕ) (w : Way)
        → pass h (node p (goes_on Entry Done)) w ≡ left_as p (has result) w }
{
    Atoms::empty()
}

// The value of a node without parts.
fn alone(way: &SharedWay, worth: Worth) -> Atoms
    requires { IsWorthInRange (length way.now.env) (seen_worth worth) }
    ensures { (h : HeadWays) (p : ℕ)
        → pass h (node p (goes_on Entry (Worths (seen_worth worth) Done))) (seen way.now)
        ≡ left_as p (has result) (seen way.now) }
{
    worth_at(way, &[], worth)
}

// The value of an expression that has no parts. It is left as it is entered.
fn simple_value(table: &Table, e: &TExpr, way: &SharedWay) -> Option<Atoms>
    requires { (points : ℕ) × IsPassable (length way.now.env) points
        (body.exp (declares table.now) (shown e.now)) }
    ensures { IfSome result (λ value. (h : HeadWays)
        → pass h (body.exp (declares table.now) (shown e.now)) (seen way.now)
        ≡ left_as e.now.point (has value) (seen way.now)) }
{
    match &e.kind {
        TExprKind::Int(_) => Some(nothing()),
        TExprKind::Bool(_) => Some(nothing()),
        TExprKind::Null | TExprKind::This => Some(nothing()),
        TExprKind::New(class) => Some(alone(way, Worth::Given(declared::birth(table, *class)))),
        TExprKind::Local(local) => Some(alone(way, Worth::Held(*local))),
        TExprKind::Static(class, field) => {
            Some(alone(way, Worth::Given(declared::field(table, *class, *field))))
        }
        TExprKind::Input(class, channel) => {
            Some(alone(
                way,
                Worth::Given(declared::channel(table, *class, *channel)),
            ))
        }
        TExprKind::Field(_, _, _)
        | TExprKind::Output(_, _, _)
        | TExprKind::Call(_, _, _, _)
        | TExprKind::Neg(_)
        | TExprKind::Not(_)
        | TExprKind::Binary(_, _, _) => None,
    }
}

// A node with that value, which is left as it is entered.
fn leaf(
    alloc: Global,
    point: u32,
    value: Atoms,
    way: &SharedWay,
    notes: &mut Notes,
) -> Result<Found, NoMemory>
    requires { HasLocals notes.old.locals way.now }
    ensures { IfOk result
        (λ r. Passed r (left_as point (has value) (seen way.now)) notes.old notes.new) }
{
    let exits = exits::only(alloc, way)?;
    notes.row(alloc, point, way, value, &exits)?;
    Ok(Found { value, exits })
}

/// Goes through an expression that the way enters.
#[cycle(exp)]
pub fn exp(
    alloc: Global,
    table: &Table,
    e: &TExpr,
    way: &SharedWay,
    heads: &[Option<SharedWay>],
    notes: &mut Notes,
) -> Result<Found, NoMemory>
    requires ready { IsReady way.now heads.now notes.old }
    requires node { IsPassable notes.old.locals (length notes.old.heads.items)
        (body.exp (declares table.now) (shown e.now)) }
    ensures { IfOk result (λ r. Passed r (pass (ways_of heads.now)
        (body.exp (declares table.now) (shown e.now)) (seen way.now)) notes.old notes.new) }
{
    match simple_value(table, e, way) {
        Some(value) => leaf(alloc, e.point, value, way, notes),
        None => compound(alloc, table, e, way, heads, notes),
    }
}

// An expression with parts.
#[cycle(exp)]
#[inline(never)]
fn compound(
    alloc: Global,
    table: &Table,
    e: &TExpr,
    way: &SharedWay,
    heads: &[Option<SharedWay>],
    notes: &mut Notes,
) -> Result<Found, NoMemory>
    requires ready { IsReady way.now heads.now notes.old }
    requires node { IsPassable notes.old.locals (length notes.old.heads.items)
        (body.exp (declares table.now) (shown e.now)) }
    ensures { IfOk result (λ r. Passed r (pass (ways_of heads.now)
        (body.exp (declares table.now) (shown e.now)) (seen way.now)) notes.old notes.new) }
{
    let mut so = SoFar::new(alloc);
    parts(alloc, table, e, way, heads, &mut so, notes)?;
    let found = finish(alloc, e.point, way, so.found, notes)?;
    Ok(found)
}

// The parts of an expression, and what it makes of them.
#[cycle(exp)]
fn parts(
    alloc: Global,
    table: &Table,
    e: &TExpr,
    way: &SharedWay,
    heads: &[Option<SharedWay>],
    so: &mut SoFar,
    notes: &mut Notes,
) -> Result<(), NoMemory>
    requires ready { IsReady way.now heads.now notes.old }
    requires so_far { IsSoFar notes.old so.old }
    requires rules { ArePassable notes.old.locals (length notes.old.heads.items)
        (within (body.exp (declares table.now) (shown e.now))) }
    ensures { OnOk result (GoesOn (ways_of heads.now)
        (within (body.exp (declares table.now) (shown e.now))) (seen way.now)
        so.old notes.old so.new.found notes.new) }
{
    match &e.kind {
        TExprKind::Neg(of) | TExprKind::Not(of) => {
            operand(alloc, table, of, &ENTRY, way, heads, so, notes)?;
            let rest = Rules::Gives(PAST, Worth::Value(0));
            pass_rest(alloc, rest, way, heads, so, notes)?;
            Ok(())
        }
        TExprKind::Field(of, class, field) => {
            operand(alloc, table, of, &ENTRY, way, heads, so, notes)?;
            let rest = rules::selected(alloc, of, declared::field(table, *class, *field))?;
            pass_draft(alloc, rest, way, heads, so, notes)?;
            Ok(())
        }
        TExprKind::Output(_, _, value) => {
            operand(alloc, table, value, &ENTRY, way, heads, so, notes)?;
            let rest = Rules::Ends(PAST, Kind::Normal);
            pass_rest(alloc, rest, way, heads, so, notes)?;
            Ok(())
        }
        TExprKind::Binary(_, _, _) => binary(alloc, table, e, way, heads, so, notes),
        TExprKind::Call(_, _, _, _) => call(alloc, table, e, way, heads, so, notes),
        _ => by_rules(alloc, table, e, way, heads, so, notes),
    }
}

// Two operands, and what the operator makes of them.
#[cycle(exp)]
#[inline(never)]
fn binary(
    alloc: Global,
    table: &Table,
    e: &TExpr,
    way: &SharedWay,
    heads: &[Option<SharedWay>],
    so: &mut SoFar,
    notes: &mut Notes,
) -> Result<(), NoMemory>
    requires ready { IsReady way.now heads.now notes.old }
    requires so_far { IsSoFar notes.old so.old }
    requires rules { ArePassable notes.old.locals (length notes.old.heads.items)
        (within (body.exp (declares table.now) (shown e.now))) }
    ensures { OnOk result (GoesOn (ways_of heads.now)
        (within (body.exp (declares table.now) (shown e.now))) (seen way.now)
        so.old notes.old so.new.found notes.new) }
{
    match &e.kind {
        TExprKind::Binary(op, left, right) => {
            operand(alloc, table, left, &ENTRY, way, heads, so, notes)?;
            operand(
                alloc,
                table,
                right,
                &rules::second(*op),
                way,
                heads,
                so,
                notes,
            )?;
            let rest = rules::combined(alloc, *op, right)?;
            pass_draft(alloc, rest, way, heads, so, notes)?;
            Ok(())
        }
        _ => by_rules(alloc, table, e, way, heads, so, notes),
    }
}

// A call: its receiver, its arguments, and what it does.
#[cycle(exp)]
#[inline(never)]
fn call(
    alloc: Global,
    table: &Table,
    e: &TExpr,
    way: &SharedWay,
    heads: &[Option<SharedWay>],
    so: &mut SoFar,
    notes: &mut Notes,
) -> Result<(), NoMemory>
    requires ready { IsReady way.now heads.now notes.old }
    requires so_far { IsSoFar notes.old so.old }
    requires rules { ArePassable notes.old.locals (length notes.old.heads.items)
        (within (body.exp (declares table.now) (shown e.now))) }
    ensures { OnOk result (GoesOn (ways_of heads.now)
        (within (body.exp (declares table.now) (shown e.now))) (seen way.now)
        so.old notes.old so.new.found notes.new) }
{
    match &e.kind {
        TExprKind::Call(class, method, of, arguments) => {
            receiver(alloc, table, of, way, heads, so, notes)?;
            let arguments = arguments.as_slice();
            args(
                alloc,
                table,
                rules::call_start(of),
                arguments,
                way,
                heads,
                so,
                notes,
            )?;
            let rest = rules::call_does(alloc, table, *class, *method, of, arguments)?;
            pass_draft(alloc, rest, way, heads, so, notes)?;
            Ok(())
        }
        _ => by_rules(alloc, table, e, way, heads, so, notes),
    }
}

// Goes by the rules of the expression, whatever it is.
fn by_rules(
    alloc: Global,
    table: &Table,
    e: &TExpr,
    way: &SharedWay,
    heads: &[Option<SharedWay>],
    so: &mut SoFar,
    notes: &mut Notes,
) -> Result<(), NoMemory>
    requires ready { IsReady way.now heads.now notes.old }
    requires so_far { IsSoFar notes.old so.old }
    requires rules { ArePassable notes.old.locals (length notes.old.heads.items)
        (within (body.exp (declares table.now) (shown e.now))) }
    ensures { OnOk result (GoesOn (ways_of heads.now)
        (within (body.exp (declares table.now) (shown e.now))) (seen way.now)
        so.old notes.old so.new.found notes.new) }
{
    let known = rules::exp(alloc, table, e)?;
    pass_rules(alloc, &known.node.rules, way, heads, so, notes)?;
    Ok(())
}

// The receiver of a call, if it has one.
#[cycle(exp)]
fn receiver(
    alloc: Global,
    table: &Table,
    of: &Option<Box<TExpr>>,
    way: &SharedWay,
    heads: &[Option<SharedWay>],
    so: &mut SoFar,
    notes: &mut Notes,
) -> Result<(), NoMemory>
    requires ready { IsReady way.now heads.now notes.old }
    requires so_far { IsSoFar notes.old so.old }
    requires rules { (more : Listed) × ArePassable notes.old.locals (length notes.old.heads.items)
        (behind (declares table.now) (receiver of.now) more) }
    ensures { OnOk result (IsLed (ways_of heads.now) way.now heads.now
        (behind (declares table.now) (receiver of.now)) so.old so.new notes.old notes.new) }
{
    match of {
        None => Ok(()),
        Some(of) => {
            operand(alloc, table, of, &ENTRY, way, heads, so, notes)?;
            Ok(())
        }
    }
}

// The arguments of a call, of which the first is entered from there.
#[cycle(exp)]
fn args(
    alloc: Global,
    table: &Table,
    from: Start,
    arguments: &[TExpr],
    way: &SharedWay,
    heads: &[Option<SharedWay>],
    so: &mut SoFar,
    notes: &mut Notes,
) -> Result<(), NoMemory>
    requires ready { IsReady way.now heads.now notes.old }
    requires so_far { IsSoFar notes.old so.old }
    requires start { IsFromInRange notes.old.locals (seen_start from) }
    requires rules { (more : Listed) × ArePassable notes.old.locals (length notes.old.heads.items)
        (body.args (declares table.now) (seen_start from) (all_shown arguments.now) more) }
    ensures { OnOk result (IsLed (ways_of heads.now) way.now heads.now
        (body.args (declares table.now) (seen_start from) (all_shown arguments.now))
        so.old so.new notes.old notes.new) }
{
    for (place, argument) in arguments.iter().enumerate() {
        let from = Origin {
            start: rules::start_at(place, from),
            ..ENTRY
        };
        operand(alloc, table, argument, &from, way, heads, so, notes)?;
    }
    Ok(())
}

/// Goes through a part that is an expression and is entered from there.
#[cycle(exp)]
#[inline(never)]
pub fn operand(
    alloc: Global,
    table: &Table,
    e: &TExpr,
    from: &Origin,
    way: &SharedWay,
    heads: &[Option<SharedWay>],
    so: &mut SoFar,
    notes: &mut Notes,
) -> Result<(), NoMemory>
    requires ready { IsReady way.now heads.now notes.old }
    requires so_far { IsSoFar notes.old so.old }
    requires range { IsFromInRange notes.old.locals (seen_origin from.now) }
    requires node { IsPassable notes.old.locals (length notes.old.heads.items)
        (body.exp (declares table.now) (shown e.now)) }
    ensures head { OnOk result (so.new.head ≡ so.old.head) }
    ensures took { OnOk result (let o = way_from numbers (Some (seen way.now))
        (latest_first so.old.parts.items []) (seen_origin from.now) in
        let n = body.exp (declares table.now) (shown e.now) in
        TookPart (absorbed Next) o (visited o (spot n) (pass (ways_of heads.now) n))
        so.old so.new notes.old notes.new) }
{
    let entry = way_at(alloc, way, &so.parts, from)?;
    let found = visit(alloc, table, e, &entry, heads, notes)?;
    take(alloc, so, entry, found, &Absorber::Next)?;
    Ok(())
}

/// The same where it may not be reached.
#[cycle(exp)]
pub fn visit(
    alloc: Global,
    table: &Table,
    e: &TExpr,
    entry: &Option<SharedWay>,
    heads: &[Option<SharedWay>],
    notes: &mut Notes,
) -> Result<Found, NoMemory>
    requires entry { MayHaveLocals notes.old.locals entry.now }
    requires heads { AreHeadsWide notes.old.locals heads.now
        × AreHeadsWide notes.old.locals notes.old.heads.items }
    requires node { IsPassable notes.old.locals (length notes.old.heads.items)
        (body.exp (declares table.now) (shown e.now)) }
    ensures { IfOk result (λ r. let n = body.exp (declares table.now) (shown e.now) in
        Passed r (visited (may_see entry.now) (spot n) (pass (ways_of heads.now) n))
        notes.old notes.new) }
{
    match entry {
        None => {
            notes.blank(alloc, e.point);
            Ok(Found::nothing(alloc))
        }
        Some(way) => {
            let found = exp(alloc, table, e, way, heads, notes)?;
            Ok(found)
        }
    }
}
