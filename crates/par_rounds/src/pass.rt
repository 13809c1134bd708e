// One pass over a node.
ghost use Rattle.std.specs.Prelude.{◌≡◌, ℕ, [], ◌∷◌, ◌++◌, List, OnOk, IfOk, None, length};
ghost use Rattle.par_bits.specs.Sets.{has, none, union};
ghost use Rattle.par_program_laws.specs.Kinds.{absorbed, normal};
ghost use Rattle.par_program_laws.specs.Lattice.{numbers};
ghost use Rattle.par_program_laws.specs.Ranges.{IsFromInRange, IsWorthInRange};
ghost use Rattle.par_program_laws.specs.Rules.{spot, way as way_from};
ghost use Rattle.par_program_laws.specs.Rules.{worth as worth_of};
ghost use Rattle.par_nodes.specs.Seen.{seen_absorber, seen_kind, seen_node, seen_origin};
ghost use Rattle.par_nodes.specs.Seen.{seen_rules, seen_worth};
ghost use Rattle.par_pass_laws.specs.par_except.Seen.{may_see, seen, HasLocals, MayHaveLocals};
ghost use Rattle.par_pass_laws.specs.Exits.{all, leave as left, leaving};
ghost use Rattle.par_pass_laws.specs.Pass.{Event, ended, into, pass, pass_all, visited};
ghost use Rattle.par_ways.specs.Seen.{latest_first, seen_exits, ways_of};
ghost use Rattle.par_ways.specs.Seen.{AreWide, AreHeadsWide, AreFactsWide};
ghost use Rattle.par_rounds.specs.Took.{Took};
ghost use Rattle.par_rounds.specs.declared.notes.Notes.{Notes as Noted};
ghost use Rattle.par_rounds.specs.Passes.{found_of, Passed, TookPart, IsReady, IsSoFar};
ghost use Rattle.par_rounds.specs.Passes.{IsPassable, ArePassable};

use crate::notes::Notes;
use par_atoms::Atoms;
use par_base::memory::NoMemory;
use par_nodes::draft::Draft;
use par_nodes::rule::{Absorber, Kind, Node, Origin, Rules, Worth};
use par_ways::changes::{way_at, worth_at};
use par_ways::exits::{Exit, add, gather, restore};
use par_ways::fact::Fact;
use par_ways::way::SharedWay;
use par_ways::ways::may_share;
use std::alloc::Global;

/// The value of a node, and its exits.
#[derive(Drop)]
pub struct Found {
    pub value: Atoms,
    pub exits: Vec<Exit>,
}

impl Found {
    /// Nothing is found yet.
    pub fn nothing(alloc: Global) -> Found
        ensures value { has result.value ≡ none }
        ensures exits { result.exits.items ≡ [] }
    {
        Found {
            value: Atoms::empty(),
            exits: Vec::new(alloc),
        }
    }
}

/// What is found within a node: the point of the test, behind that of a loop, the parts before, and
/// what they make of the node.
#[derive(Drop)]
pub struct SoFar {
    pub head: Option<u32>,
    pub parts: Vec<Fact>,
    pub found: Found,
}

impl SoFar {
    /// Nothing has been passed.
    pub fn new(alloc: Global) -> SoFar
        ensures head { result.head ≡ None }
        ensures parts { result.parts.items ≡ [] }
        ensures value { has result.found.value ≡ none }
        ensures exits { result.found.exits.items ≡ [] }
    {
        SoFar {
            head: None,
            parts: Vec::new(alloc),
            found: Found::nothing(alloc),
        }
    }
}

/// A part that the way entered. Its exits are exits of the node, unless they are absorbed.
pub fn take(
    alloc: Global,
    so: &mut SoFar,
    entry: Option<SharedWay>,
    found: Found,
    absorber: &Absorber,
) -> Result<(), NoMemory>
    requires { (n : ℕ) × AreWide n so.old.found.exits.items × AreWide n found.exits.items }
    ensures head { OnOk result (so.new.head ≡ so.old.head) }
    ensures parts { OnOk result (so.new.parts.items ≡ so.old.parts.items
        ++ record { entry = entry; value = found.value; exits = found.exits } ∷ []) }
    ensures value { OnOk result (so.new.found.value ≡ so.old.found.value) }
    ensures exits { OnOk result (seen_exits so.new.found.exits.items
        ≡ all (leaving (absorbed (seen_absorber absorber.now)) (seen_exits found.exits.items))
        (seen_exits so.old.found.exits.items)) }
    ensures locals { OnOk result ((n : ℕ) → AreWide n so.old.found.exits.items
        → AreWide n found.exits.items → AreWide n so.new.found.exits.items) }
{
    gather(alloc, &mut so.found.exits, &found.exits, absorber)?;
    so.parts.push(Fact {
        entry,
        value: found.value,
        exits: found.exits,
    })?;
    Ok(())
}

/// The head way of a loop, by the point of its test.
#[inline(never)]
pub fn head_at(heads: &[Option<SharedWay>], point: u32) -> Result<Option<SharedWay>, NoMemory>
    ensures way { IfOk result (λ o. may_see o ≡ ways_of heads.now point) }
    ensures locals { IfOk result (λ o. (n : ℕ) → AreHeadsWide n heads.now → MayHaveLocals n o) }
{
    let place = point as usize;
    if place < heads.len() {
        let way = may_share(&heads[place])?;
        Ok(way)
    } else {
        Ok(None)
    }
}

/// The way flows into the head of the loop, if there is one.
pub fn flow(
    alloc: Global,
    way: &SharedWay,
    from: &Origin,
    so: &SoFar,
    notes: &mut Notes,
) -> Result<(), NoMemory>
    requires ready { HasLocals notes.old.locals way.now
        × AreHeadsWide notes.old.locals notes.old.heads.items }
    requires so_far { IsSoFar notes.old so.now }
    requires range { IsFromInRange notes.old.locals (seen_origin from.now) }
    ensures { OnOk result (Took (into so.now.head (way_from numbers (Some (seen way.now))
        (latest_first so.now.parts.items []) (seen_origin from.now))) notes.old notes.new) }
{
    match so.head {
        None => Ok(()),
        Some(test) => {
            let entry = way_at(alloc, way, &so.parts, from)?;
            notes.flow(alloc, test, &entry)
        }
    }
}

/// The way leaves the node.
#[inline(never)]
pub fn leave(
    alloc: Global,
    way: &SharedWay,
    from: &Origin,
    kind: Kind,
    so: &mut SoFar,
) -> Result<(), NoMemory>
    requires parts { AreFactsWide (length way.now.env) so.old.parts.items }
    requires exits { AreWide (length way.now.env) so.old.found.exits.items }
    requires range { IsFromInRange (length way.now.env) (seen_origin from.now) }
    ensures head { OnOk result (so.new.head ≡ so.old.head) }
    ensures parts { OnOk result (so.new.parts ≡ so.old.parts) }
    ensures value { OnOk result (so.new.found.value ≡ so.old.found.value) }
    ensures exits { OnOk result (seen_exits so.new.found.exits.items
        ≡ all (left (way_from numbers (Some (seen way.now)) (latest_first so.old.parts.items [])
        (seen_origin from.now)) (seen_kind kind)) (seen_exits so.old.found.exits.items)) }
    ensures locals { OnOk result (AreWide (length way.now.env) so.new.found.exits.items) }
{
    match way_at(alloc, way, &so.parts, from)? {
        None => Ok(()),
        Some(way) => add(alloc, &mut so.found.exits, Exit { kind, way }),
    }
}

// The value of the node is at least that.
fn add_worth(way: &SharedWay, worth: Worth, so: &mut SoFar)
    requires { IsWorthInRange (length way.now.env) (seen_worth worth) }
    ensures head { so.new.head ≡ so.old.head }
    ensures parts { so.new.parts ≡ so.old.parts }
    ensures value { has so.new.found.value ≡ union (has so.old.found.value)
        (worth_of numbers (Some (seen way.now)) (latest_first so.old.parts.items [])
        (seen_worth worth)) }
    ensures exits { so.new.found.exits ≡ so.old.found.exits }
{
    let added = worth_at(way, &so.parts, worth);
    so.found.value = so.found.value.union(&added);
}

/// The end of a node: its normal exit gets its context, and its fact is noted.
pub fn finish(
    alloc: Global,
    point: u32,
    way: &SharedWay,
    found: Found,
    notes: &mut Notes,
) -> Result<Found, NoMemory>
    requires way { HasLocals notes.old.locals way.now }
    requires exits { AreWide notes.old.locals found.exits.items }
    ensures { IfOk result (λ r. (l : List Event) (m : Noted) → Took l m notes.old
        → AreWide m.locals found.exits.items
        → Passed r (ended point (seen way.now) (found_of found l)) m notes.new) }
{
    let value = found.value;
    let mut exits = found.exits;
    restore(&mut exits, way);
    notes.row(alloc, point, way, value, &exits)?;
    Ok(Found { value, exits })
}

// Goes through a node that the way enters, with the heads of loops as they stand.
#[cycle(pass)]
fn pass(
    alloc: Global,
    node: &Node,
    way: &SharedWay,
    heads: &[Option<SharedWay>],
    notes: &mut Notes,
) -> Result<Found, NoMemory>
    requires ready { IsReady way.now heads.now notes.old }
    requires node { IsPassable notes.old.locals (length notes.old.heads.items)
        (seen_node node.now) }
    ensures { IfOk result (λ r. Passed r
        (pass (ways_of heads.now) (seen_node node.now) (seen way.now)) notes.old notes.new) }
{
    let mut so = SoFar::new(alloc);
    pass_rules(alloc, &node.rules, way, heads, &mut so, notes)?;
    let found = finish(alloc, node.point, way, so.found, notes)?;
    Ok(found)
}

// The same where a part may not be reached.
#[cycle(pass)]
fn visit(
    alloc: Global,
    node: &Node,
    entry: &Option<SharedWay>,
    heads: &[Option<SharedWay>],
    notes: &mut Notes,
) -> Result<Found, NoMemory>
    requires entry { MayHaveLocals notes.old.locals entry.now }
    requires heads { AreHeadsWide notes.old.locals heads.now
        × AreHeadsWide notes.old.locals notes.old.heads.items }
    requires node { IsPassable notes.old.locals (length notes.old.heads.items)
        (seen_node node.now) }
    ensures { IfOk result (λ r. Passed r (visited (may_see entry.now) (spot (seen_node node.now))
        (pass (ways_of heads.now) (seen_node node.now))) notes.old notes.new) }
{
    match entry {
        None => {
            notes.blank(alloc, node.point);
            Ok(Found::nothing(alloc))
        }
        Some(way) => {
            let found = pass(alloc, node, way, heads, notes)?;
            Ok(found)
        }
    }
}

// Goes through the next part, which is entered from there.
#[cycle(pass)]
#[inline(never)]
fn pass_part(
    alloc: Global,
    part: &Node,
    from: &Origin,
    absorber: &Absorber,
    way: &SharedWay,
    heads: &[Option<SharedWay>],
    so: &mut SoFar,
    notes: &mut Notes,
) -> Result<(), NoMemory>
    requires ready { IsReady way.now heads.now notes.old }
    requires so_far { IsSoFar notes.old so.old }
    requires range { IsFromInRange notes.old.locals (seen_origin from.now) }
    requires node { IsPassable notes.old.locals (length notes.old.heads.items)
        (seen_node part.now) }
    ensures head { OnOk result (so.new.head ≡ so.old.head) }
    ensures took { OnOk result (let o = way_from numbers (Some (seen way.now))
        (latest_first so.old.parts.items []) (seen_origin from.now) in
        TookPart (absorbed (seen_absorber absorber.now)) o (visited o (spot (seen_node part.now))
        (pass (ways_of heads.now) (seen_node part.now))) so.old so.new notes.old notes.new) }
{
    let entry = way_at(alloc, way, &so.parts, from)?;
    let found = visit(alloc, part, &entry, heads, notes)?;
    take(alloc, so, entry, found, absorber)?;
    Ok(())
}

// Goes through the test of a loop, which is entered from the head of the loop.
#[cycle(pass)]
#[inline(never)]
fn pass_test(
    alloc: Global,
    part: &Node,
    heads: &[Option<SharedWay>],
    so: &mut SoFar,
    notes: &mut Notes,
) -> Result<(), NoMemory>
    requires heads { AreHeadsWide notes.old.locals heads.now
        × AreHeadsWide notes.old.locals notes.old.heads.items }
    requires so_far { IsSoFar notes.old so.old }
    requires node { IsPassable notes.old.locals (length notes.old.heads.items)
        (seen_node part.now) }
    ensures head { OnOk result (so.new.head ≡ Some (spot (seen_node part.now))) }
    ensures took { OnOk result (let o = ways_of heads.now (spot (seen_node part.now)) in
        TookPart normal o (visited o (spot (seen_node part.now))
        (pass (ways_of heads.now) (seen_node part.now))) so.old so.new notes.old notes.new) }
{
    let entry = head_at(heads, part.point)?;
    let found = visit(alloc, part, &entry, heads, notes)?;
    take(alloc, so, entry, found, &Absorber::Next)?;
    so.head = Some(part.point);
    Ok(())
}

/// Goes through rules, one after the other.
#[cycle(pass)]
pub fn pass_rules(
    alloc: Global,
    rules: &Rules,
    way: &SharedWay,
    heads: &[Option<SharedWay>],
    so: &mut SoFar,
    notes: &mut Notes,
) -> Result<(), NoMemory>
    requires ready { IsReady way.now heads.now notes.old }
    requires so_far { IsSoFar notes.old so.old }
    requires rules { ArePassable notes.old.locals (length notes.old.heads.items)
        (seen_rules rules.now) }
    ensures { OnOk result ((l : List Event) (m : Noted) → Took l m notes.old
        → Passed so.new.found (pass_all (ways_of heads.now) (seen_rules rules.now) (seen way.now)
        so.old.head (latest_first so.old.parts.items []) (found_of so.old.found l))
        m notes.new) }
{
    match rules {
        Rules::Done => Ok(()),
        Rules::Part(from, absorber, part, more) => {
            pass_part(alloc, part, from, absorber, way, heads, so, notes)?;
            pass_rules(alloc, more, way, heads, so, notes)?;
            Ok(())
        }
        Rules::Test(part, more) => {
            pass_test(alloc, part, heads, so, notes)?;
            pass_rules(alloc, more, way, heads, so, notes)?;
            Ok(())
        }
        Rules::Heads(from, more) => {
            flow(alloc, way, from, so, notes)?;
            pass_rules(alloc, more, way, heads, so, notes)
        }
        Rules::Leaves(from, kind, more) => {
            leave(alloc, way, from, *kind, so)?;
            pass_rules(alloc, more, way, heads, so, notes)
        }
        Rules::Worths(worth, more) => {
            add_worth(way, *worth, so);
            pass_rules(alloc, more, way, heads, so, notes)
        }
        Rules::Ends(from, kind) => {
            leave(alloc, way, from, *kind, so)?;
            Ok(())
        }
        Rules::Gives(from, worth) => {
            leave(alloc, way, from, Kind::Normal, so)?;
            add_worth(way, *worth, so);
            Ok(())
        }
        Rules::Joins(from, one, other) => {
            leave(alloc, way, from, Kind::Normal, so)?;
            add_worth(way, *one, so);
            add_worth(way, *other, so);
            Ok(())
        }
    }
}

/// Goes through rules that nothing holds behind this.
pub fn pass_rest(
    alloc: Global,
    rest: Rules<'_>,
    way: &SharedWay,
    heads: &[Option<SharedWay>],
    so: &mut SoFar,
    notes: &mut Notes,
) -> Result<(), NoMemory>
    requires ready { IsReady way.now heads.now notes.old }
    requires so_far { IsSoFar notes.old so.old }
    requires rules { ArePassable notes.old.locals (length notes.old.heads.items)
        (seen_rules rest) }
    ensures { OnOk result ((l : List Event) (m : Noted) → Took l m notes.old
        → Passed so.new.found (pass_all (ways_of heads.now) (seen_rules rest.entry) (seen way.now)
        so.old.head (latest_first so.old.parts.items []) (found_of so.old.found l))
        m notes.new) }
{
    let passed = pass_rules(alloc, &rest, way, heads, so, notes);
    drop(rest);
    passed
}

/// The same of the rules of a draft.
pub fn pass_draft(
    alloc: Global,
    rest: Draft<'_>,
    way: &SharedWay,
    heads: &[Option<SharedWay>],
    so: &mut SoFar,
    notes: &mut Notes,
) -> Result<(), NoMemory>
    requires ready { IsReady way.now heads.now notes.old }
    requires so_far { IsSoFar notes.old so.old }
    requires rules { ArePassable notes.old.locals (length notes.old.heads.items)
        (seen_rules rest.rules) }
    ensures { OnOk result ((l : List Event) (m : Noted) → Took l m notes.old
        → Passed so.new.found (pass_all (ways_of heads.now) (seen_rules rest.entry.rules)
        (seen way.now) so.old.head (latest_first so.old.parts.items []) (found_of so.old.found l))
        m notes.new) }
{
    let passed = pass_rules(alloc, &rest.rules, way, heads, so, notes);
    drop(rest);
    passed
}
