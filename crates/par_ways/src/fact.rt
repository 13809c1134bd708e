// What is known of a node, and of the parts before in it.
ghost use Rattle.std.specs.Prelude.{◌≡◌, ℕ, []};
ghost use Rattle.std.specs.Option.{option_copied};
ghost use Rattle.par_bits.specs.Sets.{has};
ghost use Rattle.par_program_laws.specs.Lattice.{numbers};
ghost use Rattle.par_program_laws.specs.Rules.{part_at};
ghost use Rattle.par_nodes.specs.Seen.{seen_kind};
ghost use Rattle.par_pass_laws.specs.par_except.Seen.{may_see, MayHaveLocals};
ghost use Rattle.par_pass_laws.specs.Written.{table as by_point};
ghost use Rattle.par_ways.specs.Seen.{latest_first, seen_facts, AreFactsWide};

use crate::exits::{Exit, way_of};
use crate::way::SharedWay;
use par_atoms::Atoms;
use par_nodes::rule::Kind;

/// The way that enters a node, if it is reached, its value, and how it is left.
#[derive(Drop)]
pub struct Fact {
    pub entry: Option<SharedWay>,
    pub value: Atoms,
    pub exits: Vec<Exit>,
}

/// The value of a part. Parts are numbered backwards, and the latest is 0.
pub(crate) fn value_of(parts: &[Fact], part: usize) -> Atoms
    ensures { has result ≡ (part_at numbers (latest_first parts.now []) part).value }
{
    if part < parts.len() {
        parts[parts.len() - 1 - part].value
    } else {
        Atoms::empty()
    }
}

/// The way that leaves a part, if there is one.
pub(crate) fn exit_of(parts: &[Fact], part: usize, kind: Kind) -> Option<&SharedWay>
    ensures way { may_see (option_copied result)
        ≡ (part_at numbers (latest_first parts.now []) part).exit (seen_kind kind) }
    ensures locals { (n : ℕ) → AreFactsWide n parts.now → MayHaveLocals n (option_copied result) }
{
    if part < parts.len() {
        way_of(&parts[parts.len() - 1 - part].exits, kind)
    } else {
        None
    }
}

/// The way that enters the node at a point, if it is reached.
pub fn entry_at(rows: &[Fact], point: u32) -> Option<&SharedWay>
    ensures { may_see (option_copied result) ≡ (by_point (seen_facts rows.now) point).entry }
{
    let place = point as usize;
    if place < rows.len() {
        match &rows[place].entry {
            None => None,
            Some(way) => Some(way),
        }
    } else {
        None
    }
}

/// The way of a completion of the node at a point, if it is possible.
pub fn exit_at(rows: &[Fact], point: u32, kind: Kind) -> Option<&SharedWay>
    ensures { may_see (option_copied result)
        ≡ (by_point (seen_facts rows.now) point).exit (seen_kind kind) }
{
    let place = point as usize;
    if place < rows.len() {
        way_of(&rows[place].exits, kind)
    } else {
        None
    }
}

/// The value of the node at a point.
pub fn value_at(rows: &[Fact], point: u32) -> Atoms
    ensures { has result ≡ (by_point (seen_facts rows.now) point).value }
{
    let place = point as usize;
    if place < rows.len() {
        rows[place].value
    } else {
        Atoms::empty()
    }
}
