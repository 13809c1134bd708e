// Exits of a node: a list with one way a kind.
ghost use Rattle.std.specs.Prelude.{◌≡◌, ℕ, OnOk, IfOk, MatchOption, length, [], ◌∷◌};
ghost use Rattle.std.specs.Option.{option_copied};
ghost use Rattle.par_bits.specs.Sets.{has};
ghost use Rattle.par_program_laws.specs.Kinds.{absorbed};
ghost use Rattle.par_nodes.specs.Seen.{seen_absorber, seen_kind};
ghost use Rattle.par_nodes.specs.declared.rule.Kind.TheVariants.{Normal};
ghost use Rattle.par_pass_laws.specs.par_except.Joins.{join};
ghost use Rattle.par_pass_laws.specs.par_except.Seen.{may_see, seen, MayHaveLocals};
ghost use Rattle.par_pass_laws.specs.Exits.{add, all, at, contexts, leaving, restored};
ghost use Rattle.par_pass_laws.specs.Exits.{with_context};
ghost use Rattle.par_ways.specs.Seen.{seen_exit, seen_exits, AreWide};
ghost use Rattle.par_ways.specs.Places.{IsPlace, HasNoPlace};

use crate::way::SharedWay;
use par_atoms::Atoms;
use par_base::memory::NoMemory;
use par_nodes::possible::{is_same, takes};
use par_nodes::rule::{Absorber, Kind};
use std::alloc::Global;

/// A completion and its way.
#[derive(Drop)]
pub struct Exit {
    pub kind: Kind,
    pub way: SharedWay,
}

fn place_of(exits: &[Exit], kind: Kind) -> Option<usize>
    ensures { MatchOption result (HasNoPlace (seen_kind kind) (seen_exits exits.now))
        (λ i. IsPlace (seen_kind kind) (seen_exits exits.now) i) }
{
    for (place, exit) in exits.iter().enumerate() {
        if is_same(exit.kind, kind) {
            return Some(place);
        }
    }
    None
}

/// The way of the kind.
pub(crate) fn way_of(exits: &[Exit], kind: Kind) -> Option<&SharedWay>
    ensures way { may_see (option_copied result) ≡ at (seen_exits exits.now) (seen_kind kind) }
    ensures locals { (n : ℕ) → AreWide n exits.now → MayHaveLocals n (option_copied result) }
{
    for exit in exits {
        if is_same(exit.kind, kind) {
            return Some(&exit.way);
        }
    }
    None
}

// The way, with the list of policies of the first exit that has the same ones.
fn alike(way: SharedWay, exits: &[Exit]) -> Result<SharedWay, NoMemory>
    requires { AreWide (length way.env) exits.now }
    ensures way { IfOk result (λ w. seen w ≡ seen way) }
    ensures locals { IfOk result (λ w. length w.env ≡ length way.env) }
{
    for exit in exits {
        if way.has_env_of(&exit.way) {
            return way.with_env_of(&exit.way);
        }
    }
    Ok(way)
}

// The join of two ways. It takes no list of its own if one of them or of these exits has the same.
fn joined(
    alloc: Global,
    way: &SharedWay,
    other: &SharedWay,
    exits: &[Exit],
) -> Result<SharedWay, NoMemory>
    requires ways { length way.now.env ≡ length other.now.env }
    requires exits { AreWide (length way.now.env) exits.now }
    ensures way { IfOk result (λ w. seen w ≡ join (seen way.now) (seen other.now)) }
    ensures locals { IfOk result (λ w. length w.env ≡ length way.now.env) }
{
    let joined = way.joined(alloc, other)?;
    if joined.is_made {
        alike(joined.way, exits)
    } else {
        Ok(joined.way)
    }
}

/// Joins an exit with that of its kind, where there is one.
pub fn add(alloc: Global, exits: &mut Vec<Exit>, exit: Exit) -> Result<(), NoMemory>
    requires { AreWide (length exit.way.env) exits.old.items }
    ensures exits { OnOk result (seen_exits exits.new.items
        ≡ add (seen_exit exit) (seen_exits exits.old.items)) }
    ensures locals { OnOk result (AreWide (length exit.way.env) exits.new.items) }
{
    match place_of(exits, exit.kind) {
        Some(place) => {
            let way = joined(alloc, &exits[place].way, &exit.way, exits)?;
            exits[place].way = way;
        }
        None => exits.push(exit)?,
    }
    Ok(())
}

// One more exit, unless it is absorbed.
fn add_left(
    alloc: Global,
    exits: &mut Vec<Exit>,
    from: &Exit,
    absorber: &Absorber,
) -> Result<(), NoMemory>
    requires { AreWide (length from.now.way.env) exits.old.items }
    ensures exits { OnOk result (seen_exits exits.new.items
        ≡ all (leaving (absorbed (seen_absorber absorber.now)) (seen_exit from.now ∷ []))
        (seen_exits exits.old.items)) }
    ensures locals { OnOk result (AreWide (length from.now.way.env) exits.new.items) }
{
    if takes(absorber, from.kind) {
        return Ok(());
    }
    let way = from.way.share()?;
    add(
        alloc,
        exits,
        Exit {
            kind: from.kind,
            way,
        },
    )
}

/// Adds the exits that are not absorbed.
pub fn gather(
    alloc: Global,
    exits: &mut Vec<Exit>,
    from: &[Exit],
    absorber: &Absorber,
) -> Result<(), NoMemory>
    requires { (n : ℕ) × AreWide n exits.old.items × AreWide n from.now }
    ensures exits { OnOk result (seen_exits exits.new.items
        ≡ all (leaving (absorbed (seen_absorber absorber.now)) (seen_exits from.now))
        (seen_exits exits.old.items)) }
    ensures locals { OnOk result ((n : ℕ) → AreWide n exits.old.items → AreWide n from.now
        → AreWide n exits.new.items) }
{
    for exit in from {
        add_left(alloc, exits, exit, absorber)?;
    }
    Ok(())
}

fn context_of(exits: &[Exit], first: Atoms) -> Atoms
    ensures { has result ≡ contexts (has first) (seen_exits exits.now) }
{
    let mut context = first;
    for exit in exits {
        if !is_same(exit.kind, Kind::Normal) {
            context = context.union(&exit.way.context());
        }
    }
    context
}

fn set_context(exits: &mut [Exit], context: Atoms)
    ensures exits { seen_exits exits.new ≡ with_context (has context) (seen_exits exits.old) }
    ensures locals { (n : ℕ) → AreWide n exits.old → AreWide n exits.new }
{
    for place in 0..exits.len() {
        if is_same(exits[place].kind, Kind::Normal) {
            exits[place].way.set_context(context);
        }
    }
}

/// Gives the normal exit the context of the entering way and of all other exits.
pub fn restore(exits: &mut Vec<Exit>, way: &SharedWay)
    ensures exits { seen_exits exits.new.items
        ≡ restored (seen way.now) (seen_exits exits.old.items) }
    ensures locals { (n : ℕ) → AreWide n exits.old.items → AreWide n exits.new.items }
{
    let context = context_of(exits, way.context());
    set_context(exits, context);
}

/// The way as the only exit, which is the normal one.
pub fn only(alloc: Global, way: &SharedWay) -> Result<Vec<Exit>, NoMemory>
    ensures { IfOk result (λ exits. exits.items ≡ record { kind = Normal; way = way.now } ∷ []) }
{
    let mut exits = Vec::with_capacity(alloc, 1)?;
    let way = way.share()?;
    exits.push(Exit {
        kind: Kind::Normal,
        way,
    })?;
    Ok(exits)
}

/// A copy of all exits.
pub fn copy(alloc: Global, exits: &[Exit]) -> Result<Vec<Exit>, NoMemory>
    ensures { IfOk result (λ copies. copies.items ≡ exits.now) }
{
    let mut copies = Vec::with_capacity(alloc, exits.len())?;
    for exit in exits {
        let way = exit.way.share()?;
        copies.push(Exit {
            kind: exit.kind,
            way,
        })?;
    }
    Ok(copies)
}
