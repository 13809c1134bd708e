// What is kept of the facts of a point.
ghost use Rattle.std.specs.Prelude.{◌≡◌, ◌∷◌, ◌++◌, ℕ, false, [], IfOk, OnOk, MatchOption};
ghost use Rattle.std.specs.Prelude.{List as Items};
ghost use Rattle.std.specs.Option.{option_copied};
ghost use Rattle.par_program_laws.specs.Kinds as kinds;
ghost use Rattle.par_program_laws.specs.Kinds.{Kind as Completion};
ghost use Rattle.par_nodes.specs.Seen.{seen_kind};
ghost use Rattle.par_locks.specs.par_except.Seen.{may_see, seen, HasLocals, MayHaveLocals};
ghost use Rattle.par_locks.specs.par_pass_laws.Exits.{at, Exit as Left};
ghost use Rattle.par_envs.specs.Numbered.{AreFound, Extends, envs};
ghost use Rattle.par_rounds.specs.par_ways.Seen.{seen_exit, seen_exits, AreWide};
ghost use Rattle.par_flow.specs.Kept.{exit_of, AddsOnly, AreLong, AreOnce, HasEnv, Leaves};
ghost use Rattle.par_flow.specs.Kept.{MayShow, ShowThrows, ShowsWay, Throws};

use crate::kept::{KeptWay, KeptWays, thrown};
use par_base::list::List;
use par_base::memory::NoMemory;
use par_envs::Envs;
use par_nodes::possible::is_same;
use par_nodes::rule::Kind;
use par_rounds::{Exit, SharedWay};
use std::alloc::Global;

fn keep_way(alloc: Global, numbered: &mut Envs, way: &SharedWay) -> Result<KeptWay, NoMemory>
    requires { AreFound numbered.old.entries.items }
    ensures found { OnOk result (AreFound numbered.new.entries.items) }
    ensures more { OnOk result
        (Extends (envs numbered.old.entries.items) (envs numbered.new.entries.items)) }
    ensures way { IfOk result
        (λ kept. ShowsWay (envs numbered.new.entries.items) kept (seen way.now)) }
    ensures adds { IfOk result (λ kept. AddsOnly (envs numbered.old.entries.items)
        (envs numbered.new.entries.items) (λ n. kept.env ≡ n)) }
    ensures long { OnOk result ((n : ℕ) → HasLocals n way.now
        → AreLong n (envs numbered.old.entries.items)
        → AreLong n (envs numbered.new.entries.items)) }
{
    let env = numbered.number(alloc, way.compared_env())?;
    Ok(KeptWay {
        context: way.context(),
        env,
        locks: way.locks(),
    })
}

/// A way, if there is one.
pub fn may_keep(
    alloc: Global,
    numbered: &mut Envs,
    way: Option<&SharedWay>,
) -> Result<Option<KeptWay>, NoMemory>
    requires { AreFound numbered.old.entries.items }
    ensures found { OnOk result (AreFound numbered.new.entries.items) }
    ensures more { OnOk result
        (Extends (envs numbered.old.entries.items) (envs numbered.new.entries.items)) }
    ensures way { IfOk result (λ kept. MayShow (envs numbered.new.entries.items) kept
        (may_see (option_copied way.entry))) }
    ensures adds { IfOk result (λ kept. AddsOnly (envs numbered.old.entries.items)
        (envs numbered.new.entries.items) (λ n. HasEnv n kept)) }
    ensures long { OnOk result ((n : ℕ) → MayHaveLocals n (option_copied way.entry)
        → AreLong n (envs numbered.old.entries.items)
        → AreLong n (envs numbered.new.entries.items)) }
{
    match way {
        None => Ok(None),
        Some(way) => {
            let kept = keep_way(alloc, numbered, way)?;
            Ok(Some(kept))
        }
    }
}

// The way of a kind among exits.
fn way_of(exits: &[Exit], kind: Kind) -> Option<&SharedWay>
    ensures way { may_see (option_copied result) ≡ at (seen_exits exits.now) (seen_kind kind) }
    ensures locals { (n : ℕ) → AreWide n exits.now → MayHaveLocals n (option_copied result) }
{
    for exit in exits {
        if is_same(exit.kind, kind) {
            return Some(&exit.way);
        }
    }
    None
}

fn keep_exit(
    alloc: Global,
    numbered: &mut Envs,
    exits: &[Exit],
    kind: Kind,
) -> Result<Option<KeptWay>, NoMemory>
    requires { AreFound numbered.old.entries.items }
    ensures found { OnOk result (AreFound numbered.new.entries.items) }
    ensures more { OnOk result
        (Extends (envs numbered.old.entries.items) (envs numbered.new.entries.items)) }
    ensures way { IfOk result (λ kept. MayShow (envs numbered.new.entries.items) kept
        (at (seen_exits exits.now) (seen_kind kind))) }
    ensures adds { IfOk result (λ kept. AddsOnly (envs numbered.old.entries.items)
        (envs numbered.new.entries.items) (λ n. HasEnv n kept)) }
    ensures long { OnOk result ((n : ℕ) → AreWide n exits.now
        → AreLong n (envs numbered.old.entries.items)
        → AreLong n (envs numbered.new.entries.items)) }
{
    let kept = may_keep(alloc, numbered, way_of(exits, kind))?;
    Ok(kept)
}

// The class of a throw.
fn class_of(kind: Kind) -> Option<u16>
    ensures { MatchOption result
        ((class : ℕ) → kinds.same (seen_kind kind) (kinds.Throw class) ≡ false)
        (λ class. seen_kind kind ≡ kinds.Throw class) }
{
    match kind {
        Kind::Normal | Kind::Return | Kind::Break | Kind::Continue => None,
        Kind::Throw(class) => Some(class),
    }
}

// One more throw, unless its class has one.
fn keep_throw(
    alloc: Global,
    numbered: &mut Envs,
    throws: &mut List<(u16, KeptWay)>,
    exit: &Exit,
) -> Result<(), NoMemory>
    requires { AreFound numbered.old.entries.items }
    ensures found { OnOk result (AreFound numbered.new.entries.items) }
    ensures more { OnOk result
        (Extends (envs numbered.old.entries.items) (envs numbered.new.entries.items)) }
    ensures throws { OnOk result ((xs : Items Left)
        → ShowThrows (envs numbered.old.entries.items) throws.old xs
        → ShowThrows (envs numbered.new.entries.items) throws.new (xs ++ seen_exit exit.now ∷ [])) }
    ensures once { OnOk result (AreOnce throws.old → AreOnce throws.new) }
    ensures kept { OnOk result ((n : ℕ) → Throws n throws.old → Throws n throws.new) }
    ensures adds { OnOk result (AddsOnly (envs numbered.old.entries.items)
        (envs numbered.new.entries.items) (λ n. Throws n throws.new)) }
    ensures long { OnOk result ((n : ℕ) → HasLocals n exit.now.way
        → AreLong n (envs numbered.old.entries.items)
        → AreLong n (envs numbered.new.entries.items)) }
{
    if let Some(class) = class_of(exit.kind) {
        if thrown(throws.as_slice(), class).is_none() {
            let way = keep_way(alloc, numbered, &exit.way)?;
            throws.push((class, way))?;
        }
    }
    Ok(())
}

// The throws among exits.
fn keep_throws(
    alloc: Global,
    numbered: &mut Envs,
    exits: &[Exit],
) -> Result<List<(u16, KeptWay)>, NoMemory>
    requires { AreFound numbered.old.entries.items }
    ensures found { OnOk result (AreFound numbered.new.entries.items) }
    ensures more { OnOk result
        (Extends (envs numbered.old.entries.items) (envs numbered.new.entries.items)) }
    ensures throws { IfOk result
        (λ kept. ShowThrows (envs numbered.new.entries.items) kept (seen_exits exits.now)) }
    ensures once { IfOk result AreOnce }
    ensures adds { IfOk result (λ kept. AddsOnly (envs numbered.old.entries.items)
        (envs numbered.new.entries.items) (λ n. Throws n kept)) }
    ensures long { OnOk result ((n : ℕ) → AreWide n exits.now
        → AreLong n (envs numbered.old.entries.items)
        → AreLong n (envs numbered.new.entries.items)) }
{
    let mut throws = List::new(alloc);
    for exit in exits {
        keep_throw(alloc, numbered, &mut throws, exit)?;
    }
    Ok(throws)
}

/// All exits.
pub fn keep_exits(alloc: Global, numbered: &mut Envs, exits: &[Exit]) -> Result<KeptWays, NoMemory>
    requires { AreFound numbered.old.entries.items }
    ensures found { OnOk result (AreFound numbered.new.entries.items) }
    ensures more { OnOk result
        (Extends (envs numbered.old.entries.items) (envs numbered.new.entries.items)) }
    ensures exits { IfOk result (λ kept. (k : Completion)
        → MayShow (envs numbered.new.entries.items) (exit_of kept k)
        (at (seen_exits exits.now) k)) }
    ensures once { IfOk result (λ kept. AreOnce kept.throws) }
    ensures adds { IfOk result (λ kept. AddsOnly (envs numbered.old.entries.items)
        (envs numbered.new.entries.items) (λ n. Leaves n kept)) }
    ensures long { OnOk result ((n : ℕ) → AreWide n exits.now
        → AreLong n (envs numbered.old.entries.items)
        → AreLong n (envs numbered.new.entries.items)) }
{
    let normal = keep_exit(alloc, numbered, exits, Kind::Normal)?;
    let ret = keep_exit(alloc, numbered, exits, Kind::Return)?;
    let brk = keep_exit(alloc, numbered, exits, Kind::Break)?;
    let cont = keep_exit(alloc, numbered, exits, Kind::Continue)?;
    let throws = keep_throws(alloc, numbered, exits)?;
    Ok(KeptWays {
        normal,
        ret,
        brk,
        cont,
        throws,
    })
}
