//! What is asked of the ways in which a method is left.

ghost use Rattle.std.specs.Prelude.{◌≡◌, ◌≤◌, [], ◌∷◌, ◌++◌, length, OnOk};
ghost use Rattle.std.specs.Option.{option_copied};
ghost use Rattle.par_nodes.specs.par_program_laws.Declares.{method_of, throws_of};
ghost use Rattle.par_nodes.specs.par_program_laws.Kinds as kind;
ghost use Rattle.par_check_laws.specs.Checks.{ask, is_thrown, leaving, method_checks, others};
ghost use Rattle.par_check_laws.specs.Checks.{throws_checks, undeclared_checks};
ghost use Rattle.par_asked.specs.Others.{unless_thrown};
ghost use Rattle.par_asked.specs.Seen.{own, seen_checks, seen_locks, table};

use crate::ask::{Home, Spot};
use crate::check::{Check, Condition, Locks, Way};
use par_base::list::List;
use par_base::memory::NoMemory;
use par_nodes::rule::Kind;
use par_typed::table::{MethodInfo, ThrowInfo};

/// The locks that a method opens.
fn opens(method: Option<&MethodInfo>) -> Locks<'_>
    ensures { seen_locks result ≡ (method_of (option_copied method.entry)).opens }
{
    match method {
        None => Locks::Nothing,
        Some(method) => Locks::All(&method.opens),
    }
}

fn throws(method: Option<&MethodInfo>) -> &[ThrowInfo]
    ensures { throws_of result.now ≡ (method_of (option_copied method.entry)).throws }
{
    match method {
        None => &[],
        Some(method) => method.throws.as_slice(),
    }
}

// The body is left in that way.
fn left<'a>(at: u32, point: u32, kind: Kind) -> Spot<'a>
    ensures { result ≡ record { at = at; point = point; way = Way.Left kind } }
{
    Spot {
        at,
        point,
        way: Way::Left(kind),
    }
}

// What is thrown against its declared policies.
fn ask_throws<'a>(
    at: u32,
    point: u32,
    throws: &[ThrowInfo],
    checks: &mut List<Check<'a>>,
) -> Result<(), NoMemory>
    ensures { OnOk result (seen_checks checks.new ≡ seen_checks checks.old
        ++ throws_checks at point (throws_of throws.now)) }
{
    for throw in throws {
        let spot = left(at, point, Kind::Throw(throw.class));
        spot.ask(502, Condition::Context(throw.policy), checks)?;
    }
    Ok(())
}

fn is_thrown(throws: &[ThrowInfo], class: u16) -> bool
    ensures { result ≡ is_thrown (throws_of throws.now) class }
{
    for throw in throws {
        if throw.class == class {
            return true;
        }
    }
    false
}

// A class that is not declared is not thrown.
fn ask_undeclared<'a>(
    at: u32,
    point: u32,
    throws: &[ThrowInfo],
    class: u16,
    checks: &mut List<Check<'a>>,
) -> Result<(), NoMemory>
    ensures { OnOk result (seen_checks checks.new ≡ seen_checks checks.old
        ++ undeclared_checks at point (unless_thrown (throws_of throws.now) (class ∷ []))) }
{
    if is_thrown(throws, class) {
        return Ok(());
    }
    left(at, point, Kind::Throw(class)).ask(501, Condition::Never, checks)
}

// The classes that are not declared, of so many.
fn ask_all_undeclared<'a>(
    at: u32,
    point: u32,
    throws: &[ThrowInfo],
    classes: usize,
    checks: &mut List<Check<'a>>,
) -> Result<(), NoMemory>
    requires { classes ≤ 65536 }
    ensures { OnOk result (seen_checks checks.new ≡ seen_checks checks.old
        ++ undeclared_checks at point (others (throws_of throws.now) classes)) }
{
    for class in 0..classes {
        ask_undeclared(at, point, throws, class as u16, checks)?;
    }
    Ok(())
}

/// The ways in which the method around is left, told at its name.
#[tactic(auto, using(crate::proofs::Asks::asks))]
pub fn ask_method<'a>(
    home: &Home<'a>,
    at: u32,
    point: u32,
    checks: &mut List<Check<'a>>,
) -> Result<(), NoMemory>
    requires { length (table home.now).classes ≤ 65536 }
    ensures { OnOk result (seen_checks checks.new ≡ seen_checks checks.old
        ++ method_checks (table home.now) (own home.now) at point) }
{
    let throws = throws(home.own);
    left(at, point, Kind::Normal).ask(303, Condition::Open(opens(home.own)), checks)?;
    left(at, point, Kind::Return).ask(303, Condition::Open(opens(home.own)), checks)?;
    ask_throws(at, point, throws, checks)?;
    ask_all_undeclared(at, point, throws, home.table.classes.len(), checks)
}
