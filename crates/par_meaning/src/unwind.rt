//! What waits hands an exit on.

ghost use Rattle.std.specs.Prelude.{◌≡◌};
ghost use Rattle.par_typed.specs.Shown.{shown, does, all_catch};
ghost use Rattle.par_meaning.specs.declared.work.Completion.TheVariants.{Abrupt};
ghost use Rattle.par_run_laws.specs.Tasks.{looped, caught};
ghost use Rattle.par_meaning.specs.Onward.{Exits, HandsOn, Is};
ghost use Rattle.par_source_state.specs.Bodied.{body_shown};
ghost use Rattle.par_meaning.specs.Work.{catch_of, handles, loops};

use crate::calls::leave_by;
use crate::machine::Machine;
use crate::work::{Exit, FINE, Next, Then, Waiting};
use par_typed::expr::TExpr;
use par_typed::stmt::{TCatch, TStmt};

/// Hands an exit on, by what waits.
pub(crate) fn unwind<'a>(machine: &mut Machine<'a>, waiting: Waiting<'a>, exit: Exit) -> Then<'a>
    ensures { HandsOn waiting.entry (Abrupt exit) machine.old machine.new result }
{
    match waiting {
        Waiting::Argument(_, count, _) => {
            machine.values.cut(count);
            Then::leaves(exit)
        }
        Waiting::Loop(test, body) => leave_turn(test, body, exit),
        Waiting::Catch(catches) => leave_try(catches, exit),
        Waiting::Leave(size, result) => leave_by(machine, size, result, exit),
        _ => Then::leaves(exit),
    }
}

/// An exit from the block of a loop.
fn leave_turn<'a>(test: &'a TExpr, body: &'a TStmt, exit: Exit) -> Then<'a>
    ensures { Exits (λ p. looped (loops p (shown test.now) (does body.now))) exit result }
{
    match exit {
        Exit::Broken => Then::Ends(FINE),
        Exit::Continued => Then::Goes(Next::Turn(test, body)),
        _ => Then::leaves(exit),
    }
}

/// An exit from the block of a `try`.
fn leave_try<'a>(catches: &'a [TCatch], exit: Exit) -> Then<'a>
    ensures { Exits (λ p. caught (handles p (all_catch catches.now))) exit result }
{
    match exit {
        Exit::Thrown(class) => catch(catches, class),
        _ => Then::leaves(exit),
    }
}

/// Catches a class, or throws it on.
fn catch<'a>(catches: &'a [TCatch], class: u16) -> Then<'a>
    ensures { Is (λ p. handles p (all_catch catches.now) class) result }
{
    match handler(catches, class) {
        Some(body) => Then::Goes(Next::Stmt(body)),
        None => Then::leaves(Exit::Thrown(class)),
    }
}

/// What is done where this class is thrown.
fn handler<'a>(catches: &'a [TCatch], class: u16) -> Option<&'a TStmt>
    ensures { body_shown result ≡ catch_of (all_catch catches.now) class }
{
    for catch in catches {
        if catch.class == class {
            return Some(&catch.body);
        }
    }
    None
}
