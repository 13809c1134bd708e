//! The step that a statement costs.

ghost use Rattle.std.specs.Prelude.{◌≡◌, IfOk};
ghost use Rattle.par_policy.specs.Numbers.{has};
ghost use Rattle.par_run_laws.specs.Tasks.{asked};
ghost use Rattle.par_typed.specs.Shown.{may_shown, does, otherwise, all_do};
ghost use Rattle.par_meaning.specs.Onward.{Costs, Moves, Is};
ghost use Rattle.par_meaning.specs.Work.{performs, performs_else, performs_all, returned};

use crate::machine::Machine;
use crate::work::{Exit, FINE, Next, Then, Waiting};
use par_base::memory::NoMemory;
use par_typed::expr::TExpr;
use par_typed::stmt::{TStmt, TStmtKind};

/// Enters a statement.
pub(crate) fn enter_stmt<'a>(
    machine: &mut Machine<'a>,
    stmt: &'a TStmt,
) -> Result<Then<'a>, NoMemory>
    ensures { IfOk result (λ on.
        Costs (λ p. performs p (does stmt.now)) machine.old machine.new on) }
{
    match &stmt.kind {
        TStmtKind::Block(stmts) => Ok(statements(stmts.as_slice())),
        TStmtKind::If(test, body, other) => Ok(Then::part(test, Waiting::If(body, other))),
        TStmtKind::While(test, body) => Ok(Then::part(test, Waiting::Test(test, body))),
        TStmtKind::Try(body, catches) => Ok(Then::Waits(
            Waiting::Catch(catches.as_slice()),
            Next::Stmt(body),
        )),
        TStmtKind::Return(value) => Ok(enter_return(value)),
        TStmtKind::Break => Ok(Then::leaves(Exit::Broken)),
        TStmtKind::Continue => Ok(Then::leaves(Exit::Continued)),
        TStmtKind::Throw(class) => Ok(Then::leaves(Exit::Thrown(*class))),
        TStmtKind::OpenLock(lock) => {
            machine.store.open(*lock)?;
            Ok(Then::Ends(FINE))
        }
        TStmtKind::CloseLock(lock) => {
            machine.store.close(*lock)?;
            Ok(Then::Ends(FINE))
        }
        TStmtKind::SetLocal(local, _, value) => { Ok(Then::part(value, Waiting::SetLocal(*local))) }
        TStmtKind::SetStatic(c, f, value) => Ok(Then::part(value, Waiting::SetStatic(*c, *f))),
        TStmtKind::SetField(of, c, f, value) => {
            Ok(Then::part(of, Waiting::Object(of.sure, *c, *f, value)))
        }
        TStmtKind::Eval(e) => Ok(Then::part(e, Waiting::Eval)),
        TStmtKind::When(lock, body, other) => Ok(ask(machine, *lock, body, other)),
    }
}

/// Returns, behind the value where there is one.
fn enter_return<'a>(value: &'a Option<TExpr>) -> Then<'a>
    ensures { Is (λ p. returned p (may_shown value.now)) result }
{
    match value {
        Some(value) => Then::part(value, Waiting::Return),
        None => Then::leaves(Exit::Returned),
    }
}

/// Asks whether a lock is open.
fn ask<'a>(
    machine: &Machine<'a>,
    lock: u16,
    body: &'a TStmt,
    other: &'a Option<Box<TStmt>>,
) -> Then<'a>
    ensures { Moves (λ p. asked (λ s. has s.locks lock) (performs p (does body.now))
        (performs_else p (otherwise other.now))) machine.now machine.now result }
{
    if machine.store.locks().has(lock) {
        Then::Goes(Next::Stmt(body))
    } else {
        otherwise(other)
    }
}

/// Goes on with what stands behind `else`.
pub(crate) fn otherwise<'a>(other: &'a Option<Box<TStmt>>) -> Then<'a>
    ensures { Is (λ p. performs_else p (otherwise other.now)) result }
{
    match other {
        Some(stmt) => Then::Goes(Next::Stmt(stmt)),
        None => Then::Ends(FINE),
    }
}

/// Goes on with the statements of a block.
pub(crate) fn statements<'a>(stmts: &'a [TStmt]) -> Then<'a>
    ensures { Is (λ p. performs_all p (all_do stmts.now)) result }
{
    match stmts.split_first() {
        Some((first, others)) => Then::Waits(Waiting::Block(others), Next::Stmt(first)),
        None => Then::Ends(FINE),
    }
}
