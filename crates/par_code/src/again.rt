//! Whether a loop is begun again from inside of it.

ghost use Rattle.std.specs.Prelude.{ℕ, ◌≡◌};
ghost use Rattle.par_code_form.specs.Again as flow;
ghost use Rattle.par_erase.specs.Shown.{does, otherwise, all_do, all_catch};

use crate::ways::completes;
use par_erase::{PCatch, PStmt};

/// Whether a continue of the loop around the statement is inside.
#[cycle(continues)]
#[tactic(auto, using(crate::proofs::AgainForms::continuing))]
pub fn continues(stmt: &PStmt) -> bool
    ensures { (i : ℕ → ℕ) → result ≡ flow.continues (does i stmt.now) }
{
    match stmt {
        PStmt::Block(stmts) => some_continue(stmts.as_slice()),
        PStmt::If(_, body, other) => continues(body) || else_continues(other),
        PStmt::LockIf(_, body, other) => continues(body) || else_continues(other),
        PStmt::Try(body, catches) => continues(body) || some_catch_continues(catches.as_slice()),
        PStmt::Continue => true,
        PStmt::While(_, _) => false,
        PStmt::Return(_) => false,
        PStmt::Break => false,
        PStmt::Throw(_) => false,
        PStmt::SetLocal(_, _) => false,
        PStmt::SetStatic(_, _, _) => false,
        PStmt::SetField(_, _, _, _) => false,
        PStmt::Eval(_) => false,
        PStmt::LockSet(_, _) => false,
    }
}

#[cycle(continues)]
#[tactic(auto, using(crate::proofs::AgainForms::continuing_else))]
fn else_continues(other: &Option<Box<PStmt>>) -> bool
    ensures { (i : ℕ → ℕ) → result ≡ flow.else_continues (otherwise i other.now) }
{
    match other {
        None => false,
        Some(stmt) => continues(stmt),
    }
}

#[cycle(continues)]
#[tactic(auto, using(crate::proofs::AgainForms::continuing_row))]
fn some_continue(stmts: &[PStmt]) -> bool
    ensures { (i : ℕ → ℕ) → result ≡ flow.some_continue (all_do i stmts.now) }
{
    for stmt in stmts {
        if continues(stmt) {
            return true;
        }
    }
    false
}

#[cycle(continues)]
#[tactic(auto, using(crate::proofs::AgainForms::continuing_row))]
fn some_catch_continues(catches: &[PCatch]) -> bool
    ensures { (i : ℕ → ℕ) → result ≡ flow.some_catch_continues (all_catch i catches.now) }
{
    for catch in catches {
        if continues(&catch.body) {
            return true;
        }
    }
    false
}

/// Whether control goes from the body of a loop to its head.
pub fn goes_again(body: &PStmt) -> bool
    ensures { (i : ℕ → ℕ) → result ≡ flow.goes_again (does i body.now) }
{
    completes(body) || continues(body)
}
