//! How control leaves plain statements.

ghost use Rattle.std.specs.Prelude.{ℕ, ◌≡◌, true};
ghost use Rattle.par_completes.specs.Typed as flow;
ghost use Rattle.par_erase.specs.Shown.{shown, does, otherwise, all_do, all_catch};

use par_erase::{PCatch, PExpr, PExprKind, PStmt};

/// Whether an expression is the literal `true`.
pub fn is_true(expr: &PExpr) -> bool
    ensures { (i : ℕ → ℕ) → result ≡ flow.is_true (shown i expr.now) }
{
    match &expr.kind {
        PExprKind::Bool(value) => *value,
        _ => false,
    }
}

/// Whether a break of the loop around the statement is inside.
#[cycle(breaks)]
#[tactic(auto, using(crate::proofs::WayForms::breaking))]
pub fn breaks(stmt: &PStmt) -> bool
    ensures { (i : ℕ → ℕ) → result ≡ flow.breaks (does i stmt.now) }
{
    match stmt {
        PStmt::Block(stmts) => some_break(stmts.as_slice()),
        PStmt::If(_, body, other) => breaks(body) || else_breaks(other),
        PStmt::LockIf(_, body, other) => breaks(body) || else_breaks(other),
        PStmt::Try(body, catches) => breaks(body) || some_catch_breaks(catches.as_slice()),
        PStmt::Break => true,
        PStmt::While(_, _) => false,
        PStmt::Return(_) => false,
        PStmt::Continue => false,
        PStmt::Throw(_) => false,
        PStmt::SetLocal(_, _) => false,
        PStmt::SetStatic(_, _, _) => false,
        PStmt::SetField(_, _, _, _) => false,
        PStmt::Eval(_) => false,
        PStmt::LockSet(_, _) => false,
    }
}

#[cycle(breaks)]
#[tactic(auto, using(crate::proofs::WayForms::breaking_else))]
fn else_breaks(other: &Option<Box<PStmt>>) -> bool
    ensures { (i : ℕ → ℕ) → result ≡ flow.else_breaks (otherwise i other.now) }
{
    match other {
        None => false,
        Some(stmt) => breaks(stmt),
    }
}

#[cycle(breaks)]
#[tactic(auto, using(crate::proofs::WayForms::breaking_row))]
fn some_break(stmts: &[PStmt]) -> bool
    ensures { (i : ℕ → ℕ) → result ≡ flow.some_break (all_do i stmts.now) }
{
    for stmt in stmts {
        if breaks(stmt) {
            return true;
        }
    }
    false
}

#[cycle(breaks)]
#[tactic(auto, using(crate::proofs::WayForms::breaking_row))]
fn some_catch_breaks(catches: &[PCatch]) -> bool
    ensures { (i : ℕ → ℕ) → result ≡ flow.some_catch_breaks (all_catch i catches.now) }
{
    for catch in catches {
        if breaks(&catch.body) {
            return true;
        }
    }
    false
}

/// Whether the statement can complete normally.
#[cycle(completes)]
#[tactic(auto, using(crate::proofs::WayForms::completing))]
pub fn completes(stmt: &PStmt) -> bool
    ensures { (i : ℕ → ℕ) → result ≡ flow.completes (does i stmt.now) }
{
    match stmt {
        PStmt::Block(stmts) => last_completes(stmts.as_slice()),
        PStmt::If(_, body, other) => completes(body) || else_completes(other),
        PStmt::LockIf(_, body, other) => completes(body) || else_completes(other),
        PStmt::While(test, body) => !is_true(test) || breaks(body),
        PStmt::Try(body, catches) => completes(body) || some_catch_completes(catches.as_slice()),
        PStmt::Return(_) => false,
        PStmt::Break => false,
        PStmt::Continue => false,
        PStmt::Throw(_) => false,
        PStmt::SetLocal(_, _) => true,
        PStmt::SetStatic(_, _, _) => true,
        PStmt::SetField(_, _, _, _) => true,
        PStmt::Eval(_) => true,
        PStmt::LockSet(_, _) => true,
    }
}

#[cycle(completes)]
#[tactic(auto, using(crate::proofs::WayForms::completing_else))]
fn else_completes(other: &Option<Box<PStmt>>) -> bool
    ensures { (i : ℕ → ℕ) → result ≡ flow.else_completes (otherwise i other.now) }
{
    match other {
        None => true,
        Some(stmt) => completes(stmt),
    }
}

#[cycle(completes)]
#[tactic(auto, using(crate::proofs::WayForms::completing_row))]
fn last_completes(stmts: &[PStmt]) -> bool
    ensures { (i : ℕ → ℕ) → result ≡ flow.last_completes true (all_do i stmts.now) }
{
    let mut completes_before = true;
    for stmt in stmts {
        completes_before = completes(stmt);
    }
    completes_before
}

#[cycle(completes)]
#[tactic(auto, using(crate::proofs::WayForms::completing_row))]
fn some_catch_completes(catches: &[PCatch]) -> bool
    ensures { (i : ℕ → ℕ) → result ≡ flow.some_catch_completes (all_catch i catches.now) }
{
    for catch in catches {
        if completes(&catch.body) {
            return true;
        }
    }
    false
}
