//! Statements without policies, places, points and locks that nothing asks for.

ghost use Rattle.std.specs.Prelude.{◌≡◌, ℕ, IfOk};
ghost use Rattle.par_typed.specs.Shown as typed;
ghost use Rattle.par_erase.specs.Shown as plain;
ghost use Rattle.par_typed.specs.par_policy.Numbers.{has};
ghost use Rattle.par_erase.specs.Erased.{inputs_in, set_if, erased_may, erased_sta};
ghost use Rattle.par_erase.specs.Erased.{erased_else, erased_all, erased_catches};

use crate::expr::PExpr;
use crate::exprs::erase_expr;
use crate::stmt::{PCatch, PStmt};
use par_base::list::List;
use par_base::memory::NoMemory;
use par_typed::expr::TExpr;
use par_typed::par_policy::Lockset;
use par_typed::stmt::{TCatch, TStmt, TStmtKind};
use par_typed::table::Table;
use std::alloc::Global;

/// The value behind `return`, if one is written.
#[tactic(auto, using(crate::proofs::ExprForms::receiver_forms))]
fn erase_value(
    alloc: Global,
    table: &Table,
    value: &Option<TExpr>,
) -> Result<Option<PExpr>, NoMemory>
    ensures { IfOk result (λ o. plain.may_shown (inputs_in table.now) o
        ≡ erased_may table.now (typed.may_shown value.now)) }
{
    match value {
        None => Ok(None),
        Some(value) => {
            let value = erase_expr(alloc, table, value)?;
            Ok(Some(value))
        }
    }
}

/// What is left of a statement.
#[cycle(stmt)]
#[tactic(auto, using(crate::proofs::StmtForms::erases))]
pub fn erase_stmt(
    alloc: Global,
    table: &Table,
    asked: &Lockset,
    stmt: &TStmt,
) -> Result<PStmt, NoMemory>
    ensures { IfOk result (λ s. plain.does (inputs_in table.now) s
        ≡ erased_sta table.now (has asked.now) (typed.does stmt.now)) }
{
    match &stmt.kind {
        TStmtKind::Block(stmts) => {
            let stmts = erase_stmts(alloc, table, asked, stmts.as_slice())?;
            Ok(PStmt::Block(stmts))
        }
        TStmtKind::If(test, body, other) => {
            let body = erase_boxed(alloc, table, asked, body)?;
            let other = erase_else(alloc, table, asked, other)?;
            let test = erase_expr(alloc, table, test)?;
            Ok(PStmt::If(test, body, other))
        }
        TStmtKind::While(test, body) => {
            let body = erase_boxed(alloc, table, asked, body)?;
            let test = erase_expr(alloc, table, test)?;
            Ok(PStmt::While(test, body))
        }
        TStmtKind::Try(body, catches) => {
            let body = erase_boxed(alloc, table, asked, body)?;
            let catches = erase_catches(alloc, table, asked, catches.as_slice())?;
            Ok(PStmt::Try(body, catches))
        }
        TStmtKind::Return(value) => {
            let value = erase_value(alloc, table, value)?;
            Ok(PStmt::Return(value))
        }
        TStmtKind::Break => Ok(PStmt::Break),
        TStmtKind::Continue => Ok(PStmt::Continue),
        TStmtKind::Throw(class) => Ok(PStmt::Throw(*class)),
        TStmtKind::OpenLock(lock) => Ok(set_lock(alloc, asked, *lock, true)),
        TStmtKind::CloseLock(lock) => Ok(set_lock(alloc, asked, *lock, false)),
        TStmtKind::SetLocal(number, _, value) => {
            let value = erase_expr(alloc, table, value)?;
            Ok(PStmt::SetLocal(*number, value))
        }
        TStmtKind::SetStatic(class, field, value) => {
            let value = erase_expr(alloc, table, value)?;
            Ok(PStmt::SetStatic(*class, *field, value))
        }
        TStmtKind::SetField(of, class, field, value) => {
            let of = erase_expr(alloc, table, of)?;
            let value = erase_expr(alloc, table, value)?;
            Ok(PStmt::SetField(of, *class, *field, value))
        }
        TStmtKind::Eval(expr) => {
            let expr = erase_expr(alloc, table, expr)?;
            Ok(PStmt::Eval(expr))
        }
        TStmtKind::When(lock, body, other) => {
            let body = erase_boxed(alloc, table, asked, body)?;
            let other = erase_else(alloc, table, asked, other)?;
            Ok(PStmt::LockIf(*lock, body, other))
        }
    }
}

// A lock is set where some `when` asks for it.
#[tactic(auto, using(crate::proofs::StmtForms::erases))]
fn set_lock(alloc: Global, asked: &Lockset, lock: u16, opens: bool) -> PStmt
    ensures { (inputs : ℕ → ℕ) → plain.does inputs result
        ≡ set_if (has asked.now lock) lock opens }
{
    if asked.has(lock) {
        PStmt::LockSet(lock, opens)
    } else {
        PStmt::Block(List::new(alloc))
    }
}

#[cycle(stmt)]
fn erase_boxed(
    alloc: Global,
    table: &Table,
    asked: &Lockset,
    stmt: &TStmt,
) -> Result<Box<PStmt>, NoMemory>
    ensures { IfOk result (λ b. plain.does (inputs_in table.now) b.value
        ≡ erased_sta table.now (has asked.now) (typed.does stmt.now)) }
{
    let stmt = erase_stmt(alloc, table, asked, stmt)?;
    let boxed = Box::new(alloc, stmt)?;
    Ok(boxed)
}

#[cycle(stmt)]
#[tactic(auto, using(crate::proofs::StmtForms::else_forms))]
fn erase_else(
    alloc: Global,
    table: &Table,
    asked: &Lockset,
    other: &Option<Box<TStmt>>,
) -> Result<Option<Box<PStmt>>, NoMemory>
    ensures { IfOk result (λ o. plain.otherwise (inputs_in table.now) o
        ≡ erased_else table.now (has asked.now) (typed.otherwise other.now)) }
{
    match other {
        None => Ok(None),
        Some(other) => {
            let other = erase_boxed(alloc, table, asked, other)?;
            Ok(Some(other))
        }
    }
}

#[cycle(stmt)]
#[tactic(auto, using(crate::proofs::StmtForms::row_forms))]
fn erase_stmts(
    alloc: Global,
    table: &Table,
    asked: &Lockset,
    stmts: &[TStmt],
) -> Result<List<PStmt>, NoMemory>
    ensures { IfOk result (λ ss. plain.all_do (inputs_in table.now) ss
        ≡ erased_all table.now (has asked.now) (typed.all_do stmts.now)) }
{
    let mut found = List::new(alloc);
    for stmt in stmts {
        let stmt = erase_stmt(alloc, table, asked, stmt)?;
        found.push(stmt)?;
    }
    Ok(found)
}

#[cycle(stmt)]
#[tactic(auto, using(crate::proofs::StmtForms::row_forms))]
fn erase_catches(
    alloc: Global,
    table: &Table,
    asked: &Lockset,
    catches: &[TCatch],
) -> Result<List<PCatch>, NoMemory>
    ensures { IfOk result (λ cs. plain.all_catch (inputs_in table.now) cs
        ≡ erased_catches table.now (has asked.now) (typed.all_catch catches.now)) }
{
    let mut found = List::new(alloc);
    for catch in catches {
        let body = erase_stmt(alloc, table, asked, &catch.body)?;
        found.push(PCatch {
            class: catch.class,
            body,
        })?;
    }
    Ok(found)
}
