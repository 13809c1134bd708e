//! Which locks some `when` asks for.

ghost use Rattle.std.specs.Prelude.{◌≡◌, IfOk, OnOk};
ghost use Rattle.par_typed.specs.par_policy.Numbers.{has};
ghost use Rattle.par_typed.specs.Shown as typed;
ghost use Rattle.par_erase.specs.Asked.{only, either, asks, else_asks, all_ask, catches_ask};
ghost use Rattle.par_erase.specs.Asked.{asked_in};

use par_base::memory::NoMemory;
use par_typed::par_policy::Lockset;
use par_typed::program::TBody;
use par_typed::stmt::{TCatch, TStmt, TStmtKind};
use std::alloc::Global;

/// The locks that stand in a `when` of any body.
#[tactic(auto, using(crate::proofs::Asks::gathers))]
pub fn asked_in(alloc: Global, bodies: &[TBody]) -> Result<Lockset, NoMemory>
    ensures { IfOk result (λ found. has found ≡ asked_in (typed.bodies bodies.now)) }
{
    let mut found = Lockset::new(alloc);
    for body in bodies {
        gather(&mut found, &body.body)?;
    }
    Ok(found)
}

#[tactic(auto, using(crate::proofs::Asks::joins))]
fn add(found: &mut Lockset, lock: u16) -> Result<(), NoMemory>
    ensures { OnOk result (has found.new ≡ either (has found.old) (only lock)) }
{
    match found.insert(lock) {
        Ok(()) => Ok(()),
        Err(_) => Err(NoMemory),
    }
}

// The locks that a statement asks for are put to those that are found.
#[cycle(asked)]
#[tactic(auto, using(crate::proofs::Asks::gathers))]
fn gather(found: &mut Lockset, stmt: &TStmt) -> Result<(), NoMemory>
    ensures { OnOk result (has found.new ≡ either (has found.old) (asks (typed.does stmt.now))) }
{
    match &stmt.kind {
        TStmtKind::Block(stmts) => gather_all(found, stmts.as_slice()),
        TStmtKind::If(_, body, other) => {
            gather(found, body)?;
            gather_else(found, other)
        }
        TStmtKind::While(_, body) => gather(found, body),
        TStmtKind::Try(body, catches) => {
            gather(found, body)?;
            gather_catches(found, catches.as_slice())
        }
        TStmtKind::When(lock, body, other) => {
            add(found, *lock)?;
            gather(found, body)?;
            gather_else(found, other)
        }
        TStmtKind::Return(_) => Ok(()),
        TStmtKind::Break => Ok(()),
        TStmtKind::Continue => Ok(()),
        TStmtKind::Throw(_) => Ok(()),
        TStmtKind::OpenLock(_) => Ok(()),
        TStmtKind::CloseLock(_) => Ok(()),
        TStmtKind::SetLocal(_, _, _) => Ok(()),
        TStmtKind::SetStatic(_, _, _) => Ok(()),
        TStmtKind::SetField(_, _, _, _) => Ok(()),
        TStmtKind::Eval(_) => Ok(()),
    }
}

#[cycle(asked)]
#[tactic(auto, using(crate::proofs::Asks::elses))]
fn gather_else(found: &mut Lockset, other: &Option<Box<TStmt>>) -> Result<(), NoMemory>
    ensures { OnOk result (has found.new
        ≡ either (has found.old) (else_asks (typed.otherwise other.now))) }
{
    match other {
        None => Ok(()),
        Some(other) => gather(found, other),
    }
}

#[cycle(asked)]
#[tactic(auto, using(crate::proofs::Asks::rows))]
fn gather_all(found: &mut Lockset, stmts: &[TStmt]) -> Result<(), NoMemory>
    ensures { OnOk result (has found.new
        ≡ either (has found.old) (all_ask (typed.all_do stmts.now))) }
{
    for stmt in stmts {
        gather(found, stmt)?;
    }
    Ok(())
}

#[cycle(asked)]
#[tactic(auto, using(crate::proofs::Asks::rows))]
fn gather_catches(found: &mut Lockset, catches: &[TCatch]) -> Result<(), NoMemory>
    ensures { OnOk result (has found.new
        ≡ either (has found.old) (catches_ask (typed.all_catch catches.now))) }
{
    for catch in catches {
        gather(found, &catch.body)?;
    }
    Ok(())
}
