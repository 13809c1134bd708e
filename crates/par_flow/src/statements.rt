// The points of statements.
ghost use Rattle.std.specs.Prelude.{◌≡◌, ◌++◌, OnOk};
ghost use Rattle.par_typed.specs.Shown.{all_catch, all_do, does, otherwise};
ghost use Rattle.par_flow.specs.Statements.{catch_points, other_points, points, points_of_all};

use par_base::memory::NoMemory;
use par_typed::stmt::{TCatch, TStmt, TStmtKind};

/// Adds the point of a statement and those of the statements in it.
#[cycle(list_points)]
#[tactic(auto, using(crate::proofs::Points::statements))]
pub fn list_points(s: &TStmt, listed: &mut Vec<u32>) -> Result<(), NoMemory>
    ensures { OnOk result (listed.new.items ≡ listed.old.items ++ points (does s.now)) }
{
    listed.push(s.point)?;
    match &s.kind {
        TStmtKind::Block(body) => list_all(body.as_slice(), listed),
        TStmtKind::If(_, body, other) => {
            list_points(body, listed)?;
            list_other(other, listed)
        }
        TStmtKind::While(_, body) => list_points(body, listed),
        TStmtKind::Try(body, catches) => {
            list_points(body, listed)?;
            list_catches(catches.as_slice(), listed)
        }
        TStmtKind::When(_, body, other) => {
            list_points(body, listed)?;
            list_other(other, listed)
        }
        TStmtKind::Return(_) | TStmtKind::Break | TStmtKind::Continue | TStmtKind::Throw(_) => {
            Ok(())
        }
        TStmtKind::OpenLock(_) | TStmtKind::CloseLock(_) | TStmtKind::Eval(_) => Ok(()),
        TStmtKind::SetLocal(_, _, _) | TStmtKind::SetStatic(_, _, _) => Ok(()),
        TStmtKind::SetField(_, _, _, _) => Ok(()),
    }
}

#[cycle(list_points)]
#[tactic(auto, using(crate::proofs::Points::statements))]
fn list_other(other: &Option<Box<TStmt>>, listed: &mut Vec<u32>) -> Result<(), NoMemory>
    ensures { OnOk result
        (listed.new.items ≡ listed.old.items ++ other_points (otherwise other.now)) }
{
    match other {
        None => Ok(()),
        Some(s) => list_points(s, listed),
    }
}

#[cycle(list_points)]
fn list_all(body: &[TStmt], listed: &mut Vec<u32>) -> Result<(), NoMemory>
    ensures { OnOk result
        (listed.new.items ≡ listed.old.items ++ points_of_all (all_do body.now)) }
{
    for s in body {
        list_points(s, listed)?;
    }
    Ok(())
}

#[cycle(list_points)]
fn list_catches(catches: &[TCatch], listed: &mut Vec<u32>) -> Result<(), NoMemory>
    ensures { OnOk result
        (listed.new.items ≡ listed.old.items ++ catch_points (all_catch catches.now)) }
{
    for catch in catches {
        list_points(&catch.body, listed)?;
    }
    Ok(())
}
