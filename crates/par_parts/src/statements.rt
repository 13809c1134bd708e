// The statements of a body, each with those inside it, in source order.
ghost use Rattle.std.specs.Prelude.{◌≡◌, ◌++◌, IfOk, OnOk};
ghost use Rattle.par_tree.specs.Shown.{does, braces, otherwise, may_braces, all_do};
ghost use Rattle.par_tree.specs.Shown.{all_catch};
ghost use Rattle.par_tree.specs.Shown.{handler};
ghost use Rattle.par_parts.specs.Statements as statement;
ghost use Rattle.par_parts.specs.Gathered.{statements_of};

use par_base::memory::NoMemory;
use par_tree::stmt::{Block, CatchTree, Stmt, StmtKind};
use std::alloc::Global;

/// The statements of a body.
#[tactic(auto, using(crate::proofs::Gathers::gathers))]
pub fn statements(alloc: Global, body: &Block) -> Result<Vec<&Stmt>, NoMemory>
    ensures { IfOk result (λ found.
        statements_of found.items ≡ statement.in_braces (braces body.now)) }
{
    let mut found = Vec::new(alloc);
    in_block(&mut found, body)?;
    Ok(found)
}

#[cycle(stmt)]
#[tactic(auto, using(crate::proofs::Gathers::gathers), unfolding(crate::specs::Statements::inside))]
fn in_block<'a>(found: &mut Vec<&'a Stmt>, block: &'a Block) -> Result<(), NoMemory>
    ensures { OnOk result (statements_of found.new.items
        ≡ statements_of found.old.items ++ statement.in_braces (braces block.now)) }
{
    in_stmts(found, block.stmts.as_slice())
}

#[cycle(stmt)]
#[tactic(auto, using(crate::proofs::Gathers::gathers), unfolding(crate::specs::Statements::inside))]
fn in_stmts<'a>(found: &mut Vec<&'a Stmt>, stmts: &'a [Stmt]) -> Result<(), NoMemory>
    ensures { OnOk result (statements_of found.new.items
        ≡ statements_of found.old.items ++ statement.in_all (all_do stmts.now)) }
{
    for stmt in stmts {
        found.push(stmt)?;
        in_stmt(found, stmt)?;
    }
    Ok(())
}

#[cycle(stmt)]
#[tactic(auto, using(crate::proofs::Gathers::gathers), unfolding(crate::specs::Statements::inside))]
fn in_stmt<'a>(found: &mut Vec<&'a Stmt>, stmt: &'a Stmt) -> Result<(), NoMemory>
    ensures { OnOk result (statements_of found.new.items
        ≡ statements_of found.old.items ++ statement.inside (does stmt.now)) }
{
    match &stmt.kind {
        StmtKind::Block(body) | StmtKind::While(_, body) => in_block(found, body),
        StmtKind::If(_, body, other) => {
            in_block(found, body)?;
            in_else(found, other)
        }
        StmtKind::Try(body, catches) => {
            in_block(found, body)?;
            in_catches(found, catches.as_slice())
        }
        StmtKind::When(_, body, other) => {
            in_block(found, body)?;
            in_else_block(found, other)
        }
        StmtKind::Return(_)
        | StmtKind::Break
        | StmtKind::Continue
        | StmtKind::Throw(_)
        | StmtKind::OpenLock(_)
        | StmtKind::CloseLock(_)
        | StmtKind::Local(_)
        | StmtKind::Assign(_, _)
        | StmtKind::Call(_) => Ok(()),
    }
}

#[cycle(stmt)]
#[tactic(auto, using(crate::proofs::Gathers::gathers), unfolding(crate::specs::Statements::inside))]
fn in_else<'a>(found: &mut Vec<&'a Stmt>, other: &'a Option<Box<Stmt>>) -> Result<(), NoMemory>
    ensures { OnOk result (statements_of found.new.items
        ≡ statements_of found.old.items ++ statement.in_else (otherwise other.now)) }
{
    match other {
        None => Ok(()),
        Some(stmt) => {
            found.push(stmt)?;
            in_stmt(found, stmt)
        }
    }
}

#[cycle(stmt)]
#[tactic(auto, using(crate::proofs::Gathers::gathers), unfolding(crate::specs::Statements::inside))]
fn in_else_block<'a>(found: &mut Vec<&'a Stmt>, other: &'a Option<Block>) -> Result<(), NoMemory>
    ensures { OnOk result (statements_of found.new.items
        ≡ statements_of found.old.items ++ statement.in_may_braces (may_braces other.now)) }
{
    match other {
        None => Ok(()),
        Some(block) => in_block(found, block),
    }
}

#[cycle(stmt)]
#[tactic(auto, using(crate::proofs::Gathers::gathers), unfolding(crate::specs::Statements::inside))]
fn in_catches<'a>(found: &mut Vec<&'a Stmt>, catches: &'a [CatchTree]) -> Result<(), NoMemory>
    ensures { OnOk result (statements_of found.new.items
        ≡ statements_of found.old.items ++ statement.in_catches (all_catch catches.now)) }
{
    for catch in catches {
        in_catch(found, catch)?;
    }
    Ok(())
}

#[cycle(stmt)]
#[tactic(auto, using(crate::proofs::Gathers::gathers), unfolding(crate::specs::Statements::inside))]
fn in_catch<'a>(found: &mut Vec<&'a Stmt>, catch: &'a CatchTree) -> Result<(), NoMemory>
    ensures { OnOk result (statements_of found.new.items
        ≡ statements_of found.old.items ++ statement.in_handler (handler catch.now)) }
{
    in_block(found, &catch.body)
}
