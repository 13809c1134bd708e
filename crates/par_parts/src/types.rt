// The types of locals.
ghost use Rattle.std.specs.Prelude.{◌≡◌, ◌++◌, flat_map, IfOk, OnOk};
ghost use Rattle.par_tree.specs.Shown.{braces, does};
ghost use Rattle.par_parts.specs.Statements.{in_braces};
ghost use Rattle.par_parts.specs.Written.{stmt_types};
ghost use Rattle.par_parts.specs.Gathered.{statements_of, all_of};

use crate::statements::statements;
use par_base::memory::NoMemory;
use par_tree::stmt::{Block, Stmt, StmtKind};
use par_tree::types::TypeTree;
use std::alloc::Global;

/// The types of the locals that a body declares, in source order.
#[tactic(auto, using(crate::proofs::Pushes::pushes))]
pub fn declared_types(alloc: Global, body: &Block) -> Result<Vec<&TypeTree>, NoMemory>
    ensures { IfOk result (λ found.
        all_of found.items ≡ flat_map stmt_types (in_braces (braces body.now))) }
{
    let stmts = statements(alloc, body)?;
    let mut found = Vec::new(alloc);
    push_types(&mut found, stmts.as_slice())?;
    Ok(found)
}

#[tactic(auto, using(crate::proofs::Pushes::pushes))]
fn push_types<'a>(found: &mut Vec<&'a TypeTree>, items: &[&'a Stmt]) -> Result<(), NoMemory>
    ensures { OnOk result (all_of found.new.items
        ≡ all_of found.old.items ++ flat_map stmt_types (statements_of items.now)) }
{
    for item in items {
        push_type(found, item)?;
    }
    Ok(())
}

#[tactic(auto, using(crate::proofs::Pushes::push), unfolding(crate::specs::Written::stmt_types))]
fn push_type<'a>(found: &mut Vec<&'a TypeTree>, item: &'a Stmt) -> Result<(), NoMemory>
    ensures { OnOk result (all_of found.new.items
        ≡ all_of found.old.items ++ stmt_types (does item.now)) }
{
    match &item.kind {
        StmtKind::Local(local) => {
            found.push(&local.ty)?;
            Ok(())
        }
        StmtKind::Block(_)
        | StmtKind::If(_, _, _)
        | StmtKind::While(_, _)
        | StmtKind::Try(_, _)
        | StmtKind::Return(_)
        | StmtKind::Break
        | StmtKind::Continue
        | StmtKind::Throw(_)
        | StmtKind::OpenLock(_)
        | StmtKind::CloseLock(_)
        | StmtKind::Assign(_, _)
        | StmtKind::Call(_)
        | StmtKind::When(_, _, _) => Ok(()),
    }
}
