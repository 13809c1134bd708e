// The locks that a program asks for.
ghost use Rattle.std.specs.Prelude.{◌≡◌, ◌++◌, flat_map, IfOk, OnOk};
ghost use Rattle.par_tree.specs.Shown.{source, declared, method, methods, does};
ghost use Rattle.par_parts.specs.Written as queries;
ghost use Rattle.par_parts.specs.Gathered.{statements_of, all_of};

use crate::statements::statements;
use par_base::memory::NoMemory;
use par_tree::decl::{Decl, MethodDecl, Program};
use par_tree::policy::LockTree;
use par_tree::stmt::{Stmt, StmtKind};
use std::alloc::Global;

/// Every lock that a `when` of a program asks for.
#[tactic(auto, using(crate::proofs::Pushes::pushes))]
pub fn queried(alloc: Global, program: &Program) -> Result<Vec<&LockTree>, NoMemory>
    ensures { IfOk result (λ found. all_of found.items ≡ queries.queried (source program.now)) }
{
    let mut found = Vec::new(alloc);
    for decl in program.decls.as_slice() {
        push_declaration(alloc, &mut found, decl)?;
    }
    Ok(found)
}

#[tactic(auto, using(crate::proofs::Pushes::pushes))]
fn push_declaration<'a>(
    alloc: Global,
    found: &mut Vec<&'a LockTree>,
    decl: &'a Decl,
) -> Result<(), NoMemory>
    ensures { OnOk result (all_of found.new.items
        ≡ all_of found.old.items ++ queries.declaration_queries (declared decl.now)) }
{
    match decl {
        Decl::Actors(_) | Decl::Lock(_) | Decl::Policy(_) => Ok(()),
        Decl::Class(class) => push_methods(alloc, found, class.methods.as_slice()),
    }
}

#[tactic(auto, using(crate::proofs::Pushes::pushes))]
fn push_methods<'a>(
    alloc: Global,
    found: &mut Vec<&'a LockTree>,
    items: &'a [MethodDecl],
) -> Result<(), NoMemory>
    ensures { OnOk result (all_of found.new.items
        ≡ all_of found.old.items ++ flat_map queries.method_queries (methods items.now)) }
{
    for item in items {
        push_method(alloc, found, item)?;
    }
    Ok(())
}

#[tactic(auto, using(crate::proofs::Pushes::pushes))]
fn push_method<'a>(
    alloc: Global,
    found: &mut Vec<&'a LockTree>,
    item: &'a MethodDecl,
) -> Result<(), NoMemory>
    ensures { OnOk result (all_of found.new.items
        ≡ all_of found.old.items ++ queries.method_queries (method item.now)) }
{
    let body = statements(alloc, &item.body)?;
    push_queries(found, body.as_slice())
}

#[tactic(auto, using(crate::proofs::Pushes::pushes))]
fn push_queries<'a>(found: &mut Vec<&'a LockTree>, items: &[&'a Stmt]) -> Result<(), NoMemory>
    ensures { OnOk result (all_of found.new.items
        ≡ all_of found.old.items ++ flat_map queries.stmt_queries (statements_of items.now)) }
{
    for item in items {
        push_query(found, item)?;
    }
    Ok(())
}

#[tactic(auto, using(crate::proofs::Pushes::push), unfolding(crate::specs::Written::stmt_queries))]
fn push_query<'a>(found: &mut Vec<&'a LockTree>, item: &'a Stmt) -> Result<(), NoMemory>
    ensures { OnOk result (all_of found.new.items
        ≡ all_of found.old.items ++ queries.stmt_queries (does item.now)) }
{
    match &item.kind {
        StmtKind::When(lock, _, _) => {
            found.push(lock)?;
            Ok(())
        }
        StmtKind::Block(_)
        | StmtKind::If(_, _, _)
        | StmtKind::While(_, _)
        | StmtKind::Try(_, _)
        | StmtKind::Return(_)
        | StmtKind::Break
        | StmtKind::Continue
        | StmtKind::Throw(_)
        | StmtKind::OpenLock(_)
        | StmtKind::CloseLock(_)
        | StmtKind::Local(_)
        | StmtKind::Assign(_, _)
        | StmtKind::Call(_) => Ok(()),
    }
}
