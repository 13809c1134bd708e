//! How many locals a method declares.

ghost use Rattle.std.specs.Prelude.{◌≡◌, ◌<◌, ◌^◌};
ghost use Rattle.par_tree.specs.Shown.{does, braces, otherwise, may_braces, all_do, all_catch};
ghost use Rattle.par_tree.specs.Shown.{handler};
ghost use Rattle.par_tree.specs.Shown as tree;
ghost use Rattle.par_scope.specs.Own as count;

use par_tree::decl::MethodDecl;
use par_tree::stmt::{Block, CatchTree, Stmt, StmtKind};

/// The locals that a method declares. Its parameters are none, and neither is what is caught.
pub fn locals(method: &MethodDecl) -> u32
    requires { count.method_locals (tree.method method.now) < 2 ^ 32 }
    ensures { result ≡ count.method_locals (tree.method method.now) }
{
    in_block(&method.body)
}

#[cycle(stmt)]
#[tactic(auto, using(par_tree::proofs::Shown::doings), unfolding(par_scope::specs::Own::locals_in))]
fn in_block(block: &Block) -> u32
    requires { count.braces_locals (braces block.now) < 2 ^ 32 }
    ensures { result ≡ count.braces_locals (braces block.now) }
{
    in_stmts(block.stmts.as_slice())
}

#[cycle(stmt)]
#[tactic(auto, using(par_tree::proofs::Shown::doings), unfolding(par_scope::specs::Own::locals_in))]
fn in_stmts(stmts: &[Stmt]) -> u32
    requires { count.all_locals (all_do stmts.now) < 2 ^ 32 }
    ensures { result ≡ count.all_locals (all_do stmts.now) }
{
    let mut locals = 0;
    for stmt in stmts {
        locals += in_stmt(stmt);
    }
    locals
}

#[cycle(stmt)]
#[tactic(auto, using(par_tree::proofs::Shown::doings), unfolding(par_scope::specs::Own::locals_in))]
fn in_stmt(stmt: &Stmt) -> u32
    requires { count.locals_in (does stmt.now) < 2 ^ 32 }
    ensures { result ≡ count.locals_in (does stmt.now) }
{
    match &stmt.kind {
        StmtKind::Block(body) | StmtKind::While(_, body) => in_block(body),
        StmtKind::If(_, body, other) => in_block(body) + in_else(other),
        StmtKind::Try(body, catches) => in_block(body) + in_catches(catches.as_slice()),
        StmtKind::Local(_) => 1,
        StmtKind::When(_, body, other) => in_block(body) + in_else_block(other),
        StmtKind::Return(_)
        | StmtKind::Break
        | StmtKind::Continue
        | StmtKind::Throw(_)
        | StmtKind::OpenLock(_)
        | StmtKind::CloseLock(_)
        | StmtKind::Assign(_, _)
        | StmtKind::Call(_) => 0,
    }
}

#[cycle(stmt)]
#[tactic(auto, using(par_tree::proofs::Shown::doings), unfolding(par_scope::specs::Own::locals_in))]
fn in_else(other: &Option<Box<Stmt>>) -> u32
    requires { count.else_locals (otherwise other.now) < 2 ^ 32 }
    ensures { result ≡ count.else_locals (otherwise other.now) }
{
    match other {
        None => 0,
        Some(stmt) => in_stmt(stmt),
    }
}

#[cycle(stmt)]
#[tactic(auto, using(par_tree::proofs::Shown::doings), unfolding(par_scope::specs::Own::locals_in))]
fn in_else_block(other: &Option<Block>) -> u32
    requires { count.may_braces_locals (may_braces other.now) < 2 ^ 32 }
    ensures { result ≡ count.may_braces_locals (may_braces other.now) }
{
    match other {
        None => 0,
        Some(block) => in_block(block),
    }
}

#[cycle(stmt)]
#[tactic(auto, using(par_tree::proofs::Shown::doings), unfolding(par_scope::specs::Own::locals_in))]
fn in_catches(catches: &[CatchTree]) -> u32
    requires { count.catches_locals (all_catch catches.now) < 2 ^ 32 }
    ensures { result ≡ count.catches_locals (all_catch catches.now) }
{
    let mut locals = 0;
    for catch in catches {
        locals += in_catch(catch);
    }
    locals
}

#[cycle(stmt)]
#[tactic(auto, using(par_tree::proofs::Shown::doings), unfolding(par_scope::specs::Own::locals_in))]
fn in_catch(catch: &CatchTree) -> u32
    requires { count.handler_locals (handler catch.now) < 2 ^ 32 }
    ensures { result ≡ count.handler_locals (handler catch.now) }
{
    in_block(&catch.body)
}
