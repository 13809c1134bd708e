//! Whether a statement can complete normally.

ghost use Rattle.std.specs.Prelude.{◌≡◌, true};
ghost use Rattle.par_tree.specs.Shown.{shown, does, braces, otherwise, may_braces, all_do};
ghost use Rattle.par_tree.specs.Shown.{all_catch, handler};
ghost use Rattle.par_completes.specs.Completes as tree;

use crate::break_inside::block_breaks;
use par_tree::expr::{Expr, ExprKind};
use par_tree::stmt::{Block, CatchTree, Stmt, StmtKind};

fn is_true(expr: &Expr) -> bool
    ensures { result ≡ tree.is_true (shown expr.now) }
{
    matches!(&expr.kind, ExprKind::True)
}

/// Whether the statement can complete normally.
#[cycle(completes)]
#[tactic(auto, using(crate::proofs::Forms::completing))]
pub fn completes(stmt: &Stmt) -> bool
    ensures { result ≡ tree.completes (does stmt.now) }
{
    match &stmt.kind {
        StmtKind::Block(body) => block_completes(body),
        StmtKind::If(_, body, other) => block_completes(body) || else_completes(other),
        StmtKind::While(test, body) => !is_true(test) || block_breaks(body),
        StmtKind::Try(body, catches) => {
            block_completes(body) || some_catch_completes(catches.as_slice())
        }
        StmtKind::When(_, body, other) => block_completes(body) || may_block_completes(other),
        StmtKind::Return(_) | StmtKind::Break | StmtKind::Continue | StmtKind::Throw(_) => false,
        StmtKind::OpenLock(_)
        | StmtKind::CloseLock(_)
        | StmtKind::Local(_)
        | StmtKind::Assign(_, _)
        | StmtKind::Call(_) => true,
    }
}

#[cycle(completes)]
#[tactic(auto, using(crate::proofs::Forms::completing_part))]
fn else_completes(other: &Option<Box<Stmt>>) -> bool
    ensures { result ≡ tree.else_completes (otherwise other.now) }
{
    match other {
        None => true,
        Some(stmt) => completes(stmt),
    }
}

#[cycle(completes)]
#[tactic(auto, using(crate::proofs::Forms::completing_part))]
fn may_block_completes(other: &Option<Block>) -> bool
    ensures { result ≡ tree.may_braces_complete (may_braces other.now) }
{
    match other {
        None => true,
        Some(block) => block_completes(block),
    }
}

/// Whether the block is empty or its last statement can complete normally.
#[cycle(completes)]
#[tactic(auto, using(crate::proofs::Forms::completing_part))]
pub fn block_completes(block: &Block) -> bool
    ensures { result ≡ tree.braces_complete (braces block.now) }
{
    last_completes(block.stmts.as_slice())
}

#[cycle(completes)]
#[tactic(auto, using(crate::proofs::Forms::completing_row))]
fn last_completes(stmts: &[Stmt]) -> bool
    ensures { result ≡ tree.last_completes true (all_do stmts.now) }
{
    let mut completes_before = true;
    for stmt in stmts {
        completes_before = completes(stmt);
    }
    completes_before
}

#[cycle(completes)]
#[tactic(auto, using(crate::proofs::Forms::completing_row))]
fn some_catch_completes(catches: &[CatchTree]) -> bool
    ensures { result ≡ tree.some_catch_completes (all_catch catches.now) }
{
    for catch in catches {
        if catch_completes(catch) {
            return true;
        }
    }
    false
}

#[cycle(completes)]
#[tactic(auto, using(crate::proofs::Forms::completing_part))]
fn catch_completes(catch: &CatchTree) -> bool
    ensures { result ≡ tree.handler_completes (handler catch.now) }
{
    block_completes(&catch.body)
}
