//! Whether a statement is left by a break.

ghost use Rattle.std.specs.Prelude.{◌≡◌};
ghost use Rattle.par_tree.specs.Shown.{does, braces, otherwise, may_braces, all_do, all_catch};
ghost use Rattle.par_tree.specs.Shown.{handler};
ghost use Rattle.par_completes.specs.Completes as tree;

use par_tree::stmt::{Block, CatchTree, Stmt, StmtKind};

/// Whether a break of the loop around the statement is inside.
#[cycle(breaks)]
#[tactic(auto, using(crate::proofs::Forms::breaking))]
pub fn breaks(stmt: &Stmt) -> bool
    ensures { result ≡ tree.breaks (does stmt.now) }
{
    match &stmt.kind {
        StmtKind::Block(body) => block_breaks(body),
        StmtKind::If(_, body, other) => block_breaks(body) || else_breaks(other),
        StmtKind::Try(body, catches) => block_breaks(body) || some_catch_breaks(catches.as_slice()),
        StmtKind::Break => true,
        StmtKind::When(_, body, other) => block_breaks(body) || may_block_breaks(other),
        StmtKind::While(_, _)
        | StmtKind::Return(_)
        | StmtKind::Continue
        | StmtKind::Throw(_)
        | StmtKind::OpenLock(_)
        | StmtKind::CloseLock(_)
        | StmtKind::Local(_)
        | StmtKind::Assign(_, _)
        | StmtKind::Call(_) => false,
    }
}

#[cycle(breaks)]
#[tactic(auto, using(crate::proofs::Forms::breaking_part))]
fn else_breaks(other: &Option<Box<Stmt>>) -> bool
    ensures { result ≡ tree.else_breaks (otherwise other.now) }
{
    match other {
        None => false,
        Some(stmt) => breaks(stmt),
    }
}

#[cycle(breaks)]
#[tactic(auto, using(crate::proofs::Forms::breaking_part))]
fn may_block_breaks(other: &Option<Block>) -> bool
    ensures { result ≡ tree.may_braces_break (may_braces other.now) }
{
    match other {
        None => false,
        Some(block) => block_breaks(block),
    }
}

#[cycle(breaks)]
#[tactic(auto, using(crate::proofs::Forms::breaking_part))]
pub(crate) fn block_breaks(block: &Block) -> bool
    ensures { result ≡ tree.braces_break (braces block.now) }
{
    some_break(block.stmts.as_slice())
}

#[cycle(breaks)]
#[tactic(auto, using(crate::proofs::Forms::breaking_row))]
fn some_break(stmts: &[Stmt]) -> bool
    ensures { result ≡ tree.some_break (all_do stmts.now) }
{
    for stmt in stmts {
        if breaks(stmt) {
            return true;
        }
    }
    false
}

#[cycle(breaks)]
#[tactic(auto, using(crate::proofs::Forms::breaking_row))]
fn some_catch_breaks(catches: &[CatchTree]) -> bool
    ensures { result ≡ tree.some_catch_breaks (all_catch catches.now) }
{
    for catch in catches {
        if catch_breaks(catch) {
            return true;
        }
    }
    false
}

#[cycle(breaks)]
#[tactic(auto, using(crate::proofs::Forms::breaking_part))]
fn catch_breaks(catch: &CatchTree) -> bool
    ensures { result ≡ tree.handler_breaks (handler catch.now) }
{
    block_breaks(&catch.body)
}
