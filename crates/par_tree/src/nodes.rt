//! How many nodes a method has.

ghost use Rattle.std.specs.Prelude.{◌≡◌, ◌<◌, ◌^◌};
ghost use Rattle.par_tree.specs.Nodes as count;
ghost use Rattle.par_tree.specs.Shown.{shown, may_shown, receiver, all_shown};
ghost use Rattle.par_tree.specs.Shown.{does, braces, otherwise, may_braces, all_do, all_catch};
ghost use Rattle.par_tree.specs.Shown.{handler};
ghost use Rattle.par_tree.specs.Shown as tree;

use crate::decl::MethodDecl;
use crate::expr::{Expr, ExprKind};
use crate::stmt::{Block, CatchTree, Stmt, StmtKind};

/// The nodes of a method's body: each block, statement, `catch` and expression. A block that is a
/// statement is one node, and the target of an assignment is an expression.
pub fn nodes(method: &MethodDecl) -> u32
    requires { count.method_nodes (tree.method method.now) < 2 ^ 32 }
    ensures { result ≡ count.method_nodes (tree.method method.now) }
{
    in_block(&method.body)
}

#[cycle(stmt)]
#[tactic(auto, using(crate::proofs::Shown::doings), unfolding(crate::specs::Nodes::stmt_nodes))]
fn in_block(block: &Block) -> u32
    requires { count.braces_nodes (braces block.now) < 2 ^ 32 }
    ensures { result ≡ count.braces_nodes (braces block.now) }
{
    1 + in_stmts(block.stmts.as_slice())
}

#[cycle(stmt)]
#[tactic(auto, using(crate::proofs::Shown::doings), unfolding(crate::specs::Nodes::stmt_nodes))]
fn in_stmts(stmts: &[Stmt]) -> u32
    requires { count.all_nodes (all_do stmts.now) < 2 ^ 32 }
    ensures { result ≡ count.all_nodes (all_do stmts.now) }
{
    let mut nodes = 0;
    for stmt in stmts {
        nodes += in_stmt(stmt);
    }
    nodes
}

#[cycle(stmt)]
#[tactic(auto, using(crate::proofs::Shown::doings), unfolding(crate::specs::Nodes::stmt_nodes))]
fn in_stmt(stmt: &Stmt) -> u32
    requires { count.stmt_nodes (does stmt.now) < 2 ^ 32 }
    ensures { result ≡ count.stmt_nodes (does stmt.now) }
{
    match &stmt.kind {
        StmtKind::Block(body) => in_block(body),
        StmtKind::If(test, body, other) => 1 + in_expr(test) + in_block(body) + in_else(other),
        StmtKind::While(test, body) => 1 + in_expr(test) + in_block(body),
        StmtKind::Try(body, catches) => 1 + in_block(body) + in_catches(catches.as_slice()),
        StmtKind::Return(value) => 1 + in_value(value),
        StmtKind::Local(local) => 1 + in_expr(&local.value),
        StmtKind::Assign(target, value) => 1 + in_expr(target) + in_expr(value),
        StmtKind::Call(call) => 1 + in_expr(call),
        StmtKind::When(_, body, other) => 1 + in_block(body) + in_else_block(other),
        StmtKind::Break
        | StmtKind::Continue
        | StmtKind::Throw(_)
        | StmtKind::OpenLock(_)
        | StmtKind::CloseLock(_) => 1,
    }
}

#[cycle(stmt)]
#[tactic(auto, using(crate::proofs::Shown::doings), unfolding(crate::specs::Nodes::stmt_nodes))]
fn in_else(other: &Option<Box<Stmt>>) -> u32
    requires { count.else_nodes (otherwise other.now) < 2 ^ 32 }
    ensures { result ≡ count.else_nodes (otherwise other.now) }
{
    match other {
        None => 0,
        Some(stmt) => in_stmt(stmt),
    }
}

#[cycle(stmt)]
#[tactic(auto, using(crate::proofs::Shown::doings), unfolding(crate::specs::Nodes::stmt_nodes))]
fn in_else_block(other: &Option<Block>) -> u32
    requires { count.may_braces_nodes (may_braces other.now) < 2 ^ 32 }
    ensures { result ≡ count.may_braces_nodes (may_braces other.now) }
{
    match other {
        None => 0,
        Some(block) => in_block(block),
    }
}

#[cycle(stmt)]
#[tactic(auto, using(crate::proofs::Shown::doings), unfolding(crate::specs::Nodes::stmt_nodes))]
fn in_catches(catches: &[CatchTree]) -> u32
    requires { count.catch_nodes (all_catch catches.now) < 2 ^ 32 }
    ensures { result ≡ count.catch_nodes (all_catch catches.now) }
{
    let mut nodes = 0;
    for catch in catches {
        nodes += in_catch(catch);
    }
    nodes
}

#[cycle(stmt)]
#[tactic(auto, using(crate::proofs::Shown::doings), unfolding(crate::specs::Nodes::stmt_nodes))]
fn in_catch(catch: &CatchTree) -> u32
    requires { count.handler_nodes (handler catch.now) < 2 ^ 32 }
    ensures { result ≡ count.handler_nodes (handler catch.now) }
{
    1 + in_block(&catch.body)
}

#[tactic(auto, unfolding(crate::specs::Nodes::nodes))]
fn in_value(value: &Option<Expr>) -> u32
    requires { count.may_nodes (may_shown value.now) < 2 ^ 32 }
    ensures { result ≡ count.may_nodes (may_shown value.now) }
{
    match value {
        None => 0,
        Some(value) => in_expr(value),
    }
}

#[cycle(expr)]
#[tactic(auto, using(crate::proofs::Shown::shows), unfolding(crate::specs::Nodes::nodes))]
fn in_expr(expr: &Expr) -> u32
    requires { count.nodes (shown expr.now) < 2 ^ 32 }
    ensures { result ≡ count.nodes (shown expr.now) }
{
    match &expr.kind {
        ExprKind::Field(of, _) | ExprKind::Neg(of) | ExprKind::Not(of) => 1 + in_expr(of),
        ExprKind::Call(of, _, args) => 1 + in_receiver(of) + in_args(args.as_slice()),
        ExprKind::Binary(_, left, right) => 1 + in_expr(left) + in_expr(right),
        ExprKind::Int(_)
        | ExprKind::True
        | ExprKind::False
        | ExprKind::Null
        | ExprKind::This
        | ExprKind::New(_)
        | ExprKind::Name(_) => 1,
    }
}

#[cycle(expr)]
#[tactic(auto, using(crate::proofs::Shown::shows), unfolding(crate::specs::Nodes::nodes))]
fn in_receiver(of: &Option<Box<Expr>>) -> u32
    requires { count.may_nodes (receiver of.now) < 2 ^ 32 }
    ensures { result ≡ count.may_nodes (receiver of.now) }
{
    match of {
        None => 0,
        Some(of) => in_expr(of),
    }
}

#[cycle(expr)]
#[tactic(auto, using(crate::proofs::Shown::shows), unfolding(crate::specs::Nodes::nodes))]
fn in_args(args: &[Expr]) -> u32
    requires { count.args_nodes (all_shown args.now) < 2 ^ 32 }
    ensures { result ≡ count.args_nodes (all_shown args.now) }
{
    let mut nodes = 0;
    for arg in args {
        nodes += in_expr(arg);
    }
    nodes
}
