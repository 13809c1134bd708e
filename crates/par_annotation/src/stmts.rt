//! Typed statements.

ghost use Rattle.std.specs.Prelude.{◌≡◌, ◌+◌, ◌*◌, ◌<◌, ◌≤◌, ◌^◌, IfOk, OnOk};
ghost use Rattle.par_tree.specs.declared.stmt.StmtKind.TheVariants as form;
ghost use Rattle.par_tree.specs.Plain as source;
ghost use Rattle.par_tree.specs.Shown as tree;
ghost use Rattle.par_tree.specs.Nodes as tree_nodes;
ghost use Rattle.par_typed.specs.declared.stmt.TStmtKind.TheVariants as variant;
ghost use Rattle.par_typed.specs.Plain as plain;
ghost use Rattle.par_typed.specs.Shown as typed;
ghost use Rattle.par_typed.specs.Nodes as count;
ghost use Rattle.par_scope.specs.Home.{seen, class_named};
ghost use Rattle.par_type_rules.specs.Stmts.{slot_of};
ghost use Rattle.par_type_rules.specs.Frames.{further};
ghost use Rattle.par_type_rules.specs.TypedExprs.{numbered, typed_exp, typed_may};
ghost use Rattle.par_type_rules.specs.TypedStmts as is;
ghost use Rattle.par_scope.specs.Own as own;
ghost use Rattle.par_annotation.specs.Ints as no;
ghost use Rattle.par_annotation.specs.Keeps.{Keeps};
ghost use Rattle.par_annotation.specs.Seen.{frame_seen};
ghost use Rattle.par_annotation.specs.Numbers.{written_by};

use crate::exprs::type_expr;
use crate::frame::Frame;
use crate::node::{numbered, take_point};
use crate::targets::{assignment, type_target};
use crate::written::Numbering;
use par_base::list::List;
use par_base::memory::NoMemory;
use par_scope::home::{Home, type_written};
use par_scope::locals::Slot;
use par_tree::expr::Expr;
use par_tree::ident::Ident;
use par_tree::policy::{LockTree, PolicyExpr};
use par_tree::stmt::{Block, CatchTree, LocalDecl, Stmt, StmtKind};
use par_typed::expr::TExpr;
use par_typed::stmt::{TCatch, TStmt, TStmtKind};
use std::alloc::Global;

fn slot_of(home: &Home<'_>, decl: &LocalDecl) -> Slot
    ensures { result ≡ slot_of (seen home.now) (tree.local decl.now) }
{
    Slot {
        ty: type_written(home.names, &decl.ty),
        notnull: decl.notnull,
    }
}

fn may_policy(
    alloc: Global,
    numbering: &Numbering<'_>,
    policy: &Option<PolicyExpr>,
) -> Result<Option<u16>, NoMemory>
    ensures { IfOk result (λ n. n ≡ is.may_policy (written_by numbering.now) policy.now) }
{
    match policy {
        None => Ok(None),
        Some(policy) => {
            let number = numbering.policy(alloc, policy)?;
            Ok(Some(number))
        }
    }
}

// The value behind `return`, if one is written.
#[tactic(auto, using(crate::proofs::ExprFamilies::receiver_forms))]
fn type_value(
    alloc: Global,
    home: &Home<'_>,
    frame: &Frame<'_>,
    next: &mut u32,
    value: &Option<Expr>,
) -> Result<Option<TExpr>, NoMemory>
    requires room { next.old + 2 * tree_nodes.may_nodes (tree.may_shown value.now) < 2 ^ 32 }
    requires ints { no.may_no_ints (tree.may_shown value.now) ≡ 0 }
    ensures made { IfOk result (λ o. typed.may_shown o
        ≡ typed_may (seen home.now) (frame_seen frame.now) next.old (tree.may_shown value.now)) }
    ensures counted { IfOk result (λ o.
        next.new ≡ next.old + count.may_nodes (typed.may_shown o)) }
    ensures small { OnOk result (
        next.new ≤ next.old + 2 * tree_nodes.may_nodes (tree.may_shown value.now)) }
{
    match value {
        None => Ok(None),
        Some(value) => {
            let found = type_expr(alloc, home, frame, next, value)?;
            Ok(Some(found.expr))
        }
    }
}

// A statement that is one node, at this place.
fn single(kind: TStmtKind, at: u32, next: &mut u32) -> TStmt
    requires { next.old + 1 < 2 ^ 32 }
    ensures made { typed.does result ≡ typed.does_at kind at next.old }
    ensures counted { next.new ≡ next.old + 1 }
{
    let point = take_point(next);
    TStmt { kind, at, point }
}

// A `return` at this place.
#[tactic(auto, using(crate::proofs::StmtFamilies::return_forms))]
fn type_return(
    alloc: Global,
    home: &Home<'_>,
    frame: &Frame<'_>,
    next: &mut u32,
    value: &Option<Expr>,
    at: u32,
) -> Result<TStmt, NoMemory>
    requires room { next.old + 2 + 2 * tree_nodes.may_nodes (tree.may_shown value.now) < 2 ^ 32 }
    requires ints { no.may_no_ints (tree.may_shown value.now) ≡ 0 }
    ensures made { IfOk result (λ t. typed.does t
        ≡ plain.Return (typed_may (seen home.now) (frame_seen frame.now) (next.old + 1)
        (tree.may_shown value.now)) at next.old) }
    ensures counted { IfOk result (λ t.
        next.new ≡ next.old + count.stmt_nodes (typed.does t)) }
    ensures small { OnOk result (
        next.new ≤ next.old + 2 + 2 * tree_nodes.may_nodes (tree.may_shown value.now)) }
{
    let point = take_point(next);
    let value = type_value(alloc, home, frame, next, value)?;
    let kind = TStmtKind::Return(value);
    Ok(TStmt { kind, at, point })
}

// A call as a statement, at this place.
#[tactic(auto, using(crate::proofs::StmtFamilies::eval_forms))]
fn type_eval(
    alloc: Global,
    home: &Home<'_>,
    frame: &Frame<'_>,
    next: &mut u32,
    call: &Expr,
    at: u32,
) -> Result<TStmt, NoMemory>
    requires room { next.old + 2 + 2 * tree_nodes.nodes (tree.shown call.now) < 2 ^ 32 }
    requires ints { no.no_ints (tree.shown call.now) ≡ 0 }
    ensures made { IfOk result (λ t. typed.does t
        ≡ plain.Eval (typed_exp (seen home.now) (frame_seen frame.now) (next.old + 1)
        (tree.shown call.now)) at next.old) }
    ensures counted { IfOk result (λ t.
        next.new ≡ next.old + count.stmt_nodes (typed.does t)) }
    ensures small { OnOk result (
        next.new ≤ next.old + 2 + 2 * tree_nodes.nodes (tree.shown call.now)) }
{
    let point = take_point(next);
    let call = type_expr(alloc, home, frame, next, call)?;
    let kind = TStmtKind::Eval(call.expr);
    Ok(TStmt { kind, at, point })
}

// An assignment at this place.
#[tactic(auto, using(crate::proofs::StmtFamilies::assign_forms))]
fn type_assign(
    alloc: Global,
    home: &Home<'_>,
    frame: &Frame<'_>,
    next: &mut u32,
    target: &Expr,
    value: &Expr,
    at: u32,
) -> Result<TStmt, NoMemory>
    requires room { next.old + 2 + 2 * tree_nodes.nodes (tree.shown target.now)
        + 2 * tree_nodes.nodes (tree.shown value.now) < 2 ^ 32 }
    requires ints { no.no_ints (tree.shown target.now) + no.no_ints (tree.shown value.now) ≡ 0 }
    ensures made { IfOk result (λ t. typed.does t
        ≡ is.assignment (is.target (seen home.now) (frame_seen frame.now) (next.old + 1)
        (tree.shown target.now))
        (typed_exp (seen home.now) (frame_seen frame.now) (next.old + 1 + is.target_nodes
        (is.target (seen home.now) (frame_seen frame.now) (next.old + 1)
        (tree.shown target.now))) (tree.shown value.now)) at next.old) }
    ensures counted { IfOk result (λ t.
        next.new ≡ next.old + count.stmt_nodes (typed.does t)) }
    ensures small { OnOk result (next.new ≤ next.old + 2
        + 2 * tree_nodes.nodes (tree.shown target.now)
        + 2 * tree_nodes.nodes (tree.shown value.now)) }
{
    let point = take_point(next);
    let target = type_target(alloc, home, frame, next, target)?;
    let value = type_expr(alloc, home, frame, next, value)?;
    Ok(assignment(target, value.expr, at, point))
}

// The declaration of a local, which comes into scope, at this place.
#[tactic(auto, using(crate::proofs::StmtFamilies::local_forms))]
fn type_local<'a>(
    alloc: Global,
    home: &Home<'_>,
    numbering: &Numbering<'_>,
    frame: &mut Frame<'a>,
    next: &mut u32,
    decl: &'a LocalDecl,
    at: u32,
) -> Result<TStmt, NoMemory>
    requires room { next.old + 2 + 2 * tree_nodes.nodes (tree.local decl.now).value < 2 ^ 32 }
    requires locals { frame.old.next + 1 < 2 ^ 16 }
    requires ints { no.no_ints (tree.local decl.now).value ≡ 0 }
    ensures made { IfOk result (λ t. typed.does t
        ≡ is.typed_sta (written_by numbering.now) (seen home.now) (frame_seen frame.old)
        next.old (source.Declare (tree.local decl.now) at)) }
    ensures behind { OnOk result (frame_seen frame.new
        ≡ is.behind (written_by numbering.now) (seen home.now)
        (source.Declare (tree.local decl.now) at) (frame_seen frame.old)) }
    ensures counted { IfOk result (λ t.
        next.new ≡ next.old + count.stmt_nodes (typed.does t)) }
    ensures small { OnOk result (
        next.new ≤ next.old + 2 + 2 * tree_nodes.nodes (tree.local decl.now).value) }
{
    let point = take_point(next);
    let policy = may_policy(alloc, numbering, &decl.policy)?;
    let value = type_expr(alloc, home, frame, next, &decl.value)?;
    let number = frame.next;
    frame.declare(&decl.id.name, slot_of(home, decl), policy)?;
    let kind = TStmtKind::SetLocal(number, policy, value.expr);
    Ok(TStmt { kind, at, point })
}

fn thrown(home: &Home<'_>, class: &Ident) -> TStmtKind
    ensures { result ≡ variant.Throw (numbered (class_named (seen home.now).names class.now.name)) }
{
    TStmtKind::Throw(numbered(home.names.class(&class.name)))
}

/// The typed statement, whose points begin at the next one. A local that it declares comes into
/// scope.
#[cycle(stmt)]
fn type_stmt<'a>(
    alloc: Global,
    home: &Home<'_>,
    numbering: &Numbering<'_>,
    frame: &mut Frame<'a>,
    next: &mut u32,
    stmt: &'a Stmt,
) -> Result<TStmt, NoMemory>
    requires room { next.old + 2 * tree_nodes.stmt_nodes (tree.does stmt.now) < 2 ^ 32 }
    requires locals { frame.old.next + own.locals_in (tree.does stmt.now) < 2 ^ 16 }
    requires ints { no.stmt_no_ints (tree.does stmt.now) ≡ 0 }
    ensures made { IfOk result (λ t. typed.does t
        ≡ is.typed_sta (written_by numbering.now) (seen home.now) (frame_seen frame.old)
        next.old (tree.does stmt.now)) }
    ensures behind { OnOk result (frame_seen frame.new
        ≡ is.behind (written_by numbering.now) (seen home.now) (tree.does stmt.now)
        (frame_seen frame.old)) }
    ensures counted { IfOk result (λ t.
        next.new ≡ next.old + count.stmt_nodes (typed.does t)) }
    ensures small { OnOk result (
        next.new ≤ next.old + 2 * tree_nodes.stmt_nodes (tree.does stmt.now)) }
{
    let at = stmt.at;
    match &stmt.kind {
        StmtKind::Block(body) => type_block(alloc, home, numbering, frame, next, body),
        StmtKind::If(test, body, other) => {
            type_if(alloc, home, numbering, frame, next, stmt, test, body, other)
        }
        StmtKind::While(test, body) => {
            type_while(alloc, home, numbering, frame, next, stmt, test, body)
        }
        StmtKind::Try(body, catches) => {
            type_try(alloc, home, numbering, frame, next, stmt, body, catches)
        }
        StmtKind::Return(value) => type_return(alloc, home, frame, next, value, at),
        StmtKind::Break => Ok(single(TStmtKind::Break, at, next)),
        StmtKind::Continue => Ok(single(TStmtKind::Continue, at, next)),
        StmtKind::Throw(class) => Ok(single(thrown(home, class), at, next)),
        StmtKind::OpenLock(lock) => Ok(single(TStmtKind::OpenLock(numbering.lock(lock)), at, next)),
        StmtKind::CloseLock(lock) => {
            Ok(single(TStmtKind::CloseLock(numbering.lock(lock)), at, next))
        }
        StmtKind::Local(decl) => type_local(alloc, home, numbering, frame, next, decl, at),
        StmtKind::Assign(target, value) => type_assign(alloc, home, frame, next, target, value, at),
        StmtKind::Call(call) => type_eval(alloc, home, frame, next, call, at),
        StmtKind::When(lock, body, other) => {
            type_when(alloc, home, numbering, frame, next, stmt, lock, body, other)
        }
    }
}

// An `if` of these parts.
#[cycle(stmt)]
#[tactic(auto, using(crate::proofs::StmtFamilies::if_forms))]
fn type_if<'a>(
    alloc: Global,
    home: &Home<'_>,
    numbering: &Numbering<'_>,
    frame: &mut Frame<'a>,
    next: &mut u32,
    stmt: &'a Stmt,
    test: &Expr,
    body: &'a Block,
    other: &'a Option<Box<Stmt>>,
) -> Result<TStmt, NoMemory>
    requires is { stmt.now.kind ≡ form.If test.now body.now other.now }
    requires room { next.old + 2 * tree_nodes.stmt_nodes (tree.does stmt.now) < 2 ^ 32 }
    requires locals { frame.old.next + own.locals_in (tree.does stmt.now) < 2 ^ 16 }
    requires ints { no.stmt_no_ints (tree.does stmt.now) ≡ 0 }
    ensures made { IfOk result (λ t. typed.does t
        ≡ is.typed_sta (written_by numbering.now) (seen home.now) (frame_seen frame.old)
        next.old (tree.does stmt.now)) }
    ensures behind { OnOk result (frame_seen frame.new
        ≡ is.behind (written_by numbering.now) (seen home.now) (tree.does stmt.now)
        (frame_seen frame.old)) }
    ensures counted { IfOk result (λ t.
        next.new ≡ next.old + count.stmt_nodes (typed.does t)) }
    ensures small { OnOk result (
        next.new ≤ next.old + 2 * tree_nodes.stmt_nodes (tree.does stmt.now)) }
{
    let point = take_point(next);
    let test = type_expr(alloc, home, frame, next, test)?;
    let body = type_block(alloc, home, numbering, frame, next, body)?;
    let body = Box::new(alloc, body)?;
    let other = type_else(alloc, home, numbering, frame, next, other)?;
    Ok(TStmt {
        kind: TStmtKind::If(test.expr, body, other),
        at: stmt.at,
        point,
    })
}

// A `while` of these parts.
#[cycle(stmt)]
#[tactic(auto, using(crate::proofs::StmtFamilies::while_forms))]
fn type_while<'a>(
    alloc: Global,
    home: &Home<'_>,
    numbering: &Numbering<'_>,
    frame: &mut Frame<'a>,
    next: &mut u32,
    stmt: &'a Stmt,
    test: &Expr,
    body: &'a Block,
) -> Result<TStmt, NoMemory>
    requires is { stmt.now.kind ≡ form.While test.now body.now }
    requires room { next.old + 2 * tree_nodes.stmt_nodes (tree.does stmt.now) < 2 ^ 32 }
    requires locals { frame.old.next + own.locals_in (tree.does stmt.now) < 2 ^ 16 }
    requires ints { no.stmt_no_ints (tree.does stmt.now) ≡ 0 }
    ensures made { IfOk result (λ t. typed.does t
        ≡ is.typed_sta (written_by numbering.now) (seen home.now) (frame_seen frame.old)
        next.old (tree.does stmt.now)) }
    ensures behind { OnOk result (frame_seen frame.new
        ≡ is.behind (written_by numbering.now) (seen home.now) (tree.does stmt.now)
        (frame_seen frame.old)) }
    ensures counted { IfOk result (λ t.
        next.new ≡ next.old + count.stmt_nodes (typed.does t)) }
    ensures small { OnOk result (
        next.new ≤ next.old + 2 * tree_nodes.stmt_nodes (tree.does stmt.now)) }
{
    let point = take_point(next);
    let test = type_expr(alloc, home, frame, next, test)?;
    let body = type_block(alloc, home, numbering, frame, next, body)?;
    let body = Box::new(alloc, body)?;
    Ok(TStmt {
        kind: TStmtKind::While(test.expr, body),
        at: stmt.at,
        point,
    })
}

// A `try` of these parts.
#[cycle(stmt)]
#[tactic(auto, using(crate::proofs::StmtFamilies::try_forms))]
fn type_try<'a>(
    alloc: Global,
    home: &Home<'_>,
    numbering: &Numbering<'_>,
    frame: &mut Frame<'a>,
    next: &mut u32,
    stmt: &'a Stmt,
    body: &'a Block,
    catches: &'a List<CatchTree>,
) -> Result<TStmt, NoMemory>
    requires is { stmt.now.kind ≡ form.Try body.now catches.now }
    requires room { next.old + 2 * tree_nodes.stmt_nodes (tree.does stmt.now) < 2 ^ 32 }
    requires locals { frame.old.next + own.locals_in (tree.does stmt.now) < 2 ^ 16 }
    requires ints { no.stmt_no_ints (tree.does stmt.now) ≡ 0 }
    ensures made { IfOk result (λ t. typed.does t
        ≡ is.typed_sta (written_by numbering.now) (seen home.now) (frame_seen frame.old)
        next.old (tree.does stmt.now)) }
    ensures behind { OnOk result (frame_seen frame.new
        ≡ is.behind (written_by numbering.now) (seen home.now) (tree.does stmt.now)
        (frame_seen frame.old)) }
    ensures counted { IfOk result (λ t.
        next.new ≡ next.old + count.stmt_nodes (typed.does t)) }
    ensures small { OnOk result (
        next.new ≤ next.old + 2 * tree_nodes.stmt_nodes (tree.does stmt.now)) }
{
    let point = take_point(next);
    let body = type_block(alloc, home, numbering, frame, next, body)?;
    let body = Box::new(alloc, body)?;
    let catches = catches.as_slice();
    let catches = type_catches(alloc, home, numbering, frame, next, catches)?;
    Ok(TStmt {
        kind: TStmtKind::Try(body, catches),
        at: stmt.at,
        point,
    })
}

// A `when` of these parts.
#[cycle(stmt)]
#[tactic(auto, using(crate::proofs::StmtFamilies::when_forms))]
fn type_when<'a>(
    alloc: Global,
    home: &Home<'_>,
    numbering: &Numbering<'_>,
    frame: &mut Frame<'a>,
    next: &mut u32,
    stmt: &'a Stmt,
    lock: &LockTree,
    body: &'a Block,
    other: &'a Option<Block>,
) -> Result<TStmt, NoMemory>
    requires is { stmt.now.kind ≡ form.When lock.now body.now other.now }
    requires room { next.old + 2 * tree_nodes.stmt_nodes (tree.does stmt.now) < 2 ^ 32 }
    requires locals { frame.old.next + own.locals_in (tree.does stmt.now) < 2 ^ 16 }
    requires ints { no.stmt_no_ints (tree.does stmt.now) ≡ 0 }
    ensures made { IfOk result (λ t. typed.does t
        ≡ is.typed_sta (written_by numbering.now) (seen home.now) (frame_seen frame.old)
        next.old (tree.does stmt.now)) }
    ensures behind { OnOk result (frame_seen frame.new
        ≡ is.behind (written_by numbering.now) (seen home.now) (tree.does stmt.now)
        (frame_seen frame.old)) }
    ensures counted { IfOk result (λ t.
        next.new ≡ next.old + count.stmt_nodes (typed.does t)) }
    ensures small { OnOk result (
        next.new ≤ next.old + 2 * tree_nodes.stmt_nodes (tree.does stmt.now)) }
{
    let point = take_point(next);
    let lock = numbering.lock(lock);
    let body = type_block(alloc, home, numbering, frame, next, body)?;
    let body = Box::new(alloc, body)?;
    let other = type_may_block(alloc, home, numbering, frame, next, other)?;
    Ok(TStmt {
        kind: TStmtKind::When(lock, body, other),
        at: stmt.at,
        point,
    })
}

// What stands behind `else`. Its locals leave the scope.
#[cycle(stmt)]
#[tactic(auto, using(crate::proofs::StmtFamilies::else_forms))]
fn type_else<'a>(
    alloc: Global,
    home: &Home<'_>,
    numbering: &Numbering<'_>,
    frame: &mut Frame<'a>,
    next: &mut u32,
    other: &'a Option<Box<Stmt>>,
) -> Result<Option<Box<TStmt>>, NoMemory>
    requires room { next.old + 2 * tree_nodes.else_nodes (tree.otherwise other.now) < 2 ^ 32 }
    requires locals { frame.old.next + own.else_locals (tree.otherwise other.now) < 2 ^ 16 }
    requires ints { no.else_no_ints (tree.otherwise other.now) ≡ 0 }
    ensures made { IfOk result (λ o. typed.otherwise o
        ≡ is.typed_else (written_by numbering.now) (seen home.now) (frame_seen frame.old)
        next.old (tree.otherwise other.now)) }
    ensures behind { OnOk result (frame_seen frame.new
        ≡ further (frame_seen frame.old) (own.else_locals (tree.otherwise other.now))) }
    ensures counted { IfOk result (λ o.
        next.new ≡ next.old + count.else_nodes (typed.otherwise o)) }
    ensures small { OnOk result (
        next.new ≤ next.old + 2 * tree_nodes.else_nodes (tree.otherwise other.now)) }
{
    match other {
        None => Ok(None),
        Some(stmt) => {
            let locals = frame.locals.len();
            let outside = frame.vars.len();
            let made = type_stmt(alloc, home, numbering, frame, next, stmt)?;
            frame.locals.truncate(locals);
            frame.vars.truncate(outside);
            let made = Box::new(alloc, made)?;
            Ok(Some(made))
        }
    }
}

// What is done where the lock of a `when` is closed.
#[cycle(stmt)]
#[tactic(auto, using(crate::proofs::StmtFamilies::may_block_forms))]
fn type_may_block<'a>(
    alloc: Global,
    home: &Home<'_>,
    numbering: &Numbering<'_>,
    frame: &mut Frame<'a>,
    next: &mut u32,
    other: &'a Option<Block>,
) -> Result<Option<Box<TStmt>>, NoMemory>
    requires room { next.old + 2 * tree_nodes.may_braces_nodes (tree.may_braces other.now)
        < 2 ^ 32 }
    requires locals { frame.old.next + own.may_braces_locals (tree.may_braces other.now) < 2 ^ 16 }
    requires ints { no.may_braces_no_ints (tree.may_braces other.now) ≡ 0 }
    ensures made { IfOk result (λ o. typed.otherwise o
        ≡ is.typed_may_braces (written_by numbering.now) (seen home.now) (frame_seen frame.old)
        next.old (tree.may_braces other.now)) }
    ensures behind { OnOk result (frame_seen frame.new
        ≡ further (frame_seen frame.old) (own.may_braces_locals (tree.may_braces other.now))) }
    ensures counted { IfOk result (λ o.
        next.new ≡ next.old + count.else_nodes (typed.otherwise o)) }
    ensures small { OnOk result (
        next.new ≤ next.old + 2 * tree_nodes.may_braces_nodes (tree.may_braces other.now)) }
{
    match other {
        None => Ok(None),
        Some(body) => {
            let made = type_block(alloc, home, numbering, frame, next, body)?;
            let made = Box::new(alloc, made)?;
            Ok(Some(made))
        }
    }
}

/// The typed block, whose points begin at the next one. Its locals leave the scope, and keep their
/// numbers.
#[cycle(stmt)]
#[tactic(auto, using(crate::proofs::StmtFamilies::block_forms))]
pub(crate) fn type_block<'a>(
    alloc: Global,
    home: &Home<'_>,
    numbering: &Numbering<'_>,
    frame: &mut Frame<'a>,
    next: &mut u32,
    block: &'a Block,
) -> Result<TStmt, NoMemory>
    requires room { next.old + 2 * tree_nodes.braces_nodes (tree.braces block.now) < 2 ^ 32 }
    requires locals { frame.old.next + own.braces_locals (tree.braces block.now) < 2 ^ 16 }
    requires ints { no.braces_no_ints (tree.braces block.now) ≡ 0 }
    ensures made { IfOk result (λ t. typed.does t
        ≡ is.typed_braces (written_by numbering.now) (seen home.now) (frame_seen frame.old)
        next.old (tree.braces block.now)) }
    ensures behind { OnOk result (frame_seen frame.new
        ≡ further (frame_seen frame.old) (own.braces_locals (tree.braces block.now))) }
    ensures counted { IfOk result (λ t.
        next.new ≡ next.old + count.stmt_nodes (typed.does t)) }
    ensures small { OnOk result (
        next.new ≤ next.old + 2 * tree_nodes.braces_nodes (tree.braces block.now)) }
{
    let point = *next;
    *next += 1;
    let outside = frame.locals.len();
    let vars = frame.vars.len();
    let stmts = block.stmts.as_slice();
    let stmts = type_stmts(alloc, home, numbering, frame, next, stmts)?;
    frame.locals.truncate(outside);
    frame.vars.truncate(vars);
    Ok(TStmt {
        kind: TStmtKind::Block(stmts),
        at: block.at,
        point,
    })
}

// The typed statements of a block, whose locals stay in scope.
#[cycle(stmt)]
#[tactic(auto, using(crate::proofs::StmtFamilies::row_forms))]
fn type_stmts<'a>(
    alloc: Global,
    home: &Home<'_>,
    numbering: &Numbering<'_>,
    frame: &mut Frame<'a>,
    next: &mut u32,
    stmts: &'a [Stmt],
) -> Result<List<TStmt>, NoMemory>
    requires room { next.old + 2 * tree_nodes.all_nodes (tree.all_do stmts.now) < 2 ^ 32 }
    requires locals { frame.old.next + own.all_locals (tree.all_do stmts.now) < 2 ^ 16 }
    requires ints { no.all_no_ints (tree.all_do stmts.now) ≡ 0 }
    ensures made { IfOk result (λ ts. typed.all_do ts
        ≡ is.typed_stas (written_by numbering.now) (seen home.now) (frame_seen frame.old)
        next.old (tree.all_do stmts.now)) }
    ensures kept { OnOk result (Keeps (frame_seen frame.old)
        (own.all_locals (tree.all_do stmts.now)) (frame_seen frame.new)) }
    ensures counted { IfOk result (λ ts.
        next.new ≡ next.old + count.all_nodes (typed.all_do ts)) }
    ensures small { OnOk result (
        next.new ≤ next.old + 2 * tree_nodes.all_nodes (tree.all_do stmts.now)) }
{
    let mut found = List::new(alloc);
    for stmt in stmts {
        let made = type_stmt(alloc, home, numbering, frame, next, stmt)?;
        found.push(made)?;
    }
    Ok(found)
}

// What is done where one of these is thrown.
#[cycle(stmt)]
#[tactic(auto, using(crate::proofs::StmtFamilies::catches_forms))]
fn type_catches<'a>(
    alloc: Global,
    home: &Home<'_>,
    numbering: &Numbering<'_>,
    frame: &mut Frame<'a>,
    next: &mut u32,
    catches: &'a [CatchTree],
) -> Result<List<TCatch>, NoMemory>
    requires room { next.old + 2 * tree_nodes.catch_nodes (tree.all_catch catches.now) < 2 ^ 32 }
    requires locals { frame.old.next + own.catches_locals (tree.all_catch catches.now) < 2 ^ 16 }
    requires ints { no.catches_no_ints (tree.all_catch catches.now) ≡ 0 }
    ensures made { IfOk result (λ ts. typed.all_catch ts
        ≡ is.typed_catches (written_by numbering.now) (seen home.now) (frame_seen frame.old)
        next.old (tree.all_catch catches.now)) }
    ensures behind { OnOk result (frame_seen frame.new
        ≡ further (frame_seen frame.old) (own.catches_locals (tree.all_catch catches.now))) }
    ensures counted { IfOk result (λ ts.
        next.new ≡ next.old + count.catch_nodes (typed.all_catch ts)) }
    ensures small { OnOk result (
        next.new ≤ next.old + 2 * tree_nodes.catch_nodes (tree.all_catch catches.now)) }
{
    let mut found = List::new(alloc);
    for catch in catches {
        let class = numbered(home.names.class(&catch.class.name));
        let body = type_handler(alloc, home, numbering, frame, next, catch)?;
        found.push(TCatch { class, body })?;
    }
    Ok(found)
}

// What is done where the class of a catch is thrown.
#[cycle(stmt)]
#[tactic(auto, using(crate::proofs::StmtFamilies::handler_forms))]
fn type_handler<'a>(
    alloc: Global,
    home: &Home<'_>,
    numbering: &Numbering<'_>,
    frame: &mut Frame<'a>,
    next: &mut u32,
    catch: &'a CatchTree,
) -> Result<TStmt, NoMemory>
    requires room { next.old + 2 * tree_nodes.handler_nodes (tree.handler catch.now) < 2 ^ 32 }
    requires locals { frame.old.next + own.handler_locals (tree.handler catch.now) < 2 ^ 16 }
    requires ints { no.handler_no_ints (tree.handler catch.now) ≡ 0 }
    ensures made { IfOk result (λ t. typed.does t
        ≡ is.typed_handler (written_by numbering.now) (seen home.now) (frame_seen frame.old)
        next.old (tree.handler catch.now)) }
    ensures behind { OnOk result (frame_seen frame.new
        ≡ further (frame_seen frame.old) (own.handler_locals (tree.handler catch.now))) }
    ensures counted { IfOk result (λ t.
        next.new ≡ next.old + count.stmt_nodes (typed.does t)) }
    ensures small { OnOk result (
        next.new ≤ next.old + 2 * tree_nodes.handler_nodes (tree.handler catch.now)) }
{
    type_block(alloc, home, numbering, frame, next, &catch.body)
}
