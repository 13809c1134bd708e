//! The rules on names in bodies.

ghost use Rattle.std.specs.Prelude.{◌≡◌, ◌++◌, ◌∷◌, [], map, take, length, OnOk};
ghost use Rattle.par_tree.specs.Shown as tree;
ghost use Rattle.par_tree.specs.Shown.{does, braces, otherwise, may_braces, all_do};
ghost use Rattle.par_tree.specs.Shown.{all_catch};
ghost use Rattle.par_tree.specs.Shown.{handler, shown};
ghost use Rattle.par_refusals.specs.First.{first_of};
ghost use Rattle.par_names.specs.Declarations.{doubles};
ghost use Rattle.par_names.specs.Exprs.{expr_faults};
ghost use Rattle.par_names.specs.Stmts.{taken_fault, local_faults, declares, all_caught};
ghost use Rattle.par_names.specs.Stmts.{stmt_faults, braces_faults, may_braces_faults, else_faults};
ghost use Rattle.par_names.specs.Stmts.{stmts_faults, catches_faults, handler_faults};
ghost use Rattle.par_names.specs.Seen.{seen, home_seen};

use crate::doubles::check_doubles;
use crate::expr::{check_expr, check_value};
use crate::policy::{check_class, check_lock, check_may_policy, check_type};
use crate::rule::SECOND_NAME;
use crate::view::{Home, View};
use par_index::NameStack;
use par_index::par_base::memory::NoMemory;
use par_refusals::refusal::Findings;
use par_tree::decl::ParamDecl;
use par_tree::expr::Expr;
use par_tree::ident::Ident;
use par_tree::stmt::{Block, CatchTree, LocalDecl, Stmt, StmtKind};
use std::alloc::Global;

/// Notes the broken rules of a body, in all of which its parameters are in scope.
pub fn check_body<'a>(
    alloc: Global,
    view: &View<'_>,
    home: &Home<'_>,
    params: &'a [ParamDecl],
    body: &'a Block,
    findings: &mut Findings,
) -> Result<(), NoMemory>
    ensures { OnOk result (findings.new ≡ first_of findings.old (braces_faults (seen view.now)
        (home_seen home.now) (map (λ param. param.id.name) params.now) (braces body.now))) }
{
    let mut scope = NameStack::new(alloc);
    declare_params(&mut scope, params)?;
    check_block(alloc, view, home, &mut scope, body, findings)
}

fn declare_params<'a>(scope: &mut NameStack<'a>, params: &'a [ParamDecl]) -> Result<(), NoMemory>
    ensures { OnOk result (scope.new ≡ scope.old ++ map (λ param. param.id.name) params.now) }
{
    for param in params {
        scope.push(&param.id.name)?;
    }
    Ok(())
}

#[tactic(auto, using(crate::proofs::Noted::note))]
fn check_taken(scope: &NameStack<'_>, id: &Ident, findings: &mut Findings)
    ensures { findings.new ≡ first_of findings.old (taken_fault scope.now id.now) }
{
    let is_taken = scope.has(&id.name);
    findings.expect(!is_taken, SECOND_NAME, id.at);
}

#[tactic(auto, using(crate::proofs::Noted::note))]
fn check_local<'a>(
    view: &View<'_>,
    home: &Home<'_>,
    scope: &mut NameStack<'a>,
    local: &'a LocalDecl,
    findings: &mut Findings,
) -> Result<(), NoMemory>
    ensures found { OnOk result (findings.new ≡ first_of findings.old (local_faults
        (seen view.now) (home_seen home.now) scope.old (tree.local local.entry.now))) }
    ensures declared { OnOk result (scope.new ≡ scope.old ++ local.entry.now.id.name ∷ []) }
{
    check_may_policy(view, &local.policy, findings);
    check_type(view, &local.ty, findings);
    check_expr(view, home, scope, &local.value, findings);
    check_taken(scope, &local.id, findings);
    scope.push(&local.id.name)
}

fn check_caught(
    alloc: Global,
    catches: &[CatchTree],
    findings: &mut Findings,
) -> Result<(), NoMemory>
    ensures { OnOk result (findings.new
        ≡ first_of findings.old (doubles (all_caught (all_catch catches.now)))) }
{
    let mut classes = Vec::new(alloc);
    for catch in catches {
        classes.push(&catch.class)?;
    }
    check_doubles(alloc, classes.as_slice(), findings)
}

#[tactic(auto, using(crate::proofs::Noted::note))]
fn check_both(
    view: &View<'_>,
    home: &Home<'_>,
    scope: &NameStack<'_>,
    one: &Expr,
    other: &Expr,
    findings: &mut Findings,
)
    ensures { findings.new ≡ first_of findings.old
        (expr_faults (seen view.now) (home_seen home.now) scope.now (shown one.now)
        ++ expr_faults (seen view.now) (home_seen home.now) scope.now (shown other.now)) }
{
    check_expr(view, home, scope, one, findings);
    check_expr(view, home, scope, other, findings);
}

#[cycle(stmt)]
#[tactic(auto, using(crate::proofs::StmtForms::stmts))]
fn check_stmt<'a>(
    alloc: Global,
    view: &View<'_>,
    home: &Home<'_>,
    scope: &mut NameStack<'a>,
    s: &'a Stmt,
    findings: &mut Findings,
) -> Result<(), NoMemory>
    ensures found { OnOk result (findings.new ≡ first_of findings.old
        (stmt_faults (seen view.now) (home_seen home.now) scope.old (does s.now))) }
    ensures declared { OnOk result (scope.new ≡ declares (does s.now) scope.old) }
{
    match &s.kind {
        StmtKind::Block(block) => check_block(alloc, view, home, scope, block, findings),
        StmtKind::If(test, block, other) => {
            check_arm(alloc, view, home, scope, block, test, findings)?;
            check_else(alloc, view, home, scope, other, findings)
        }
        StmtKind::While(test, block) => check_arm(alloc, view, home, scope, block, test, findings),
        StmtKind::Try(block, catches) => {
            check_block(alloc, view, home, scope, block, findings)?;
            check_caught(alloc, catches.as_slice(), findings)?;
            check_catches(alloc, view, home, scope, catches.as_slice(), findings)
        }
        StmtKind::When(lock, block, other) => {
            check_lock(view, lock, findings);
            check_block(alloc, view, home, scope, block, findings)?;
            check_else_block(alloc, view, home, scope, other, findings)
        }
        StmtKind::Local(local) => check_local(view, home, scope, local, findings),
        StmtKind::Assign(target, value) => {
            check_both(view, home, scope, target, value, findings);
            Ok(())
        }
        StmtKind::Call(call) => {
            check_expr(view, home, scope, call, findings);
            Ok(())
        }
        StmtKind::Return(value) => {
            check_value(view, home, scope, value, findings);
            Ok(())
        }
        StmtKind::Throw(class) => {
            check_class(view, class, findings);
            Ok(())
        }
        StmtKind::OpenLock(lock) | StmtKind::CloseLock(lock) => {
            check_lock(view, lock, findings);
            Ok(())
        }
        StmtKind::Break | StmtKind::Continue => Ok(()),
    }
}

// A block, and the test before it.
#[cycle(stmt)]
#[tactic(auto, using(crate::proofs::StmtForms::part_forms))]
fn check_arm<'a>(
    alloc: Global,
    view: &View<'_>,
    home: &Home<'_>,
    scope: &mut NameStack<'a>,
    block: &'a Block,
    test: &Expr,
    findings: &mut Findings,
) -> Result<(), NoMemory>
    ensures found { OnOk result (findings.new ≡ first_of findings.old
        (expr_faults (seen view.now) (home_seen home.now) scope.old (shown test.now)
        ++ braces_faults (seen view.now) (home_seen home.now) scope.old (braces block.now))) }
    ensures left { OnOk result (scope.new ≡ scope.old) }
{
    check_expr(view, home, scope, test, findings);
    check_block(alloc, view, home, scope, block, findings)
}

// The locals of a block leave the scope behind it.
#[cycle(stmt)]
#[tactic(auto, using(crate::proofs::StmtForms::part_forms))]
fn check_block<'a>(
    alloc: Global,
    view: &View<'_>,
    home: &Home<'_>,
    scope: &mut NameStack<'a>,
    block: &'a Block,
    findings: &mut Findings,
) -> Result<(), NoMemory>
    ensures found { OnOk result (findings.new ≡ first_of findings.old
        (braces_faults (seen view.now) (home_seen home.now) scope.old (braces block.now))) }
    ensures left { OnOk result (scope.new ≡ scope.old) }
{
    let outside = scope.len();
    check_stmts(alloc, view, home, scope, block.stmts.as_slice(), findings)?;
    scope.truncate(outside);
    Ok(())
}

#[cycle(stmt)]
#[tactic(auto, using(crate::proofs::StmtForms::part_forms))]
fn check_else<'a>(
    alloc: Global,
    view: &View<'_>,
    home: &Home<'_>,
    scope: &mut NameStack<'a>,
    other: &'a Option<Box<Stmt>>,
    findings: &mut Findings,
) -> Result<(), NoMemory>
    ensures found { OnOk result (findings.new ≡ first_of findings.old
        (else_faults (seen view.now) (home_seen home.now) scope.old (otherwise other.now))) }
    ensures left { OnOk result (scope.new ≡ scope.old) }
{
    match other {
        None => Ok(()),
        Some(s) => {
            let outside = scope.len();
            check_stmt(alloc, view, home, scope, s, findings)?;
            scope.truncate(outside);
            Ok(())
        }
    }
}

#[cycle(stmt)]
#[tactic(auto, using(crate::proofs::StmtForms::part_forms))]
fn check_else_block<'a>(
    alloc: Global,
    view: &View<'_>,
    home: &Home<'_>,
    scope: &mut NameStack<'a>,
    other: &'a Option<Block>,
    findings: &mut Findings,
) -> Result<(), NoMemory>
    ensures found { OnOk result (findings.new ≡ first_of findings.old
        (may_braces_faults (seen view.now) (home_seen home.now) scope.old (may_braces other.now))) }
    ensures left { OnOk result (scope.new ≡ scope.old) }
{
    match other {
        None => Ok(()),
        Some(block) => check_block(alloc, view, home, scope, block, findings),
    }
}

#[cycle(stmt)]
#[tactic(auto, using(crate::proofs::StmtForms::row_forms))]
fn check_stmts<'a>(
    alloc: Global,
    view: &View<'_>,
    home: &Home<'_>,
    scope: &mut NameStack<'a>,
    stmts: &'a [Stmt],
    findings: &mut Findings,
) -> Result<(), NoMemory>
    ensures found { OnOk result (findings.new ≡ first_of findings.old
        (stmts_faults (seen view.now) (home_seen home.now) scope.old (all_do stmts.now))) }
    ensures kept { OnOk result (take (length scope.old) scope.new ≡ scope.old) }
{
    for s in stmts {
        check_stmt(alloc, view, home, scope, s, findings)?;
    }
    Ok(())
}

#[cycle(stmt)]
#[tactic(auto, using(crate::proofs::StmtForms::row_forms))]
fn check_catches<'a>(
    alloc: Global,
    view: &View<'_>,
    home: &Home<'_>,
    scope: &mut NameStack<'a>,
    catches: &'a [CatchTree],
    findings: &mut Findings,
) -> Result<(), NoMemory>
    ensures found { OnOk result (findings.new ≡ first_of findings.old
        (catches_faults (seen view.now) (home_seen home.now) scope.old (all_catch catches.now))) }
    ensures left { OnOk result (scope.new ≡ scope.old) }
{
    for catch in catches {
        check_catch(alloc, view, home, scope, catch, findings)?;
    }
    Ok(())
}

// What a catch calls the caught object is in no scope.
#[cycle(stmt)]
#[tactic(auto, using(crate::proofs::StmtForms::part_forms))]
fn check_catch<'a>(
    alloc: Global,
    view: &View<'_>,
    home: &Home<'_>,
    scope: &mut NameStack<'a>,
    catch: &'a CatchTree,
    findings: &mut Findings,
) -> Result<(), NoMemory>
    ensures found { OnOk result (findings.new ≡ first_of findings.old
        (handler_faults (seen view.now) (home_seen home.now) scope.old (handler catch.now))) }
    ensures left { OnOk result (scope.new ≡ scope.old) }
{
    check_class(view, &catch.class, findings);
    check_taken(scope, &catch.name, findings);
    check_block(alloc, view, home, scope, &catch.body, findings)
}
