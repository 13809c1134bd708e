//! The rules on types in statements.

ghost use Rattle.std.specs.Prelude.{◌≡◌, ◌++◌, true, take, length, OnOk};
ghost use Rattle.par_tree.specs.Shown.{shown, may_shown, does, braces, otherwise, may_braces};
ghost use Rattle.par_tree.specs.Shown.{all_do, all_catch, handler, local};
ghost use Rattle.par_refusals.specs.First.{first_of};
ghost use Rattle.par_scope.specs.Home.{seen};
ghost use Rattle.par_scope.specs.Locals.{declared};
ghost use Rattle.par_type_rules.specs.Exprs.{expr_faults};
ghost use Rattle.par_type_rules.specs.Stmts as is;
ghost use Rattle.par_type_rules.specs.Kept.{IsKept};

use crate::exprs::{check_expr, check_no_exception, check_value};
use crate::fits::{any_value, is_void, value_of};
use par_base::memory::NoMemory;
use par_completes::completes;
use par_completes::par_typed::ty::Ty;
use par_refusals::refusal::Findings;
use par_scope::home::{Home, type_written};
use par_scope::locals::{Locals, Slot};
use par_scope::members::is_exception;
use par_tree::expr::{Expr, ExprKind};
use par_tree::ident::Ident;
use par_tree::stmt::{Block, CatchTree, LocalDecl, Stmt, StmtKind};
use par_tree::types::TypeTree;

/// Notes an exception class as a type.
#[tactic(auto, using(crate::proofs::Forms::finds), unfolding(crate::specs::Stmts::type_fault))]
pub(crate) fn check_type(home: &Home<'_>, ty: &TypeTree, findings: &mut Findings)
    ensures { findings.new ≡ first_of findings.old (is.type_fault (seen home.now) ty.now) }
{
    match ty {
        TypeTree::Int(_) | TypeTree::Boolean(_) => {}
        TypeTree::Class(class) => check_no_exception(home, class, findings),
    }
}

/// Notes a class that is no exception, where one is thrown or caught.
#[tactic(auto, using(crate::proofs::Forms::finds))]
pub(crate) fn check_thrown(home: &Home<'_>, class: &Ident, findings: &mut Findings)
    ensures { findings.new ≡ first_of findings.old (is.throw_fault (seen home.now) class.now) }
{
    let is_exception = is_exception(home.table, home.names.class(&class.name));
    findings.expect(is_exception, 207, class.at);
}

#[tactic(auto, using(crate::proofs::Forms::finds))]
fn check_test(home: &Home<'_>, locals: &Locals<'_>, test: &Expr, findings: &mut Findings)
    ensures { findings.new
        ≡ first_of findings.old (is.test_faults (seen home.now) locals.now (shown test.now)) }
{
    check_value(home, locals, value_of(Ty::Boolean), test, findings);
}

fn slot_of(home: &Home<'_>, decl: &LocalDecl) -> Slot
    ensures { result ≡ is.slot_of (seen home.now) (local decl.now) }
{
    Slot {
        ty: type_written(home.names, &decl.ty),
        notnull: decl.notnull,
    }
}

/// Notes the broken rules of a declaration, and puts its local into scope.
#[tactic(auto, using(crate::proofs::Forms::finds))]
fn check_local<'a>(
    home: &Home<'_>,
    locals: &mut Locals<'a>,
    decl: &'a LocalDecl,
    findings: &mut Findings,
) -> Result<(), NoMemory>
    ensures found { OnOk result (findings.new
        ≡ first_of findings.old
        (is.local_faults (seen home.now) locals.old (local decl.entry.now))) }
    ensures put { OnOk result (locals.new
        ≡ declared locals.old decl.entry.now.id.name
        (is.slot_of (seen home.now) (local decl.entry.now))) }
{
    check_type(home, &decl.ty, findings);
    check_value(home, locals, slot_of(home, decl), &decl.value, findings);
    locals.declare(&decl.id.name, slot_of(home, decl))
}

fn refuses_null(locals: &Locals<'_>, target: &Expr) -> bool
    ensures { result ≡ is.refuses_null locals.now (shown target.now) }
{
    match &target.kind {
        ExprKind::Name(name) => match locals.named(name) {
            None => false,
            Some(slot) => slot.notnull,
        },
        _ => false,
    }
}

#[tactic(auto, using(crate::proofs::Forms::finds))]
fn check_assigned(
    home: &Home<'_>,
    locals: &Locals<'_>,
    target: &Expr,
    value: &Expr,
    findings: &mut Findings,
)
    ensures { findings.new
        ≡ first_of findings.old
        (is.assign_faults (seen home.now) locals.now (shown target.now) (shown value.now)) }
{
    let ty = check_expr(home, locals, target, findings);
    let notnull = refuses_null(locals, target);
    check_value(home, locals, Slot { ty, notnull }, value, findings);
}

#[tactic(auto, using(crate::proofs::Forms::finds))]
fn check_called(home: &Home<'_>, locals: &Locals<'_>, call: &Expr, findings: &mut Findings)
    ensures { findings.new
        ≡ first_of findings.old (expr_faults (seen home.now) locals.now (shown call.now)) }
{
    check_expr(home, locals, call, findings);
}

fn result_slot(is_void: bool, ty: Option<Ty>) -> Slot
    ensures { result ≡ is.result_slot is_void ty }
{
    if is_void {
        any_value()
    } else {
        Slot { ty, notnull: false }
    }
}

#[tactic(auto, using(crate::proofs::Forms::finds), unfolding(crate::specs::Stmts::result_faults))]
fn check_result(
    home: &Home<'_>,
    locals: &Locals<'_>,
    value: &Option<Expr>,
    at: u32,
    findings: &mut Findings,
)
    ensures { findings.new
        ≡ first_of findings.old
        (is.result_faults (seen home.now) locals.now (may_shown value.now) at) }
{
    let is_void = is_void(home.result);
    match value {
        None => findings.expect(is_void, 201, at),
        Some(value) => {
            let wanted = result_slot(is_void, home.result);
            check_value(home, locals, wanted, value, findings);
            findings.expect(!is_void, 201, at);
        }
    }
}

/// Notes the broken rules of a statement, and puts the local that it declares into scope.
#[cycle(stmt)]
fn check_stmt<'a>(
    home: &Home<'_>,
    looped: bool,
    locals: &mut Locals<'a>,
    stmt: &'a Stmt,
    findings: &mut Findings,
) -> Result<(), NoMemory>
    ensures found { OnOk result (findings.new
        ≡ first_of findings.old
        (is.stmt_faults (seen home.now) looped locals.old (does stmt.now))) }
    ensures declared { OnOk result (
        locals.new ≡ is.declares (seen home.now) (does stmt.now) locals.old) }
{
    match &stmt.kind {
        StmtKind::Block(body) => check_block(home, looped, locals, body, findings),
        StmtKind::If(test, body, other) => {
            check_arm(home, looped, locals, body, test, findings)?;
            check_else(home, looped, locals, other, findings)
        }
        StmtKind::While(test, body) => check_arm(home, true, locals, body, test, findings),
        StmtKind::Try(body, catches) => {
            check_block(home, looped, locals, body, findings)?;
            check_catches(home, looped, locals, catches.as_slice(), findings)
        }
        StmtKind::When(_, body, other) => {
            check_block(home, looped, locals, body, findings)?;
            check_may_block(home, looped, locals, other, findings)
        }
        StmtKind::Local(decl) => check_local(home, locals, decl, findings),
        StmtKind::Assign(target, value) => {
            check_assigned(home, locals, target, value, findings);
            Ok(())
        }
        StmtKind::Call(call) => {
            check_called(home, locals, call, findings);
            Ok(())
        }
        StmtKind::Return(value) => {
            check_result(home, locals, value, stmt.at, findings);
            Ok(())
        }
        StmtKind::Throw(class) => {
            check_thrown(home, class, findings);
            Ok(())
        }
        StmtKind::Break | StmtKind::Continue => {
            findings.expect(looped, 205, stmt.at);
            Ok(())
        }
        StmtKind::OpenLock(_) | StmtKind::CloseLock(_) => Ok(()),
    }
}

/// Notes the broken rules of a block, and of the test before it.
#[cycle(stmt)]
#[tactic(auto, using(crate::proofs::StmtForms::part_forms))]
fn check_arm<'a>(
    home: &Home<'_>,
    looped: bool,
    locals: &mut Locals<'a>,
    body: &'a Block,
    test: &Expr,
    findings: &mut Findings,
) -> Result<(), NoMemory>
    ensures found { OnOk result (findings.new
        ≡ first_of findings.old
        (is.test_faults (seen home.now) locals.old (shown test.now)
        ++ is.braces_faults (seen home.now) looped locals.old (braces body.now))) }
    ensures left { OnOk result (locals.new ≡ locals.old) }
{
    check_test(home, locals, test, findings);
    check_block(home, looped, locals, body, findings)
}

#[cycle(stmt)]
#[tactic(auto, using(crate::proofs::StmtForms::part_forms))]
fn check_else<'a>(
    home: &Home<'_>,
    looped: bool,
    locals: &mut Locals<'a>,
    other: &'a Option<Box<Stmt>>,
    findings: &mut Findings,
) -> Result<(), NoMemory>
    ensures found { OnOk result (findings.new
        ≡ first_of findings.old
        (is.else_faults (seen home.now) looped locals.old (otherwise other.now))) }
    ensures left { OnOk result (locals.new ≡ locals.old) }
{
    match other {
        None => Ok(()),
        Some(stmt) => {
            let outside = locals.len();
            check_stmt(home, looped, locals, stmt, findings)?;
            locals.truncate(outside);
            Ok(())
        }
    }
}

#[cycle(stmt)]
#[tactic(auto, using(crate::proofs::StmtForms::part_forms))]
fn check_may_block<'a>(
    home: &Home<'_>,
    looped: bool,
    locals: &mut Locals<'a>,
    other: &'a Option<Block>,
    findings: &mut Findings,
) -> Result<(), NoMemory>
    ensures found { OnOk result (findings.new
        ≡ first_of findings.old
        (is.may_braces_faults (seen home.now) looped locals.old (may_braces other.now))) }
    ensures left { OnOk result (locals.new ≡ locals.old) }
{
    match other {
        None => Ok(()),
        Some(body) => check_block(home, looped, locals, body, findings),
    }
}

/// Notes the broken rules of a block, behind which its locals have left the scope.
#[cycle(stmt)]
#[tactic(auto, using(crate::proofs::StmtForms::part_forms))]
pub(crate) fn check_block<'a>(
    home: &Home<'_>,
    looped: bool,
    locals: &mut Locals<'a>,
    block: &'a Block,
    findings: &mut Findings,
) -> Result<(), NoMemory>
    ensures found { OnOk result (findings.new
        ≡ first_of findings.old
        (is.braces_faults (seen home.now) looped locals.old (braces block.now))) }
    ensures left { OnOk result (locals.new ≡ locals.old) }
{
    let outside = locals.len();
    check_stmts(home, looped, locals, block.stmts.as_slice(), findings)?;
    locals.truncate(outside);
    Ok(())
}

#[cycle(stmt)]
#[tactic(auto, using(crate::proofs::StmtForms::row_forms))]
fn check_stmts<'a>(
    home: &Home<'_>,
    looped: bool,
    locals: &mut Locals<'a>,
    stmts: &'a [Stmt],
    findings: &mut Findings,
) -> Result<(), NoMemory>
    ensures found { OnOk result (findings.new
        ≡ first_of findings.old
        (is.stmts_faults (seen home.now) looped locals.old true (all_do stmts.now))) }
    ensures kept { OnOk result (IsKept locals.old locals.new) }
{
    let mut is_reached = true;
    for stmt in stmts {
        findings.expect(is_reached, 204, stmt.at);
        check_stmt(home, looped, locals, stmt, findings)?;
        is_reached = completes(stmt);
    }
    Ok(())
}

#[cycle(stmt)]
#[tactic(auto, using(crate::proofs::StmtForms::row_forms))]
fn check_catches<'a>(
    home: &Home<'_>,
    looped: bool,
    locals: &mut Locals<'a>,
    catches: &'a [CatchTree],
    findings: &mut Findings,
) -> Result<(), NoMemory>
    ensures found { OnOk result (findings.new
        ≡ first_of findings.old
        (is.catches_faults (seen home.now) looped locals.old (all_catch catches.now))) }
    ensures left { OnOk result (locals.new ≡ locals.old) }
{
    for catch in catches {
        check_catch(home, looped, locals, catch, findings)?;
    }
    Ok(())
}

#[cycle(stmt)]
#[tactic(auto, using(crate::proofs::StmtForms::part_forms))]
fn check_catch<'a>(
    home: &Home<'_>,
    looped: bool,
    locals: &mut Locals<'a>,
    catch: &'a CatchTree,
    findings: &mut Findings,
) -> Result<(), NoMemory>
    ensures found { OnOk result (findings.new
        ≡ first_of findings.old
        (is.handler_faults (seen home.now) looped locals.old (handler catch.now))) }
    ensures left { OnOk result (locals.new ≡ locals.old) }
{
    check_thrown(home, &catch.class, findings);
    check_block(home, looped, locals, &catch.body, findings)
}
