//! The code of statements.

ghost use Rattle.std.specs.Prelude.{ℕ, ◌≡◌, ◌+◌, ◌<◌, ◌^◌, ◌∷◌, [], OnOk, IfOk};
ghost use Rattle.par_code_form.specs.Frames.{with_local, scope_behind};
ghost use Rattle.par_instr.specs.declared.instr.Instr.TheVariants.{Athrow};
ghost use Rattle.par_code_form.specs.Code as form;
ghost use Rattle.par_code_form.specs.Named.{words_of, class_word};
ghost use Rattle.par_erase.specs.Shown.{shown, may_shown, does, otherwise, all_do, all_catch};
ghost use Rattle.par_erase.specs.Shown.{table_of, inputs_of};
ghost use Rattle.par_code.specs.Drafts as state;
ghost use Rattle.par_code.specs.Drafts.{seen, with_new, with_expr};
ghost use Rattle.par_code.specs.Statements.{loop_of, land_if, with_drop, with_loop_test};
ghost use Rattle.par_code.specs.Statements.{with_catch};
ghost use Rattle.par_code.specs.Statements.{with_return};
ghost use Rattle.par_code.specs.Statements.{with_sta, with_else, with_all, with_catches};

use crate::again::goes_again;
use crate::draft::Draft;
use crate::exprs::{put_expr, put_new};
use crate::shape::{give_back, store};
use crate::ways::{completes, is_true};
use crate::words::{class_name, field_item};
use par_base::memory::NoMemory;
use par_code_form::opcode::{GETSTATIC, GOTO, IFEQ, PUTFIELD, PUTSTATIC};
use par_code_form::{Handler, Item};
use par_erase::{PCatch, PExpr, PStmt, Plain};
use par_instr::Instr;
use par_typed::ty::Ty;
use std::alloc::Global;

/// The labels that `break` and `continue` go to.
#[derive(Clone, Copy)]
pub struct Targets {
    pub out: u32,
    pub again: u32,
}

// A local comes into scope.
fn bring(declared: &[Ty], local: u16, scope: &mut Vec<Ty>)
    ensures { scope.new.items ≡ with_local declared.now local scope.old.items }
{
    let place = usize::from(local);
    let ty = match declared.get(place) {
        None => Ty::Void,
        Some(ty) => *ty,
    };
    if place < scope.len() {
        scope[place] = ty;
    }
}

// The locals that are in scope behind a statement.
#[tactic(auto, using(crate::proofs::StmtForms::scopes))]
fn declare(declared: &[Ty], stmt: &PStmt, scope: &mut Vec<Ty>)
    ensures { (i : ℕ → ℕ) → scope.new.items
        ≡ scope_behind declared.now (does i stmt.now) scope.old.items }
{
    match stmt {
        PStmt::SetLocal(local, _) => bring(declared, *local, scope),
        PStmt::Block(_)
        | PStmt::If(_, _, _)
        | PStmt::While(_, _)
        | PStmt::Try(_, _)
        | PStmt::Return(_)
        | PStmt::Break
        | PStmt::Continue
        | PStmt::Throw(_)
        | PStmt::SetStatic(_, _, _)
        | PStmt::SetField(_, _, _, _)
        | PStmt::Eval(_)
        | PStmt::LockSet(_, _)
        | PStmt::LockIf(_, _, _) => {}
    }
}

// Throws a value away that nobody takes.
#[tactic(auto, using(crate::proofs::StmtForms::emits))]
fn put_drop(ty: Ty, draft: &mut Draft) -> Result<(), NoMemory>
    ensures { OnOk result (seen draft.new ≡ with_drop ty (seen draft.old)) }
{
    match ty {
        Ty::Void => Ok(()),
        Ty::Int | Ty::Boolean | Ty::Class(_) | Ty::Null => draft.put(Item::Op(Instr::Pop)),
    }
}

// Sets the field that says whether a lock is open.
fn put_lock(lock: u16, number: i32, draft: &mut Draft) -> Result<(), NoMemory>
    ensures { OnOk result (seen draft.new
        ≡ state.put (Item.LockOp PUTSTATIC lock) (state.put (Item.Const number)
        (state.reach 1 (seen draft.old)))) }
{
    draft.reach(1)?;
    draft.put(Item::Const(number))?;
    draft.put(Item::LockOp(PUTSTATIC, lock))
}

// The test of a loop, which leaves it for the label.
#[tactic(auto, using(crate::proofs::StmtForms::emits))]
fn put_loop_test(
    alloc: Global,
    plain: &Plain,
    scope: &[Ty],
    test: &PExpr,
    out: u32,
    draft: &mut Draft,
) -> Result<(), NoMemory>
    ensures { OnOk result (seen draft.new
        ≡ with_loop_test (words_of (table_of plain.now)) scope.now
        (shown (inputs_of plain.now) test.now) out (seen draft.old)) }
{
    if is_true(test) {
        return Ok(());
    }
    put_expr(alloc, plain, scope, &[], test, draft)?;
    draft.put(Item::Jump(IFEQ, out))
}

// The end of a method, with a value where one is given back.
#[tactic(auto, using(crate::proofs::StmtForms::emits))]
fn put_return(
    alloc: Global,
    plain: &Plain,
    scope: &[Ty],
    value: &Option<PExpr>,
    draft: &mut Draft,
) -> Result<(), NoMemory>
    ensures { OnOk result (seen draft.new
        ≡ with_return (words_of (table_of plain.now)) scope.now
        (may_shown (inputs_of plain.now) value.now) (seen draft.old)) }
{
    match value {
        None => draft.put(Item::Op(Instr::Return)),
        Some(value) => {
            put_expr(alloc, plain, scope, &[], value, draft)?;
            draft.put(give_back(value.ty))
        }
    }
}

// The beginning of a catch of the `try` that begins at a label.
#[tactic(auto, using(crate::proofs::StmtForms::emits))]
fn put_catch(
    alloc: Global,
    plain: &Plain,
    scope: &[Ty],
    from: u32,
    class: u16,
    draft: &mut Draft,
) -> Result<(), NoMemory>
    requires { from + 2 < 2 ^ 32 }
    ensures { OnOk result (seen draft.new
        ≡ with_catch (words_of (table_of plain.now)) scope.now from class (seen draft.old)) }
{
    let label = draft.take(1)?;
    let name = class_name(alloc, plain, class)?;
    draft.put_handler(Handler {
        from,
        to: from + 1,
        goes: label,
        class: name,
    })?;
    draft.land(alloc, plain, label, scope, &[Ty::Class(class)])?;
    draft.reach(1)?;
    draft.put(Item::Op(Instr::Pop))
}

// The test of an `if`, which goes to the label that is handed out.
#[tactic(auto, using(crate::proofs::StmtForms::emits))]
fn begin_if(
    alloc: Global,
    plain: &Plain,
    scope: &[Ty],
    test: &PExpr,
    draft: &mut Draft,
) -> Result<u32, NoMemory>
    ensures label { IfOk result (λ n. n ≡ draft.old.next_label) }
    ensures room { IfOk result (λ n. n + 2 < 2 ^ 32) }
    ensures code { OnOk result (seen draft.new
        ≡ state.put (Item.Jump IFEQ draft.old.next_label)
        (with_expr (words_of (table_of plain.now)) scope.now []
        (shown (inputs_of plain.now) test.now) (state.take 2 (seen draft.old)))) }
{
    let label = draft.take(2)?;
    put_expr(alloc, plain, scope, &[], test, draft)?;
    draft.put(Item::Jump(IFEQ, label))?;
    Ok(label)
}

// The question whether a lock is open, which goes to the label that is handed out where it is not.
#[tactic(auto, using(crate::proofs::StmtForms::emits))]
fn begin_lock_if(lock: u16, draft: &mut Draft) -> Result<u32, NoMemory>
    ensures label { IfOk result (λ n. n ≡ draft.old.next_label) }
    ensures room { IfOk result (λ n. n + 2 < 2 ^ 32) }
    ensures code { OnOk result (seen draft.new
        ≡ state.put (Item.Jump IFEQ draft.old.next_label) (state.put (Item.LockOp GETSTATIC lock)
        (state.reach 1 (state.take 2 (seen draft.old))))) }
{
    let label = draft.take(2)?;
    draft.reach(1)?;
    draft.put(Item::LockOp(GETSTATIC, lock))?;
    draft.put(Item::Jump(IFEQ, label))?;
    Ok(label)
}

// The beginning of a loop, to which control may come again, and its test.
#[tactic(auto, using(crate::proofs::StmtForms::emits))]
fn begin_while(
    alloc: Global,
    plain: &Plain,
    scope: &[Ty],
    comes: bool,
    test: &PExpr,
    draft: &mut Draft,
) -> Result<Targets, NoMemory>
    ensures again { IfOk result (λ inner. inner.again ≡ draft.old.next_label) }
    ensures out { IfOk result (λ inner. inner.out ≡ draft.old.next_label + 1) }
    ensures code { OnOk result (seen draft.new
        ≡ with_loop_test (words_of (table_of plain.now)) scope.now
        (shown (inputs_of plain.now) test.now) (draft.old.next_label + 1)
        (land_if (words_of (table_of plain.now)) comes draft.old.next_label scope.now
        (state.take 2 (seen draft.old)))) }
{
    let label = draft.take(2)?;
    draft.land_if(alloc, plain, comes, label, scope)?;
    put_loop_test(alloc, plain, scope, test, label + 1, draft)?;
    Ok(Targets {
        out: label + 1,
        again: label,
    })
}

#[tactic(auto, using(crate::proofs::StmtForms::emits))]
fn put_throw(alloc: Global, plain: &Plain, class: u16, draft: &mut Draft) -> Result<(), NoMemory>
    ensures { OnOk result (seen draft.new ≡ state.put (Item.Op Athrow)
        (with_new (class_word (table_of plain.now) class) 0 (seen draft.old))) }
{
    put_new(alloc, plain, &[], class, draft)?;
    draft.put(Item::Op(Instr::Athrow))
}

#[tactic(auto, using(crate::proofs::StmtForms::emits))]
fn put_local(
    alloc: Global,
    plain: &Plain,
    scope: &[Ty],
    local: u16,
    value: &PExpr,
    draft: &mut Draft,
) -> Result<(), NoMemory>
    ensures { OnOk result (seen draft.new ≡ state.put (form.store value.now.ty local)
        (with_expr (words_of (table_of plain.now)) scope.now []
        (shown (inputs_of plain.now) value.now) (seen draft.old))) }
{
    put_expr(alloc, plain, scope, &[], value, draft)?;
    let item = store(value.ty, local)?;
    draft.put(item)
}

#[tactic(auto, using(crate::proofs::StmtForms::emits))]
fn put_static(
    alloc: Global,
    plain: &Plain,
    scope: &[Ty],
    class: u16,
    field: u16,
    value: &PExpr,
    draft: &mut Draft,
) -> Result<(), NoMemory>
    ensures { OnOk result (let w = words_of (table_of plain.now) in
        seen draft.new ≡ state.put (Item.Member PUTSTATIC (w.class class) (w.field class field)
        (w.field_type class field)) (with_expr w scope.now []
        (shown (inputs_of plain.now) value.now) (seen draft.old))) }
{
    put_expr(alloc, plain, scope, &[], value, draft)?;
    let item = field_item(alloc, plain, PUTSTATIC, class, field)?;
    draft.put(item)
}

// The value of a field, whose object lies there.
#[tactic(auto, using(crate::proofs::StmtForms::emits))]
fn put_field(
    alloc: Global,
    plain: &Plain,
    scope: &[Ty],
    object: Ty,
    class: u16,
    field: u16,
    value: &PExpr,
    draft: &mut Draft,
) -> Result<(), NoMemory>
    ensures { OnOk result (let w = words_of (table_of plain.now) in
        seen draft.new ≡ state.put (Item.Member PUTFIELD (w.class class) (w.field class field)
        (w.field_type class field)) (with_expr w scope.now (object ∷ [])
        (shown (inputs_of plain.now) value.now) (seen draft.old))) }
{
    put_expr(alloc, plain, scope, &[object], value, draft)?;
    let item = field_item(alloc, plain, PUTFIELD, class, field)?;
    draft.put(item)
}

#[tactic(auto, using(crate::proofs::StmtForms::emits))]
fn put_eval(
    alloc: Global,
    plain: &Plain,
    scope: &[Ty],
    expr: &PExpr,
    draft: &mut Draft,
) -> Result<(), NoMemory>
    ensures { OnOk result (seen draft.new ≡ with_drop expr.now.ty
        (with_expr (words_of (table_of plain.now)) scope.now []
        (shown (inputs_of plain.now) expr.now) (seen draft.old))) }
{
    put_expr(alloc, plain, scope, &[], expr, draft)?;
    put_drop(expr.ty, draft)
}

/// The code of a statement, where these locals are in scope.
#[cycle(stmt)]
#[tactic(auto, using(crate::proofs::StmtForms::emits))]
pub fn put_stmt(
    alloc: Global,
    plain: &Plain,
    declared: &[Ty],
    scope: &[Ty],
    targets: Targets,
    stmt: &PStmt,
    draft: &mut Draft,
) -> Result<(), NoMemory>
    ensures { OnOk result (seen draft.new
        ≡ with_sta (words_of (table_of plain.now)) declared.now scope.now (loop_of targets)
        (does (inputs_of plain.now) stmt.now) (seen draft.old)) }
{
    match stmt {
        PStmt::Block(stmts) => {
            put_all(
                alloc,
                plain,
                declared,
                scope,
                targets,
                stmts.as_slice(),
                draft,
            )
        }
        PStmt::If(test, body, other) => {
            let label = begin_if(alloc, plain, scope, test, draft)?;
            put_stmt(alloc, plain, declared, scope, targets, body, draft)?;
            draft.part(alloc, plain, completes(body), label, scope)?;
            put_else(alloc, plain, declared, scope, targets, other, draft)?;
            draft.land_if(alloc, plain, completes(body), label + 1, scope)
        }
        PStmt::LockIf(lock, body, other) => {
            let label = begin_lock_if(*lock, draft)?;
            put_stmt(alloc, plain, declared, scope, targets, body, draft)?;
            draft.part(alloc, plain, completes(body), label, scope)?;
            put_else(alloc, plain, declared, scope, targets, other, draft)?;
            draft.land_if(alloc, plain, completes(body), label + 1, scope)
        }
        PStmt::While(test, body) => {
            let inner = begin_while(alloc, plain, scope, goes_again(body), test, draft)?;
            put_stmt(alloc, plain, declared, scope, inner, body, draft)?;
            draft.jump_if(completes(body), inner.again)?;
            draft.land_if(alloc, plain, completes(stmt), inner.out, scope)
        }
        PStmt::Try(body, catches) => {
            let label = draft.take(3)?;
            draft.put(Item::Label(label))?;
            put_stmt(alloc, plain, declared, scope, targets, body, draft)?;
            draft.jump_if(completes(body), label + 2)?;
            draft.put(Item::Label(label + 1))?;
            put_catches(
                alloc,
                plain,
                declared,
                scope,
                targets,
                label,
                catches.as_slice(),
                draft,
            )?;
            draft.land_if(alloc, plain, completes(stmt), label + 2, scope)
        }
        PStmt::Return(value) => put_return(alloc, plain, scope, value, draft),
        PStmt::Break => draft.put(Item::Jump(GOTO, targets.out)),
        PStmt::Continue => draft.put(Item::Jump(GOTO, targets.again)),
        PStmt::Throw(class) => put_throw(alloc, plain, *class, draft),
        PStmt::SetLocal(local, value) => put_local(alloc, plain, scope, *local, value, draft),
        PStmt::SetStatic(class, field, value) => {
            put_static(alloc, plain, scope, *class, *field, value, draft)
        }
        PStmt::SetField(of, class, field, value) => {
            put_expr(alloc, plain, scope, &[], of, draft)?;
            put_field(alloc, plain, scope, of.ty, *class, *field, value, draft)
        }
        PStmt::Eval(expr) => put_eval(alloc, plain, scope, expr, draft),
        PStmt::LockSet(lock, true) => put_lock(*lock, 1, draft),
        PStmt::LockSet(lock, false) => put_lock(*lock, 0, draft),
    }
}

#[cycle(stmt)]
#[tactic(auto, using(crate::proofs::StmtForms::emits))]
fn put_else(
    alloc: Global,
    plain: &Plain,
    declared: &[Ty],
    scope: &[Ty],
    targets: Targets,
    other: &Option<Box<PStmt>>,
    draft: &mut Draft,
) -> Result<(), NoMemory>
    ensures { OnOk result (seen draft.new
        ≡ with_else (words_of (table_of plain.now)) declared.now scope.now (loop_of targets)
        (otherwise (inputs_of plain.now) other.now) (seen draft.old)) }
{
    match other {
        None => Ok(()),
        Some(stmt) => put_stmt(alloc, plain, declared, scope, targets, stmt, draft),
    }
}

// Statements, one after the other.
#[cycle(stmt)]
#[tactic(auto, using(crate::proofs::StmtForms::emits))]
fn put_all(
    alloc: Global,
    plain: &Plain,
    declared: &[Ty],
    scope: &[Ty],
    targets: Targets,
    stmts: &[PStmt],
    draft: &mut Draft,
) -> Result<(), NoMemory>
    ensures { OnOk result (seen draft.new
        ≡ with_all (words_of (table_of plain.now)) declared.now scope.now (loop_of targets)
        (all_do (inputs_of plain.now) stmts.now) (seen draft.old)) }
{
    let mut inner = scope.to_vec(alloc)?;
    for stmt in stmts {
        put_stmt(
            alloc,
            plain,
            declared,
            inner.as_slice(),
            targets,
            stmt,
            draft,
        )?;
        declare(declared, stmt, &mut inner);
    }
    Ok(())
}

// The catches of the `try` that begins at a label, and whose end is the second label behind it.
#[cycle(stmt)]
#[tactic(auto, using(crate::proofs::StmtForms::emits))]
fn put_catches(
    alloc: Global,
    plain: &Plain,
    declared: &[Ty],
    scope: &[Ty],
    targets: Targets,
    from: u32,
    catches: &[PCatch],
    draft: &mut Draft,
) -> Result<(), NoMemory>
    requires { from + 2 < 2 ^ 32 }
    ensures { OnOk result (seen draft.new
        ≡ with_catches (words_of (table_of plain.now)) declared.now scope.now (loop_of targets)
        from (from + 2) (all_catch (inputs_of plain.now) catches.now) (seen draft.old)) }
{
    for catch in catches {
        put_catch(alloc, plain, scope, from, catch.class, draft)?;
        put_stmt(alloc, plain, declared, scope, targets, &catch.body, draft)?;
        draft.jump_if(completes(&catch.body), from + 2)?;
    }
    Ok(())
}
