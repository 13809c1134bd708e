//! The code of expressions.

ghost use Rattle.std.specs.Prelude.{ℕ, ◌≡◌, ◌+◌, ◌<◌, ◌^◌, ◌++◌, ◌∷◌, [], OnOk, IfOk, length};
ghost use Rattle.par_code_form.specs.Code.{invoke, initializer};
ghost use Rattle.par_code_form.specs.Frames.{with_receiver};
ghost use Rattle.par_code_form.specs.Named.{words_of, class_word};
ghost use Rattle.par_code_form.specs.Operands.{with_result};
ghost use Rattle.par_erase.specs.Shown.{shown, receiver, all_shown, table_of, inputs_of};
ghost use Rattle.par_code.specs.Drafts as state;
ghost use Rattle.par_code.specs.Drafts.{seen, below_second, label_count, with_test, with_between};
ghost use Rattle.par_code.specs.Drafts.{with_shape, with_new, with_expr, with_may, with_args};

use crate::draft::Draft;
use crate::shape::{Shape, is_number, load, shape_of};
use crate::words::{
    class_initializer, class_name, field_item, input_item, method_item, output_item,
};
use par_base::memory::NoMemory;
use par_code_form::Item;
use par_code_form::opcode::{GETFIELD, GETSTATIC, GOTO, IFEQ, INVOKESTATIC, INVOKEVIRTUAL, NEW};
use par_erase::{PExpr, PExprKind, Plain};
use par_instr::Instr;
use par_typed::ty::Ty;
use std::alloc::Global;

// These operands, and one more.
fn with_operand(alloc: Global, operands: &[Ty], ty: Ty) -> Result<Vec<Ty>, NoMemory>
    ensures { IfOk result (λ v. v.items ≡ operands.now ++ ty ∷ []) }
{
    let mut more = operands.to_vec(alloc)?;
    more.push(ty)?;
    Ok(more)
}

// An item that pushes a value.
fn put_leaf(operands: &[Ty], item: Item, draft: &mut Draft) -> Result<(), NoMemory>
    ensures { OnOk result (seen draft.new
        ≡ state.put item (state.reach (length operands.now + 1) (seen draft.old))) }
{
    draft.reach(operands.len() + 1)?;
    draft.put(item)
}

/// An object of a class, whose initializer has run.
#[tactic(auto, using(crate::proofs::ExprForms::emits))]
pub fn put_new(
    alloc: Global,
    plain: &Plain,
    operands: &[Ty],
    class: u16,
    draft: &mut Draft,
) -> Result<(), NoMemory>
    ensures { OnOk result (seen draft.new
        ≡ with_new (class_word (table_of plain.now) class) (length operands.now)
        (seen draft.old)) }
{
    draft.reach(operands.len() + 2)?;
    let name = class_name(alloc, plain, class)?;
    draft.put(Item::ClassOp(NEW, name))?;
    draft.put(Item::Op(Instr::Dup))?;
    let initializer = class_initializer(alloc, plain, class)?;
    draft.put(initializer)
}

// Marks a label where one more operand lies there, which is a truth.
fn land_with_truth(
    alloc: Global,
    plain: &Plain,
    label: u32,
    scope: &[Ty],
    operands: &[Ty],
    draft: &mut Draft,
) -> Result<(), NoMemory>
    ensures { OnOk result (seen draft.new ≡ state.land (words_of (table_of plain.now)) label
        scope.now (operands.now ++ Ty.Boolean ∷ []) (seen draft.old)) }
{
    let with_value = with_operand(alloc, operands, Ty::Boolean)?;
    let landed = draft.land(alloc, plain, label, scope, with_value.as_slice());
    drop(with_value);
    landed
}

// 1 where the branch is taken, else 0.
#[tactic(auto, using(crate::proofs::ExprForms::emits))]
fn put_test(
    alloc: Global,
    plain: &Plain,
    scope: &[Ty],
    operands: &[Ty],
    opcode: u8,
    label: u32,
    draft: &mut Draft,
) -> Result<(), NoMemory>
    requires { label + 2 < 2 ^ 32 }
    ensures { OnOk result (seen draft.new
        ≡ with_test (words_of (table_of plain.now)) scope.now operands.now opcode label
        (seen draft.old)) }
{
    draft.put(Item::Jump(opcode, label))?;
    draft.put(Item::Const(0))?;
    draft.put(Item::Jump(GOTO, label + 1))?;
    draft.land(alloc, plain, label, scope, operands)?;
    draft.put(Item::Const(1))?;
    land_with_truth(alloc, plain, label + 1, scope, operands, draft)
}

// How many labels the operator needs.
fn label_count(shape: Shape) -> u32
    ensures { result ≡ label_count shape }
{
    match shape {
        Shape::Calculates(_) => 0,
        Shape::Compares(_) => 2,
        Shape::Decides(_) => 1,
    }
}

// What lies below the second part.
fn below_second(
    alloc: Global,
    shape: Shape,
    operands: &[Ty],
    first: Ty,
) -> Result<Vec<Ty>, NoMemory>
    ensures { IfOk result (λ v. v.items ≡ below_second shape operands.now first) }
{
    match shape {
        Shape::Calculates(_) | Shape::Compares(_) => with_operand(alloc, operands, first),
        Shape::Decides(_) => {
            let same = operands.to_vec(alloc)?;
            Ok(same)
        }
    }
}

// What stands between the two parts.
#[tactic(auto, using(crate::proofs::ExprForms::emits))]
fn put_between(shape: Shape, operands: &[Ty], label: u32, draft: &mut Draft) -> Result<(), NoMemory>
    ensures { OnOk result (seen draft.new
        ≡ with_between shape (length operands.now) label (seen draft.old)) }
{
    match shape {
        Shape::Calculates(_) | Shape::Compares(_) => draft.reach(operands.len() + 1),
        Shape::Decides(opcode) => {
            draft.reach(operands.len() + 2)?;
            draft.put(Item::Op(Instr::Dup))?;
            draft.put(Item::Jump(opcode, label))?;
            draft.put(Item::Op(Instr::Pop))
        }
    }
}

// What makes the value of the two parts.
#[tactic(auto, using(crate::proofs::ExprForms::emits))]
fn put_shape(
    alloc: Global,
    plain: &Plain,
    scope: &[Ty],
    operands: &[Ty],
    shape: Shape,
    label: u32,
    draft: &mut Draft,
) -> Result<(), NoMemory>
    requires { label + label_count shape < 2 ^ 32 }
    ensures { OnOk result (seen draft.new
        ≡ with_shape (words_of (table_of plain.now)) scope.now operands.now shape label
        (seen draft.old)) }
{
    match shape {
        Shape::Calculates(instr) => draft.put(Item::Op(instr)),
        Shape::Compares(opcode) => { put_test(alloc, plain, scope, operands, opcode, label, draft) }
        Shape::Decides(_) => land_with_truth(alloc, plain, label, scope, operands, draft),
    }
}

/// The code of an expression.
#[cycle(expr)]
#[tactic(auto, using(crate::proofs::ExprForms::emits))]
pub fn put_expr(
    alloc: Global,
    plain: &Plain,
    scope: &[Ty],
    operands: &[Ty],
    expr: &PExpr,
    draft: &mut Draft,
) -> Result<(), NoMemory>
    ensures { OnOk result (seen draft.new
        ≡ with_expr (words_of (table_of plain.now)) scope.now operands.now
        (shown (inputs_of plain.now) expr.now) (seen draft.old)) }
{
    match &expr.kind {
        PExprKind::Int(number) => put_leaf(operands, Item::Const(*number), draft),
        PExprKind::Bool(true) => put_leaf(operands, Item::Const(1), draft),
        PExprKind::Bool(false) => put_leaf(operands, Item::Const(0), draft),
        PExprKind::Null => put_leaf(operands, Item::Op(Instr::AconstNull), draft),
        PExprKind::This => put_leaf(operands, Item::Op(Instr::AloadShort(0)), draft),
        PExprKind::New(class) => put_new(alloc, plain, operands, *class, draft),
        PExprKind::Local(number) => {
            let item = load(expr.ty, *number)?;
            put_leaf(operands, item, draft)
        }
        PExprKind::Static(class, field) => {
            let item = field_item(alloc, plain, GETSTATIC, *class, *field)?;
            put_leaf(operands, item, draft)
        }
        PExprKind::Field(of, class, field) => {
            put_expr(alloc, plain, scope, operands, of, draft)?;
            let item = field_item(alloc, plain, GETFIELD, *class, *field)?;
            draft.put(item)
        }
        PExprKind::Input(class, place) => {
            let item = input_item(alloc, plain, *class, *place)?;
            put_leaf(operands, item, draft)
        }
        PExprKind::Output(class, place, value) => {
            put_expr(alloc, plain, scope, operands, value, draft)?;
            let item = output_item(alloc, plain, *class, *place)?;
            draft.put(item)
        }
        PExprKind::Call(class, method, of, args) => {
            put_receiver(alloc, plain, scope, operands, of, draft)?;
            let below = below_args(alloc, operands, of)?;
            put_above(alloc, plain, scope, below, args.as_slice(), draft)?;
            draft.reach(with_result(expr.ty, operands))?;
            let item = method_item(alloc, plain, invoke(of), *class, *method)?;
            draft.put(item)
        }
        PExprKind::Neg(of) => {
            put_expr(alloc, plain, scope, operands, of, draft)?;
            draft.put(Item::Op(Instr::Ineg))
        }
        PExprKind::Not(of) => {
            let label = draft.take(2)?;
            put_expr(alloc, plain, scope, operands, of, draft)?;
            put_test(alloc, plain, scope, operands, IFEQ, label, draft)
        }
        PExprKind::Binary(op, left, right) => {
            let shape = shape_of(*op, is_number(left.ty));
            let label = draft.take(label_count(shape))?;
            put_expr(alloc, plain, scope, operands, left, draft)?;
            put_between(shape, operands, label, draft)?;
            put_second(alloc, plain, scope, operands, shape, left.ty, right, draft)?;
            put_shape(alloc, plain, scope, operands, shape, label, draft)
        }
    }
}

// How many operands lie there behind a call.
fn with_result(ty: Ty, operands: &[Ty]) -> usize
    ensures { result ≡ with_result ty (length operands.now) }
{
    match ty {
        Ty::Void => operands.len(),
        _ => operands.len() + 1,
    }
}

// The opcode of a call: a receiver's method goes by its object.
#[tactic(auto, using(crate::proofs::ExprForms::emits))]
fn invoke(of: &Option<Box<PExpr>>) -> u8
    ensures { (i : ℕ → ℕ) → result ≡ invoke (receiver i of.now) }
{
    match of {
        None => INVOKESTATIC,
        Some(_) => INVOKEVIRTUAL,
    }
}

// What lies below the arguments of a call.
#[tactic(auto, using(crate::proofs::ExprForms::emits))]
fn below_args(alloc: Global, operands: &[Ty], of: &Option<Box<PExpr>>) -> Result<Vec<Ty>, NoMemory>
    ensures { IfOk result (λ v.
        (i : ℕ → ℕ) → v.items ≡ with_receiver operands.now (receiver i of.now)) }
{
    match of {
        None => {
            let same = operands.to_vec(alloc)?;
            Ok(same)
        }
        Some(of) => with_operand(alloc, operands, of.ty),
    }
}

#[cycle(expr)]
#[tactic(auto, using(crate::proofs::ExprForms::emits))]
fn put_receiver(
    alloc: Global,
    plain: &Plain,
    scope: &[Ty],
    operands: &[Ty],
    of: &Option<Box<PExpr>>,
    draft: &mut Draft,
) -> Result<(), NoMemory>
    ensures { OnOk result (seen draft.new
        ≡ with_may (words_of (table_of plain.now)) scope.now operands.now
        (receiver (inputs_of plain.now) of.now) (seen draft.old)) }
{
    match of {
        None => draft.reach(operands.len()),
        Some(of) => put_expr(alloc, plain, scope, operands, of, draft),
    }
}

// The second part of an operator of this shape, whose first part has this type.
#[cycle(expr)]
fn put_second(
    alloc: Global,
    plain: &Plain,
    scope: &[Ty],
    operands: &[Ty],
    shape: Shape,
    first: Ty,
    second: &PExpr,
    draft: &mut Draft,
) -> Result<(), NoMemory>
    ensures { OnOk result (seen draft.new
        ≡ with_expr (words_of (table_of plain.now)) scope.now
        (below_second shape operands.now first)
        (shown (inputs_of plain.now) second.now) (seen draft.old)) }
{
    let below = below_second(alloc, shape, operands, first)?;
    let put = put_expr(alloc, plain, scope, below.as_slice(), second, draft);
    drop(below);
    put
}

// The arguments of a call, above these operands.
#[cycle(expr)]
fn put_above(
    alloc: Global,
    plain: &Plain,
    scope: &[Ty],
    mut below: Vec<Ty>,
    args: &[PExpr],
    draft: &mut Draft,
) -> Result<(), NoMemory>
    ensures { OnOk result (seen draft.new
        ≡ with_args (words_of (table_of plain.now)) scope.now below.items
        (all_shown (inputs_of plain.now) args.now) (seen draft.old)) }
{
    let put = put_args(alloc, plain, scope, &mut below, args, draft);
    drop(below);
    put
}

// The arguments of a call, one above the other. They lie there behind it, above the operands.
#[cycle(expr)]
#[tactic(auto, using(crate::proofs::ExprForms::emits))]
fn put_args(
    alloc: Global,
    plain: &Plain,
    scope: &[Ty],
    below: &mut Vec<Ty>,
    args: &[PExpr],
    draft: &mut Draft,
) -> Result<(), NoMemory>
    ensures { OnOk result (seen draft.new
        ≡ with_args (words_of (table_of plain.now)) scope.now below.old.items
        (all_shown (inputs_of plain.now) args.now) (seen draft.old)) }
{
    for arg in args {
        put_expr(alloc, plain, scope, below.as_slice(), arg, draft)?;
        below.push(arg.ty)?;
    }
    draft.reach(below.len())
}
