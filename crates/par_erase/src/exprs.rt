//! Expressions without places, points and `sure`.

ghost use Rattle.std.specs.Prelude.{◌≡◌, IfOk};
ghost use Rattle.par_typed.specs.Shown as typed;
ghost use Rattle.par_erase.specs.Shown as plain;
ghost use Rattle.par_erase.specs.Erased.{inputs_in, erased_exp, erased_may, erased_args};

use crate::channels::{input_place, output_place};
use crate::expr::{PExpr, PExprKind};
use par_base::list::List;
use par_base::memory::NoMemory;
use par_typed::expr::{TExpr, TExprKind};
use par_typed::table::Table;
use std::alloc::Global;

/// What is left of an expression.
#[cycle(expr)]
#[tactic(auto, using(crate::proofs::ExprForms::erases))]
pub fn erase_expr(alloc: Global, table: &Table, expr: &TExpr) -> Result<PExpr, NoMemory>
    ensures { IfOk result (λ e.
        plain.shown (inputs_in table.now) e ≡ erased_exp table.now (typed.shown expr.now)) }
{
    let kind = erase_kind(alloc, table, expr)?;
    Ok(PExpr { kind, ty: expr.ty })
}

#[cycle(expr)]
#[tactic(auto, using(crate::proofs::ExprForms::erases))]
fn erase_kind(alloc: Global, table: &Table, expr: &TExpr) -> Result<PExprKind, NoMemory>
    ensures { IfOk result (λ kind. plain.kind_of (inputs_in table.now) kind expr.now.ty
        ≡ erased_exp table.now (typed.shown expr.now)) }
{
    match &expr.kind {
        TExprKind::Int(number) => Ok(PExprKind::Int(*number)),
        TExprKind::Bool(truth) => Ok(PExprKind::Bool(*truth)),
        TExprKind::Null => Ok(PExprKind::Null),
        TExprKind::This => Ok(PExprKind::This),
        TExprKind::New(class) => Ok(PExprKind::New(*class)),
        TExprKind::Local(number) => Ok(PExprKind::Local(*number)),
        TExprKind::Static(class, field) => Ok(PExprKind::Static(*class, *field)),
        TExprKind::Field(of, class, field) => {
            let of = erase_boxed(alloc, table, of)?;
            Ok(PExprKind::Field(of, *class, *field))
        }
        TExprKind::Input(class, channel) => {
            let place = input_place(table, *class, *channel);
            Ok(PExprKind::Input(*class, place))
        }
        TExprKind::Output(class, channel, value) => {
            let value = erase_boxed(alloc, table, value)?;
            let place = output_place(table, *class, *channel);
            Ok(PExprKind::Output(*class, place, value))
        }
        TExprKind::Call(class, method, of, args) => {
            let of = erase_receiver(alloc, table, of)?;
            let args = erase_args(alloc, table, args.as_slice())?;
            Ok(PExprKind::Call(*class, *method, of, args))
        }
        TExprKind::Neg(of) => {
            let of = erase_boxed(alloc, table, of)?;
            Ok(PExprKind::Neg(of))
        }
        TExprKind::Not(of) => {
            let of = erase_boxed(alloc, table, of)?;
            Ok(PExprKind::Not(of))
        }
        TExprKind::Binary(op, left, right) => {
            let left = erase_boxed(alloc, table, left)?;
            let right = erase_boxed(alloc, table, right)?;
            Ok(PExprKind::Binary(*op, left, right))
        }
    }
}

#[cycle(expr)]
fn erase_boxed(alloc: Global, table: &Table, expr: &TExpr) -> Result<Box<PExpr>, NoMemory>
    ensures { IfOk result (λ b.
        plain.shown (inputs_in table.now) b.value ≡ erased_exp table.now (typed.shown expr.now)) }
{
    let expr = erase_expr(alloc, table, expr)?;
    let boxed = Box::new(alloc, expr)?;
    Ok(boxed)
}

#[cycle(expr)]
#[tactic(auto, using(crate::proofs::ExprForms::receiver_forms))]
fn erase_receiver(
    alloc: Global,
    table: &Table,
    of: &Option<Box<TExpr>>,
) -> Result<Option<Box<PExpr>>, NoMemory>
    ensures { IfOk result (λ o. plain.receiver (inputs_in table.now) o
        ≡ erased_may table.now (typed.receiver of.now)) }
{
    match of {
        None => Ok(None),
        Some(of) => {
            let of = erase_boxed(alloc, table, of)?;
            Ok(Some(of))
        }
    }
}

#[cycle(expr)]
#[tactic(auto, using(crate::proofs::ExprForms::arg_forms))]
fn erase_args(alloc: Global, table: &Table, args: &[TExpr]) -> Result<List<PExpr>, NoMemory>
    ensures { IfOk result (λ es. plain.all_shown (inputs_in table.now) es
        ≡ erased_args table.now (typed.all_shown args.now)) }
{
    let mut found = List::new(alloc);
    for arg in args {
        let arg = erase_expr(alloc, table, arg)?;
        found.push(arg)?;
    }
    Ok(found)
}
