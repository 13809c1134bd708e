//! The rules on types in expressions.

ghost use Rattle.std.specs.Prelude.{◌≡◌, length, Some};
ghost use Rattle.par_tree.specs.Shown.{shown, receiver, all_shown};
ghost use Rattle.par_completes.specs.par_typed.declared.ty.Ty.TheVariants as ty;
ghost use Rattle.par_refusals.specs.First.{first_of};
ghost use Rattle.par_scope.specs.Home.{seen, class_named, class_type};
ghost use Rattle.par_scope.specs.Members.{value_of};
ghost use Rattle.par_scope.specs.Meaning.{type_of, called_on};
ghost use Rattle.par_type_rules.specs.Exprs as is;

use crate::fits::{any_value, are_alike, operand, suits, value_of};
use par_completes::par_typed::ty::Ty;
use par_refusals::refusal::Findings;
use par_scope::home::{Home, class_type};
use par_scope::locals::{Locals, Slot};
use par_scope::meaning::{
    Callee, Receiver, arity, called, callee_type, op_type, param_at, place_type, receiver_of,
    selected, sure, type_of_name,
};
use par_scope::members::is_exception;
use par_tree::expr::{Expr, ExprKind};
use par_tree::ident::Ident;

/// The least number that is no int without a `-`.
pub const TOO_LARGE: u32 = 2_147_483_648;

fn is_number(expr: &Expr) -> bool
    ensures { result ≡ is.is_number (shown expr.now) }
{
    matches!(&expr.kind, ExprKind::Int(_))
}

#[tactic(auto, using(crate::proofs::Forms::finds))]
fn check_fit(wanted: Slot, ty: Option<Ty>, sure: bool, at: u32, findings: &mut Findings)
    ensures { findings.new ≡ first_of findings.old (is.misfits wanted ty sure at) }
{
    findings.expect(are_alike(wanted.ty, ty), 201, at);
    findings.expect(!wanted.notnull || sure, 206, at);
}

/// Notes an exception class as a type, or made in an expression.
#[tactic(auto, using(crate::proofs::Forms::finds))]
pub(crate) fn check_no_exception(home: &Home<'_>, class: &Ident, findings: &mut Findings)
    ensures { findings.new
        ≡ first_of findings.old (is.exception_fault (seen home.now) class.now) }
{
    let is_exception = is_exception(home.table, home.names.class(&class.name));
    findings.expect(!is_exception, 201, class.at);
}

#[tactic(auto, using(crate::proofs::Forms::finds))]
fn check_made(home: &Home<'_>, class: &Ident, findings: &mut Findings) -> Option<Ty>
    ensures found { findings.new
        ≡ first_of findings.old (is.exception_fault (seen home.now) class.now) }
    ensures typed { result ≡ class_type (class_named (seen home.now).names class.now.name) }
{
    check_no_exception(home, class, findings);
    class_type(home.names.class(&class.name))
}

#[tactic(auto, using(crate::proofs::Forms::finds), unfolding(crate::specs::Exprs::member_fault))]
fn check_member(receiver: Receiver, is_known: bool, at: u32, findings: &mut Findings)
    ensures { findings.new ≡ first_of findings.old (is.member_fault receiver is_known at) }
{
    match receiver {
        Receiver::Own | Receiver::Class(_) => {}
        Receiver::Object(ty) => match ty {
            None => {}
            Some(_) => findings.expect(is_known, 201, at),
        },
    }
}

fn is_known(callee: Callee) -> bool
    ensures { result ≡ is.is_known callee }
{
    match callee {
        Callee::Unknown => false,
        Callee::Channel(_) | Callee::Method(_) => true,
    }
}

#[tactic(auto, using(crate::proofs::Forms::finds), unfolding(crate::specs::Exprs::count_fault))]
fn check_count(wanted: Option<usize>, count: usize, at: u32, findings: &mut Findings)
    ensures { findings.new ≡ first_of findings.old (is.count_fault wanted count at) }
{
    match wanted {
        None => {}
        Some(wanted) => findings.expect(count == wanted, 202, at),
    }
}

/// Notes the broken rules of an expression, and gives its type.
#[cycle(expr)]
#[tactic(auto, using(crate::proofs::Forms::found))]
pub(crate) fn check_expr(
    home: &Home<'_>,
    locals: &Locals<'_>,
    expr: &Expr,
    findings: &mut Findings,
) -> Option<Ty>
    ensures found { findings.new
        ≡ first_of findings.old (is.expr_faults (seen home.now) locals.now (shown expr.now)) }
    ensures typed { result ≡ type_of (seen home.now) locals.now (shown expr.now) }
{
    match &expr.kind {
        ExprKind::Int(number) => {
            findings.expect(*number < TOO_LARGE, 208, expr.at);
            Some(Ty::Int)
        }
        ExprKind::True | ExprKind::False => Some(Ty::Boolean),
        ExprKind::Null => Some(Ty::Null),
        ExprKind::This => Some(Ty::Class(home.class)),
        ExprKind::New(class) => check_made(home, class, findings),
        ExprKind::Name(name) => type_of_name(home, locals, name),
        ExprKind::Field(of, field) => check_field(home, locals, of, field, findings),
        ExprKind::Call(of, method, args) => {
            let receiver = check_receiver(home, locals, of, findings);
            check_call(home, locals, receiver, method, args.as_slice(), findings)
        }
        ExprKind::Neg(of) => check_negated(home, locals, of, findings),
        ExprKind::Not(of) => {
            check_value(home, locals, value_of(Ty::Boolean), of, findings);
            Some(Ty::Boolean)
        }
        ExprKind::Binary(op, one, other) => {
            let one_ty = check_value(home, locals, operand(*op), one, findings);
            let other_ty = check_value(home, locals, operand(*op), other, findings);
            findings.expect(suits(*op, one_ty, other_ty), 201, expr.at);
            Some(op_type(*op))
        }
    }
}

#[cycle(expr)]
#[tactic(auto, using(crate::proofs::Forms::found))]
fn check_negated(
    home: &Home<'_>,
    locals: &Locals<'_>,
    of: &Expr,
    findings: &mut Findings,
) -> Option<Ty>
    ensures found { findings.new
        ≡ first_of findings.old
        (is.unless_number (is.is_number (shown of.now))
        (is.value_faults (seen home.now) locals.now (value_of ty.Int) (shown of.now))) }
    ensures typed { result ≡ Some ty.Int }
{
    if !is_number(of) {
        check_value(home, locals, value_of(Ty::Int), of, findings);
    }
    Some(Ty::Int)
}

#[cycle(expr)]
#[tactic(auto, using(crate::proofs::Forms::found))]
fn check_field(
    home: &Home<'_>,
    locals: &Locals<'_>,
    of: &Expr,
    field: &Ident,
    findings: &mut Findings,
) -> Option<Ty>
    ensures found { findings.new
        ≡ first_of findings.old
        (is.field_faults (seen home.now) locals.now (shown of.now) field.now) }
    ensures typed { result ≡ is.field_type_of (seen home.now) locals.now (shown of.now) field.now }
{
    let ty = check_value(home, locals, any_value(), of, findings);
    let receiver = receiver_of(home, locals, of, ty);
    let place = selected(home, receiver, &field.name);
    check_member(receiver, place.is_some(), field.at, findings);
    place_type(home.table, place)
}

/// Notes the broken rules of an expression where this is wanted, and gives its type.
#[cycle(expr)]
#[tactic(auto, using(crate::proofs::Forms::found))]
pub(crate) fn check_value(
    home: &Home<'_>,
    locals: &Locals<'_>,
    wanted: Slot,
    expr: &Expr,
    findings: &mut Findings,
) -> Option<Ty>
    ensures found { findings.new
        ≡ first_of findings.old
        (is.value_faults (seen home.now) locals.now wanted (shown expr.now)) }
    ensures typed { result ≡ type_of (seen home.now) locals.now (shown expr.now) }
{
    let ty = check_expr(home, locals, expr, findings);
    check_fit(wanted, ty, sure(locals, expr), expr.at, findings);
    ty
}

#[cycle(expr)]
#[tactic(auto, using(crate::proofs::Forms::found))]
fn check_receiver(
    home: &Home<'_>,
    locals: &Locals<'_>,
    of: &Option<Box<Expr>>,
    findings: &mut Findings,
) -> Receiver
    ensures found { findings.new
        ≡ first_of findings.old
        (is.receiver_faults (seen home.now) locals.now (receiver of.now)) }
    ensures typed { result ≡ called_on (seen home.now) locals.now (receiver of.now) }
{
    match of {
        None => Receiver::Own,
        Some(of) => {
            let ty = check_value(home, locals, any_value(), of, findings);
            receiver_of(home, locals, of, ty)
        }
    }
}

#[cycle(expr)]
#[tactic(auto, using(crate::proofs::Forms::found))]
fn check_call(
    home: &Home<'_>,
    locals: &Locals<'_>,
    receiver: Receiver,
    method: &Ident,
    args: &[Expr],
    findings: &mut Findings,
) -> Option<Ty>
    ensures found { findings.new
        ≡ first_of findings.old
        (is.call_faults (seen home.now) locals.now receiver method.now (all_shown args.now)) }
    ensures typed { result ≡ is.call_type_of (seen home.now) receiver method.now }
{
    let callee = called(home, receiver, &method.name);
    check_member(receiver, is_known(callee), method.at, findings);
    check_args(home, locals, callee, args, findings);
    let wanted = arity(home.table, callee);
    check_count(wanted, args.len(), method.at, findings);
    callee_type(home.table, callee)
}

#[cycle(expr)]
#[tactic(auto, using(crate::proofs::Forms::found))]
fn check_args(
    home: &Home<'_>,
    locals: &Locals<'_>,
    callee: Callee,
    args: &[Expr],
    findings: &mut Findings,
)
    ensures { findings.new
        ≡ first_of findings.old
        (is.args_faults (seen home.now) locals.now callee 0 (all_shown args.now)) }
{
    for (place, arg) in args.iter().enumerate() {
        let wanted = param_at(home.table, callee, place);
        check_value(home, locals, wanted, arg, findings);
    }
}
