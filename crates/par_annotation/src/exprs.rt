//! Typed expressions.

ghost use Rattle.std.specs.Prelude.{◌≡◌, ◌+◌, ◌*◌, ◌<◌, ◌≤◌, ◌^◌, ◌-ℤ◌, pos, true, false};
ghost use Rattle.std.specs.Prelude.{Some, IfOk, OnOk};
ghost use Rattle.par_tree.specs.Plain as tree;
ghost use Rattle.par_tree.specs.Shown.{shown, receiver, may_shown, all_shown};
ghost use Rattle.par_tree.specs.Nodes.{nodes, may_nodes, args_nodes};
ghost use Rattle.par_typed.specs.Plain as plain;
ghost use Rattle.par_typed.specs.Shown as typed;
ghost use Rattle.par_typed.specs.Nodes as count;
ghost use Rattle.par_scope.specs.Home.{seen, class_named, class_type};
ghost use Rattle.par_scope.specs.Locals.{local_named, is_notnull};
ghost use Rattle.par_scope.specs.Meaning.{type_of, called_on, op_type};
ghost use Rattle.par_scope.specs.Members.{channel_at};
ghost use Rattle.par_type_rules.specs.TypedExprs as made;
ghost use Rattle.par_annotation.specs.Ints.{no_ints, may_no_ints, args_no_ints};
ghost use Rattle.par_annotation.specs.Seen.{frame_seen, marked};
ghost use Rattle.par_annotation.specs.Calls.{call_at, call_named, called_type};
ghost use Rattle.par_typed.specs.declared.ty.Ty.TheVariants as ty;
ghost use Rattle.par_type_rules.specs.declared.exprs.TheConstants.{TOO_LARGE};

use crate::frame::Frame;
use crate::members::{method_receiver, name_made, own_this, selection};
use crate::node::{Made, On, Spot, node, numbered, take_point, typed_node};
use par_base::list::List;
use par_base::memory::NoMemory;
use par_base::name::Name;
use par_scope::home::{Home, class_type};
use par_scope::locals::Locals;
use par_scope::meaning::{
    Callee, Receiver, called, callee_type, op_type, place_type, receiver_of, selected, type_of_name,
};
use par_scope::members::{Place, channel_at};
use par_tree::expr::{BinOp, Expr, ExprKind};
use par_tree::ident::Ident;
use par_typed::expr::{TExpr, TExprKind};
use par_typed::ty::Ty;
use std::alloc::Global;

fn number_of(expr: &Expr) -> Option<u32>
    ensures { result ≡ made.number_of (shown expr.now) }
{
    match &expr.kind {
        ExprKind::Int(number) => Some(*number),
        _ => None,
    }
}

fn below_zero(number: u32) -> i32
    requires { number ≤ TOO_LARGE }
    ensures { result ≡ pos 0 -ℤ pos number }
{
    (0 - i64::from(number)) as i32
}

#[tactic(auto, using(par_typed::proofs::Shown::shows))]
fn this_made(home: &Home<'_>, at: u32, point: u32) -> Made
    ensures made { typed.shown result.expr ≡ made.own_this (seen home.now) at point }
    ensures typed { result.ty ≡ Some (ty.Class (seen home.now).class) }
{
    Made {
        expr: own_this(home, at, point),
        ty: Some(Ty::Class(home.class)),
    }
}

// A new object of this class.
#[tactic(auto, using(par_typed::proofs::Shown::shows))]
fn new_made(home: &Home<'_>, class: &Ident, at: u32, point: u32) -> Made
    ensures made { typed.shown result.expr
        ≡ plain.New (made.numbered (class_named (seen home.now).names class.now.name))
        (made.mark_of at point
        (class_type (class_named (seen home.now).names class.now.name)) true) }
    ensures typed { result.ty ≡ class_type (class_named (seen home.now).names class.now.name) }
{
    let class = home.names.class(&class.name);
    let ty = class_type(class);
    let spot = Spot {
        at,
        point,
        ty,
        sure: true,
    };
    let expr = node(TExprKind::New(numbered(class)), spot);
    Made { expr, ty }
}

fn name_is_sure(locals: &Locals<'_>, name: &Name) -> bool
    ensures { result ≡ is_notnull (local_named locals.now name.now) }
{
    match locals.named(name) {
        None => false,
        Some(slot) => slot.notnull,
    }
}

// A name by itself, at this place and point.
#[tactic(auto, using(crate::proofs::ExprFamilies::name_forms))]
fn type_name(
    alloc: Global,
    home: &Home<'_>,
    frame: &Frame<'_>,
    next: &mut u32,
    name: &Name,
    at: u32,
    point: u32,
) -> Result<Made, NoMemory>
    requires next { next.old ≡ point + 1 }
    requires room { next.old + 1 < 2 ^ 32 }
    ensures made { IfOk result (λ m. typed.shown m.expr
        ≡ made.typed_exp (seen home.now) (frame_seen frame.now) point (tree.Name name.now at)) }
    ensures typed { IfOk result (λ m.
        m.ty ≡ type_of (seen home.now) frame.now.locals (tree.Name name.now at)) }
    ensures counted { IfOk result (λ m. next.new ≡ point + count.nodes (typed.shown m.expr)) }
    ensures small { OnOk result (next.new ≤ next.old + 1) }
{
    let ty = type_of_name(home, &frame.locals, name);
    let spot = Spot {
        at,
        point,
        ty,
        sure: name_is_sure(&frame.locals, name),
    };
    let place = selected(home, Receiver::Own, name);
    let expr = name_made(alloc, home, frame.named(name), place, next, spot)?;
    Ok(Made { expr, ty })
}

// An operation on two operands.
#[tactic(auto, using(par_typed::proofs::Shown::shows))]
fn operation(
    alloc: Global,
    op: BinOp,
    one: TExpr,
    other: TExpr,
    at: u32,
    point: u32,
) -> Result<Made, NoMemory>
    ensures made { IfOk result (λ m. typed.shown m.expr
        ≡ plain.Binary op (typed.shown one) (typed.shown other)
        (made.mark_of at point (Some (op_type op)) false)) }
    ensures typed { IfOk result (λ m. m.ty ≡ Some (op_type op)) }
{
    let one = Box::new(alloc, one)?;
    let other = Box::new(alloc, other)?;
    Ok(typed_node(TExprKind::Binary(op, one, other), at, point, op_type(op)))
}

/// The typed expression, whose points begin at the next one.
#[cycle(expr)]
pub(crate) fn type_expr(
    alloc: Global,
    home: &Home<'_>,
    frame: &Frame<'_>,
    next: &mut u32,
    expr: &Expr,
) -> Result<Made, NoMemory>
    requires room { next.old + 2 * nodes (shown expr.now) < 2 ^ 32 }
    requires ints { no_ints (shown expr.now) ≡ 0 }
    ensures made { IfOk result (λ m. typed.shown m.expr
        ≡ made.typed_exp (seen home.now) (frame_seen frame.now) next.old (shown expr.now)) }
    ensures typed { IfOk result (λ m.
        m.ty ≡ type_of (seen home.now) frame.now.locals (shown expr.now)) }
    ensures counted { IfOk result (λ m. next.new ≡ next.old + count.nodes (typed.shown m.expr)) }
    ensures small { OnOk result (next.new ≤ next.old + 2 * nodes (shown expr.now)) }
{
    let (at, point) = (expr.at, take_point(next));
    match &expr.kind {
        ExprKind::Int(number) => Ok(typed_node(TExprKind::Int(*number as i32), at, point, Ty::Int)),
        ExprKind::True => Ok(typed_node(TExprKind::Bool(true), at, point, Ty::Boolean)),
        ExprKind::False => Ok(typed_node(TExprKind::Bool(false), at, point, Ty::Boolean)),
        ExprKind::Null => Ok(typed_node(TExprKind::Null, at, point, Ty::Null)),
        ExprKind::This => Ok(this_made(home, at, point)),
        ExprKind::New(class) => Ok(new_made(home, class, at, point)),
        ExprKind::Name(name) => type_name(alloc, home, frame, next, name, at, point),
        ExprKind::Field(of, field) => type_field(alloc, home, frame, next, of, field, at, point),
        ExprKind::Call(of, method, args) => {
            let on = type_receiver(alloc, home, frame, next, of)?;
            let args = args.as_slice();
            type_called(alloc, home, frame, next, on, method, args, at, point)
        }
        ExprKind::Neg(of) => type_negation(alloc, home, frame, next, of, at, point),
        ExprKind::Not(of) => type_inversion(alloc, home, frame, next, of, at, point),
        ExprKind::Binary(op, one, other) => {
            let one = type_expr(alloc, home, frame, next, one)?;
            let other = type_expr(alloc, home, frame, next, other)?;
            operation(alloc, *op, one.expr, other.expr, at, point)
        }
    }
}

// A field of what stands before it, at this place and point.
#[cycle(expr)]
#[tactic(auto, using(crate::proofs::ExprFamilies::field_forms))]
fn type_field(
    alloc: Global,
    home: &Home<'_>,
    frame: &Frame<'_>,
    next: &mut u32,
    of: &Expr,
    field: &Ident,
    at: u32,
    point: u32,
) -> Result<Made, NoMemory>
    requires next { next.old ≡ point + 1 }
    requires room { next.old + 2 * nodes (shown of.now) < 2 ^ 32 }
    requires ints { no_ints (shown of.now) ≡ 0 }
    ensures made { IfOk result (λ m. typed.shown m.expr
        ≡ made.typed_exp (seen home.now) (frame_seen frame.now) point
        (tree.Field (shown of.now) field.now at)) }
    ensures typed { IfOk result (λ m. m.ty
        ≡ type_of (seen home.now) frame.now.locals (tree.Field (shown of.now) field.now at)) }
    ensures counted { IfOk result (λ m. next.new ≡ point + count.nodes (typed.shown m.expr)) }
    ensures small { OnOk result (next.new ≤ next.old + 2 * nodes (shown of.now)) }
{
    let found = type_expr(alloc, home, frame, next, of)?;
    let receiver = receiver_of(home, &frame.locals, of, found.ty);
    let place = selected(home, receiver, &field.name);
    let ty = place_type(home.table, place);
    let spot = Spot {
        at,
        point,
        ty,
        sure: false,
    };
    let expr = selection(alloc, receiver, place, found.expr, next, spot)?;
    Ok(Made { expr, ty })
}

// What stands behind `-`. A number as it is written is a literal with it.
#[cycle(expr)]
#[tactic(auto, using(crate::proofs::ExprFamilies::negation_forms))]
fn type_negation(
    alloc: Global,
    home: &Home<'_>,
    frame: &Frame<'_>,
    next: &mut u32,
    of: &Expr,
    at: u32,
    point: u32,
) -> Result<Made, NoMemory>
    requires next { next.old ≡ point + 1 }
    requires room { next.old + 2 * nodes (shown of.now) < 2 ^ 32 }
    requires ints { no_ints (tree.Neg (shown of.now) at) ≡ 0 }
    ensures made { IfOk result (λ m. typed.shown m.expr
        ≡ made.typed_exp (seen home.now) (frame_seen frame.now) point
        (tree.Neg (shown of.now) at)) }
    ensures typed { IfOk result (λ m. m.ty ≡ Some ty.Int) }
    ensures counted { IfOk result (λ m. next.new ≡ point + count.nodes (typed.shown m.expr)) }
    ensures small { OnOk result (next.new ≤ next.old + 2 * nodes (shown of.now)) }
{
    match number_of(of) {
        None => {
            let of = type_expr(alloc, home, frame, next, of)?;
            let of = Box::new(alloc, of.expr)?;
            Ok(typed_node(TExprKind::Neg(of), at, point, Ty::Int))
        }
        Some(number) => Ok(typed_node(TExprKind::Int(below_zero(number)), at, point, Ty::Int)),
    }
}

#[cycle(expr)]
#[tactic(auto, using(crate::proofs::ExprFamilies::inversion_forms))]
fn type_inversion(
    alloc: Global,
    home: &Home<'_>,
    frame: &Frame<'_>,
    next: &mut u32,
    of: &Expr,
    at: u32,
    point: u32,
) -> Result<Made, NoMemory>
    requires next { next.old ≡ point + 1 }
    requires room { next.old + 2 * nodes (shown of.now) < 2 ^ 32 }
    requires ints { no_ints (shown of.now) ≡ 0 }
    ensures made { IfOk result (λ m. typed.shown m.expr
        ≡ made.typed_exp (seen home.now) (frame_seen frame.now) point
        (tree.Not (shown of.now) at)) }
    ensures typed { IfOk result (λ m. m.ty ≡ Some ty.Boolean) }
    ensures counted { IfOk result (λ m. next.new ≡ point + count.nodes (typed.shown m.expr)) }
    ensures small { OnOk result (next.new ≤ next.old + 2 * nodes (shown of.now)) }
{
    let of = type_expr(alloc, home, frame, next, of)?;
    let of = Box::new(alloc, of.expr)?;
    Ok(typed_node(TExprKind::Not(of), at, point, Ty::Boolean))
}

// What a call is made on.
#[cycle(expr)]
#[tactic(auto, using(crate::proofs::ExprFamilies::receiver_forms))]
fn type_receiver(
    alloc: Global,
    home: &Home<'_>,
    frame: &Frame<'_>,
    next: &mut u32,
    of: &Option<Box<Expr>>,
) -> Result<On, NoMemory>
    requires room { next.old + 2 * may_nodes (receiver of.now) < 2 ^ 32 }
    requires ints { may_no_ints (receiver of.now) ≡ 0 }
    ensures made { IfOk result (λ on. typed.may_shown on.written
        ≡ made.typed_may (seen home.now) (frame_seen frame.now) next.old (receiver of.now)) }
    ensures called { IfOk result (λ on.
        on.receiver ≡ called_on (seen home.now) frame.now.locals (receiver of.now)) }
    ensures counted { IfOk result (λ on.
        next.new ≡ next.old + count.may_nodes (typed.may_shown on.written)) }
    ensures small { OnOk result (next.new ≤ next.old + 2 * may_nodes (receiver of.now)) }
{
    match of {
        None => Ok(On {
            receiver: Receiver::Own,
            written: None,
        }),
        Some(of) => {
            let found = type_expr(alloc, home, frame, next, of)?;
            Ok(On {
                receiver: receiver_of(home, &frame.locals, of, found.ty),
                written: Some(found.expr),
            })
        }
    }
}

// A call of this name, at this place and point.
#[cycle(expr)]
#[tactic(auto)]
fn type_called(
    alloc: Global,
    home: &Home<'_>,
    frame: &Frame<'_>,
    next: &mut u32,
    on: On,
    method: &Ident,
    args: &[Expr],
    at: u32,
    point: u32,
) -> Result<Made, NoMemory>
    requires next { next.old ≡ point + 1 + count.may_nodes (typed.may_shown on.written) }
    requires room { next.old + 1 + 2 * args_nodes (all_shown args.now) < 2 ^ 32 }
    requires ints { args_no_ints (all_shown args.now) ≡ 0 }
    ensures made { IfOk result (λ m. typed.shown m.expr
        ≡ call_named (seen home.now) (frame_seen frame.now) on.receiver method.now.name
        (typed.may_shown on.written) (all_shown args.now) at point) }
    ensures typed { IfOk result (λ m.
        m.ty ≡ called_type (seen home.now) on.receiver method.now.name) }
    ensures counted { IfOk result (λ m. next.new ≡ point + count.nodes (typed.shown m.expr)) }
    ensures small { OnOk result (
        next.new ≤ next.old + 1 + 2 * args_nodes (all_shown args.now)) }
{
    let callee = called(home, on.receiver, &method.name);
    let ty = callee_type(home.table, callee);
    let spot = Spot {
        at,
        point,
        ty,
        sure: false,
    };
    let expr = type_call(alloc, home, frame, next, on, callee, args, spot)?;
    Ok(Made { expr, ty })
}

// A call at this spot. What is written before a channel or a static method is no node.
#[cycle(expr)]
#[tactic(auto, using(crate::proofs::ExprFamilies::call_forms))]
fn type_call(
    alloc: Global,
    home: &Home<'_>,
    frame: &Frame<'_>,
    next: &mut u32,
    on: On,
    callee: Callee,
    args: &[Expr],
    spot: Spot,
) -> Result<TExpr, NoMemory>
    requires next { next.old ≡ spot.point + 1 + count.may_nodes (typed.may_shown on.written) }
    requires room { next.old + 1 + 2 * args_nodes (all_shown args.now) < 2 ^ 32 }
    requires ints { args_no_ints (all_shown args.now) ≡ 0 }
    ensures made { IfOk result (λ t. typed.shown t
        ≡ call_at (seen home.now) (frame_seen frame.now) on.receiver callee
        (typed.may_shown on.written) (all_shown args.now) (marked spot)) }
    ensures counted { IfOk result (λ t. next.new ≡ spot.point + count.nodes (typed.shown t)) }
    ensures small { OnOk result (
        next.new ≤ next.old + 1 + 2 * args_nodes (all_shown args.now)) }
{
    match callee {
        Callee::Unknown => {
            *next = spot.point + 1;
            Ok(node(TExprKind::Null, spot))
        }
        Callee::Channel(place) => {
            *next = spot.point + 1;
            type_through(alloc, home, frame, next, place, args, spot)
        }
        Callee::Method(place) => {
            let of = method_receiver(alloc, home, on, place, next, spot)?;
            let args = type_args(alloc, home, frame, next, args)?;
            let kind = TExprKind::Call(place.class, place.number, of, args);
            Ok(node(kind, spot))
        }
    }
}

// A call of a channel at this spot.
#[cycle(expr)]
#[tactic(auto, using(crate::proofs::ExprFamilies::call_forms))]
fn type_through(
    alloc: Global,
    home: &Home<'_>,
    frame: &Frame<'_>,
    next: &mut u32,
    place: Place,
    args: &[Expr],
    spot: Spot,
) -> Result<TExpr, NoMemory>
    requires next { next.old ≡ spot.point + 1 }
    requires room { next.old + 1 + 2 * args_nodes (all_shown args.now) < 2 ^ 32 }
    requires ints { args_no_ints (all_shown args.now) ≡ 0 }
    ensures made { IfOk result (λ t. typed.shown t
        ≡ made.through (channel_at (seen home.now).table place) place
        (made.typed_args (seen home.now) (frame_seen frame.now) next.old (all_shown args.now))
        (marked spot)) }
    ensures counted { IfOk result (λ t. next.new ≡ spot.point + count.nodes (typed.shown t)) }
    ensures small { OnOk result (
        next.new ≤ next.old + 1 + 2 * args_nodes (all_shown args.now)) }
{
    match channel_at(home.table, place) {
        None => Ok(node(TExprKind::Null, spot)),
        Some(channel) => {
            if channel.is_input {
                return Ok(node(TExprKind::Input(place.class, place.number), spot));
            }
            let value = type_first(alloc, home, frame, next, args, spot)?;
            let value = Box::new(alloc, value)?;
            let kind = TExprKind::Output(place.class, place.number, value);
            Ok(node(kind, spot))
        }
    }
}

// The first argument of a call at this spot.
#[cycle(expr)]
#[tactic(auto, using(crate::proofs::ExprFamilies::args_forms))]
fn type_first(
    alloc: Global,
    home: &Home<'_>,
    frame: &Frame<'_>,
    next: &mut u32,
    args: &[Expr],
    spot: Spot,
) -> Result<TExpr, NoMemory>
    requires next { next.old ≡ spot.point + 1 }
    requires room { next.old + 1 + 2 * args_nodes (all_shown args.now) < 2 ^ 32 }
    requires ints { args_no_ints (all_shown args.now) ≡ 0 }
    ensures made { IfOk result (λ t. typed.shown t
        ≡ made.first
        (made.typed_args (seen home.now) (frame_seen frame.now) next.old (all_shown args.now))
        (marked spot)) }
    ensures counted { IfOk result (λ t. next.new ≡ next.old + count.nodes (typed.shown t)) }
    ensures small { OnOk result (
        next.new ≤ next.old + 1 + 2 * args_nodes (all_shown args.now)) }
{
    match args {
        [] => {
            let none = typed_node(TExprKind::Null, spot.at, *next, Ty::Null);
            *next += 1;
            Ok(none.expr)
        }
        [one, ..] => {
            let found = type_expr(alloc, home, frame, next, one)?;
            Ok(found.expr)
        }
    }
}

#[cycle(expr)]
#[tactic(auto, using(crate::proofs::ExprFamilies::args_forms))]
fn type_args(
    alloc: Global,
    home: &Home<'_>,
    frame: &Frame<'_>,
    next: &mut u32,
    args: &[Expr],
) -> Result<List<TExpr>, NoMemory>
    requires room { next.old + 2 * args_nodes (all_shown args.now) < 2 ^ 32 }
    requires ints { args_no_ints (all_shown args.now) ≡ 0 }
    ensures made { IfOk result (λ ts. typed.all_shown ts
        ≡ made.typed_args (seen home.now) (frame_seen frame.now) next.old (all_shown args.now)) }
    ensures counted { IfOk result (λ ts.
        next.new ≡ next.old + count.args_nodes (typed.all_shown ts)) }
    ensures small { OnOk result (next.new ≤ next.old + 2 * args_nodes (all_shown args.now)) }
{
    let mut found = List::new(alloc);
    for arg in args {
        let arg = type_expr(alloc, home, frame, next, arg)?;
        found.push(arg.expr)?;
    }
    Ok(found)
}
