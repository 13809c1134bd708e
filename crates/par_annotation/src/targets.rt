//! What is assigned to.

ghost use Rattle.std.specs.Prelude.{◌≡◌, ◌+◌, ◌*◌, ◌<◌, ◌≤◌, ◌^◌, Some, IfOk, OnOk, option_map};
ghost use Rattle.par_tree.specs.Shown as tree;
ghost use Rattle.par_tree.specs.Nodes.{nodes};
ghost use Rattle.par_typed.specs.Nodes as count;
ghost use Rattle.par_typed.specs.Shown.{shown, does};
ghost use Rattle.par_scope.specs.Home.{seen};
ghost use Rattle.par_type_rules.specs.TypedExprs.{own_this};
ghost use Rattle.par_type_rules.specs.TypedStmts as is;
ghost use Rattle.par_annotation.specs.Ints.{no_ints};
ghost use Rattle.par_annotation.specs.Seen.{frame_seen, var_seen};
ghost use Rattle.par_annotation.specs.Targets.{target_seen};

use crate::exprs::type_expr;
use crate::frame::{Frame, Var};
use crate::members::{field_is_static, own_this};
use par_base::memory::NoMemory;
use par_scope::home::Home;
use par_scope::meaning::{Receiver, receiver_of, selected};
use par_scope::members::Place;
use par_tree::expr::{Expr, ExprKind};
use par_typed::expr::TExpr;
use par_typed::stmt::{TStmt, TStmtKind};
use std::alloc::Global;

/// A local, a static field, or a field of an object.
#[derive(Drop)]
pub(crate) enum Target {
    Nowhere,
    Local(Var),
    Static(Place),
    Field(TExpr, Place),
}

// A field of the own class, in an assignment at this place.
#[tactic(auto, using(crate::proofs::NodeForms::node_forms))]
fn own_target(home: &Home<'_>, place: Option<Place>, at: u32, next: &mut u32) -> Target
    requires { next.old + 1 < 2 ^ 32 }
    ensures made { target_seen result
        ≡ is.field_target (seen home.now) place (own_this (seen home.now) at next.old) }
    ensures counted { next.new ≡ next.old + is.target_nodes (target_seen result) }
    ensures small { next.new ≤ next.old + 1 }
{
    match place {
        None => Target::Nowhere,
        Some(place) => {
            if field_is_static(home.table, place) {
                return Target::Static(place);
            }
            let this = own_this(home, at, *next);
            *next += 1;
            Target::Field(this, place)
        }
    }
}

// A local, else a field of the own class, in an assignment at this place.
#[tactic(auto, using(crate::proofs::NodeForms::node_forms))]
fn named_target(
    home: &Home<'_>,
    var: Option<Var>,
    place: Option<Place>,
    at: u32,
    next: &mut u32,
) -> Target
    requires { next.old + 1 < 2 ^ 32 }
    ensures made { target_seen result
        ≡ is.name_target (seen home.now) (option_map var_seen var) place
        (own_this (seen home.now) at next.old) }
    ensures counted { next.new ≡ next.old + is.target_nodes (target_seen result) }
    ensures small { next.new ≤ next.old + 1 }
{
    match var {
        None => own_target(home, place, at, next),
        Some(var) => Target::Local(var),
    }
}

// A member of what is written before it, which begins at this point. Of a class it is no node.
#[tactic(auto, using(crate::proofs::NodeForms::node_forms))]
fn member_target(receiver: Receiver, place: Place, of: TExpr, point: u32, next: &mut u32) -> Target
    requires { next.old ≡ point + count.nodes (shown of) }
    ensures made { target_seen result ≡ is.selected_target receiver (Some place) (shown of) }
    ensures counted { next.new ≡ point + is.target_nodes (target_seen result) }
    ensures small { next.new ≤ next.old }
{
    match receiver {
        Receiver::Own | Receiver::Class(_) => {
            *next = point;
            Target::Static(place)
        }
        Receiver::Object(_) => Target::Field(of, place),
    }
}

#[tactic(auto, using(crate::proofs::NodeForms::node_forms))]
fn selected_target(
    receiver: Receiver,
    place: Option<Place>,
    of: TExpr,
    point: u32,
    next: &mut u32,
) -> Target
    requires { next.old ≡ point + count.nodes (shown of) }
    ensures made { target_seen result ≡ is.selected_target receiver place (shown of) }
    ensures counted { next.new ≡ point + is.target_nodes (target_seen result) }
    ensures small { next.new ≤ next.old }
{
    match place {
        None => {
            *next = point;
            Target::Nowhere
        }
        Some(place) => member_target(receiver, place, of, point, next),
    }
}

/// What is assigned to, of which the object begins at the next point. The target is no node.
#[tactic(auto, using(crate::proofs::ExprFamilies::target_forms, crate::proofs::TargetForms::forms))]
pub(crate) fn type_target(
    alloc: Global,
    home: &Home<'_>,
    frame: &Frame<'_>,
    next: &mut u32,
    target: &Expr,
) -> Result<Target, NoMemory>
    requires room { next.old + 2 * nodes (tree.shown target.now) < 2 ^ 32 }
    requires ints { no_ints (tree.shown target.now) ≡ 0 }
    ensures made { IfOk result (λ t. target_seen t
        ≡ is.target (seen home.now) (frame_seen frame.now) next.old (tree.shown target.now)) }
    ensures counted { IfOk result (λ t.
        next.new ≡ next.old + is.target_nodes (target_seen t)) }
    ensures small { OnOk result (next.new ≤ next.old + 2 * nodes (tree.shown target.now)) }
{
    match &target.kind {
        ExprKind::Name(name) => {
            let place = selected(home, Receiver::Own, name);
            Ok(named_target(home, frame.named(name), place, target.at, next))
        }
        ExprKind::Field(of, field) => {
            let point = *next;
            let found = type_expr(alloc, home, frame, next, of)?;
            let receiver = receiver_of(home, &frame.locals, of, found.ty);
            let place = selected(home, receiver, &field.name);
            Ok(selected_target(receiver, place, found.expr, point, next))
        }
        ExprKind::Int(_)
        | ExprKind::True
        | ExprKind::False
        | ExprKind::Null
        | ExprKind::This
        | ExprKind::New(_)
        | ExprKind::Call(_, _, _)
        | ExprKind::Neg(_)
        | ExprKind::Not(_)
        | ExprKind::Binary(_, _, _) => Ok(Target::Nowhere),
    }
}

/// The assignment of a value, with its place and its point.
#[tactic(auto, using(par_typed::proofs::Shown::doings))]
pub(crate) fn assignment(target: Target, value: TExpr, at: u32, point: u32) -> TStmt
    ensures { does result ≡ is.assignment (target_seen target) (shown value) at point }
{
    let kind = match target {
        Target::Nowhere => TStmtKind::Eval(value),
        Target::Local(var) => TStmtKind::SetLocal(var.number, var.policy, value),
        Target::Static(field) => TStmtKind::SetStatic(field.class, field.number, value),
        Target::Field(of, field) => TStmtKind::SetField(of, field.class, field.number, value),
    };
    TStmt { kind, at, point }
}
