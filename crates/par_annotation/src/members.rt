//! Members, as nodes name them.

ghost use Rattle.std.specs.Prelude.{◌≡◌, ◌+◌, ◌<◌, ◌≤◌, ◌^◌, Some, IfOk, OnOk, option_map};
ghost use Rattle.par_typed.specs.Nodes.{nodes, may_nodes};
ghost use Rattle.par_typed.specs.Shown.{shown, may_shown, receiver};
ghost use Rattle.par_scope.specs.Home.{seen};
ghost use Rattle.par_scope.specs.Members as is;
ghost use Rattle.par_type_rules.specs.TypedExprs as made;
ghost use Rattle.par_annotation.specs.Seen.{marked, var_seen};

use crate::frame::Var;
use crate::node::{On, Spot, node};
use par_base::memory::NoMemory;
use par_scope::home::Home;
use par_scope::meaning::Receiver;
use par_scope::members::{Place, field_at, method_at};
use par_typed::expr::{TExpr, TExprKind};
use par_typed::table::Table;
use par_typed::ty::Ty;
use std::alloc::Global;

/// Whether the field at this place is static.
pub(crate) fn field_is_static(table: &Table, place: Place) -> bool
    ensures { result ≡ is.field_is_static (is.field_at table.now place) }
{
    match field_at(table, place) {
        None => false,
        Some(field) => field.is_static,
    }
}

/// Whether the method at this place is static.
pub(crate) fn method_is_static(table: &Table, place: Place) -> bool
    ensures { result ≡ is.method_is_static (is.method_at table.now place) }
{
    match method_at(table, place) {
        None => false,
        Some(method) => method.is_static,
    }
}

/// The receiver where it is not written.
#[tactic(auto, using(par_typed::proofs::Shown::shows))]
pub(crate) fn own_this(home: &Home<'_>, at: u32, point: u32) -> TExpr
    ensures { shown result ≡ made.own_this (seen home.now) at point }
{
    let spot = Spot {
        at,
        point,
        ty: Some(Ty::Class(home.class)),
        sure: true,
    };
    node(TExprKind::This, spot)
}

// A field of the own class: a static one, or one of the receiver that is not written.
#[tactic(auto, using(crate::proofs::NodeForms::node_forms))]
fn own_field(
    alloc: Global,
    home: &Home<'_>,
    place: Place,
    next: &mut u32,
    spot: Spot,
) -> Result<TExpr, NoMemory>
    requires next { next.old ≡ spot.point + 1 }
    requires room { next.old + 1 < 2 ^ 32 }
    ensures made { IfOk result (λ t. shown t
        ≡ made.own_field (is.field_is_static (is.field_at (seen home.now).table place))
        (seen home.now) place spot.at spot.point (marked spot)) }
    ensures counted { IfOk result (λ t. next.new ≡ spot.point + nodes (shown t)) }
    ensures small { OnOk result (next.new ≤ next.old + 1) }
{
    if field_is_static(home.table, place) {
        return Ok(node(TExprKind::Static(place.class, place.number), spot));
    }
    let this = own_this(home, spot.at, *next);
    *next += 1;
    let this = Box::new(alloc, this)?;
    Ok(node(TExprKind::Field(this, place.class, place.number), spot))
}

#[tactic(auto, using(crate::proofs::NodeForms::node_forms))]
fn field_named(
    alloc: Global,
    home: &Home<'_>,
    place: Option<Place>,
    next: &mut u32,
    spot: Spot,
) -> Result<TExpr, NoMemory>
    requires next { next.old ≡ spot.point + 1 }
    requires room { next.old + 1 < 2 ^ 32 }
    ensures made { IfOk result (λ t. shown t
        ≡ made.field_named (seen home.now) place spot.at spot.point (marked spot)) }
    ensures counted { IfOk result (λ t. next.new ≡ spot.point + nodes (shown t)) }
    ensures small { OnOk result (next.new ≤ next.old + 1) }
{
    match place {
        None => Ok(node(TExprKind::Null, spot)),
        Some(place) => own_field(alloc, home, place, next, spot),
    }
}

/// A local, else a field of the own class.
#[tactic(auto, using(crate::proofs::NodeForms::node_forms))]
pub(crate) fn name_made(
    alloc: Global,
    home: &Home<'_>,
    var: Option<Var>,
    place: Option<Place>,
    next: &mut u32,
    spot: Spot,
) -> Result<TExpr, NoMemory>
    requires next { next.old ≡ spot.point + 1 }
    requires room { next.old + 1 < 2 ^ 32 }
    ensures made { IfOk result (λ t. shown t
        ≡ made.name_typed (seen home.now) (option_map var_seen var) place
        spot.at spot.point (marked spot)) }
    ensures counted { IfOk result (λ t. next.new ≡ spot.point + nodes (shown t)) }
    ensures small { OnOk result (next.new ≤ next.old + 1) }
{
    match var {
        None => field_named(alloc, home, place, next, spot),
        Some(var) => Ok(node(TExprKind::Local(var.number), spot)),
    }
}

#[tactic(auto, using(crate::proofs::NodeForms::node_forms))]
fn member_of(
    alloc: Global,
    receiver: Receiver,
    place: Place,
    of: TExpr,
    next: &mut u32,
    spot: Spot,
) -> Result<TExpr, NoMemory>
    requires next { next.old ≡ spot.point + 1 + nodes (shown of) }
    requires room { spot.point + 1 < 2 ^ 32 }
    ensures made { IfOk result (λ t. shown t
        ≡ made.selection receiver (Some place) (shown of) (marked spot)) }
    ensures counted { IfOk result (λ t. next.new ≡ spot.point + nodes (shown t)) }
    ensures small { OnOk result (next.new ≤ next.old) }
{
    match receiver {
        Receiver::Own | Receiver::Class(_) => {
            *next = spot.point + 1;
            Ok(node(TExprKind::Static(place.class, place.number), spot))
        }
        Receiver::Object(_) => {
            let of = Box::new(alloc, of)?;
            Ok(node(TExprKind::Field(of, place.class, place.number), spot))
        }
    }
}

/// Of a class the static field, of an object one of its own. What stands before a class's field is
/// no node.
#[tactic(auto, using(crate::proofs::NodeForms::node_forms))]
pub(crate) fn selection(
    alloc: Global,
    receiver: Receiver,
    place: Option<Place>,
    of: TExpr,
    next: &mut u32,
    spot: Spot,
) -> Result<TExpr, NoMemory>
    requires next { next.old ≡ spot.point + 1 + nodes (shown of) }
    requires room { spot.point + 1 < 2 ^ 32 }
    ensures made { IfOk result (λ t. shown t
        ≡ made.selection receiver place (shown of) (marked spot)) }
    ensures counted { IfOk result (λ t. next.new ≡ spot.point + nodes (shown t)) }
    ensures small { OnOk result (next.new ≤ next.old) }
{
    match place {
        None => {
            *next = spot.point + 1;
            Ok(node(TExprKind::Null, spot))
        }
        Some(place) => member_of(alloc, receiver, place, of, next, spot),
    }
}

// The receiver of a member of the own class, where it has one. What is written before it is no
// node.
#[tactic(auto, using(crate::proofs::NodeForms::node_forms))]
fn own_receiver(
    alloc: Global,
    home: &Home<'_>,
    is_static: bool,
    next: &mut u32,
    spot: Spot,
) -> Result<Option<Box<TExpr>>, NoMemory>
    requires room { spot.point + 2 < 2 ^ 32 }
    ensures made { IfOk result (λ o. receiver o
        ≡ made.own_receiver is_static (made.own_this (seen home.now) spot.at (spot.point + 1))) }
    ensures counted { IfOk result (λ o. next.new ≡ spot.point + 1 + may_nodes (receiver o)) }
    ensures small { OnOk result (next.new ≤ spot.point + 2) }
{
    *next = spot.point + 1;
    if is_static {
        return Ok(None);
    }
    let receiver = own_this(home, spot.at, *next);
    *next += 1;
    let receiver = Box::new(alloc, receiver)?;
    Ok(Some(receiver))
}

fn boxed(alloc: Global, expr: Option<TExpr>) -> Result<Option<Box<TExpr>>, NoMemory>
    ensures { IfOk result (λ o. receiver o ≡ may_shown expr) }
{
    match expr {
        None => Ok(None),
        Some(expr) => {
            let expr = Box::new(alloc, expr)?;
            Ok(Some(expr))
        }
    }
}

/// The receiver of a method, of which this is written.
#[tactic(auto, using(crate::proofs::NodeForms::node_forms))]
pub(crate) fn method_receiver(
    alloc: Global,
    home: &Home<'_>,
    on: On,
    place: Place,
    next: &mut u32,
    spot: Spot,
) -> Result<Option<Box<TExpr>>, NoMemory>
    requires next { next.old ≡ spot.point + 1 + may_nodes (may_shown on.written) }
    requires room { next.old + 1 < 2 ^ 32 }
    ensures made { IfOk result (λ o. receiver o
        ≡ made.method_on on.receiver
        (is.method_is_static (is.method_at (seen home.now).table place))
        (may_shown on.written) (made.own_this (seen home.now) spot.at (spot.point + 1))) }
    ensures counted { IfOk result (λ o. next.new ≡ spot.point + 1 + may_nodes (receiver o)) }
    ensures small { OnOk result (next.new ≤ next.old + 1) }
{
    match on.receiver {
        Receiver::Own => {
            let is_static = method_is_static(home.table, place);
            own_receiver(alloc, home, is_static, next, spot)
        }
        Receiver::Class(_) => {
            *next = spot.point + 1;
            Ok(None)
        }
        Receiver::Object(_) => boxed(alloc, on.written),
    }
}
