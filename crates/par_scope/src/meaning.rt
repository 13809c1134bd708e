//! Which member a name means.

ghost use Rattle.std.specs.Prelude.{◌≡◌};
ghost use Rattle.std.specs.Option.{option_copied};
ghost use Rattle.par_tree.specs.Shown.{shown};
ghost use Rattle.par_scope.specs.Home.{seen};
ghost use Rattle.par_scope.specs.Meaning as is;

use crate::home::Home;
use crate::index::TableIndex;
use crate::locals::{Locals, Slot};
use crate::members::{
    Place, channel_arity, channel_at, channel_type, field_at, field_is_static, field_type,
    method_arity, method_at, method_is_static, method_type, number_slot, param_slot,
};
use par_base::name::Name;
use par_tree::expr::{BinOp, Expr, ExprKind};
use par_typed::table::{MethodInfo, Table};
use par_typed::ty::Ty;

/// What a member is looked for in.
#[derive(Clone, Copy)]
pub enum Receiver {
    /// The own class, where nothing stands before the member.
    Own,
    /// The class of this number, none where there is no such class.
    Class(Option<u16>),
    /// An object of this type, none where it fits everywhere.
    Object(Option<Ty>),
}

/// What a call calls.
#[derive(Clone, Copy)]
pub enum Callee {
    Unknown,
    Channel(Place),
    Method(Place),
}

#[tactic(auto, unfolding(crate::specs::Meaning::class_of))]
fn class_of(ty: Option<Ty>) -> Option<u16>
    ensures { result ≡ is.class_of ty }
{
    match ty {
        None => None,
        Some(ty) => match ty {
            Ty::Class(class) => Some(class),
            Ty::Int | Ty::Boolean | Ty::Null | Ty::Void => None,
        },
    }
}

#[tactic(auto, unfolding(crate::specs::Meaning::field_in))]
fn field_in(names: &TableIndex<'_>, class: Option<u16>, name: &Name) -> Option<Place>
    ensures { result ≡ is.field_in names.now class name.now }
{
    match class {
        None => None,
        Some(class) => match names.field(class, name) {
            None => None,
            Some(number) => Some(Place { class, number }),
        },
    }
}

/// The declared type of the field at this place.
pub fn place_type(table: &Table, place: Option<Place>) -> Option<Ty>
    ensures { result ≡ is.place_type table.now place }
{
    match place {
        None => None,
        Some(place) => field_type(field_at(table, place)),
    }
}

#[tactic(auto, unfolding(crate::specs::Meaning::static_field))]
fn static_field(table: &Table, place: Option<Place>) -> Option<Place>
    ensures { result ≡ is.static_field table.now place }
{
    match place {
        None => None,
        Some(place) => {
            if field_is_static(field_at(table, place)) {
                Some(place)
            } else {
                None
            }
        }
    }
}

#[tactic(auto, unfolding(crate::specs::Meaning::object_field))]
fn object_field(table: &Table, place: Option<Place>) -> Option<Place>
    ensures { result ≡ is.object_field table.now place }
{
    match place {
        None => None,
        Some(place) => {
            if field_is_static(field_at(table, place)) {
                None
            } else {
                Some(place)
            }
        }
    }
}

/// The field that is selected: any of the own class, a static one of a class, one of an object.
#[tactic(auto, unfolding(crate::specs::Meaning::selected))]
pub fn selected(home: &Home<'_>, receiver: Receiver, name: &Name) -> Option<Place>
    ensures { result ≡ is.selected (seen home.now) receiver name.now }
{
    match receiver {
        Receiver::Own => field_in(home.names, Some(home.class), name),
        Receiver::Class(class) => static_field(home.table, field_in(home.names, class, name)),
        Receiver::Object(ty) => object_field(home.table, field_in(home.names, class_of(ty), name)),
    }
}

fn method_of(class: u16, number: Option<u16>) -> Callee
    ensures { result ≡ is.method_of class number }
{
    match number {
        None => Callee::Unknown,
        Some(number) => Callee::Method(Place { class, number }),
    }
}

fn channel_or_method(class: u16, channel: Option<u16>, method: Option<u16>) -> Callee
    ensures { result ≡ is.channel_or_method class channel method }
{
    match channel {
        None => method_of(class, method),
        Some(number) => Callee::Channel(Place { class, number }),
    }
}

#[tactic(auto, unfolding(crate::specs::Meaning::callee_in))]
fn callee_in(names: &TableIndex<'_>, class: Option<u16>, name: &Name) -> Callee
    ensures { result ≡ is.callee_in names.now class name.now }
{
    match class {
        None => Callee::Unknown,
        Some(class) => {
            let channel = names.channel(class, name);
            channel_or_method(class, channel, names.method(class, name))
        }
    }
}

#[tactic(auto, unfolding(crate::specs::Meaning::static_callee))]
fn static_callee(table: &Table, callee: Callee) -> Callee
    ensures { result ≡ is.static_callee table.now callee }
{
    match callee {
        Callee::Unknown => Callee::Unknown,
        Callee::Channel(place) => Callee::Channel(place),
        Callee::Method(place) => {
            if method_is_static(method_at(table, place)) {
                Callee::Method(place)
            } else {
                Callee::Unknown
            }
        }
    }
}

#[tactic(auto, unfolding(crate::specs::Meaning::object_callee))]
fn object_callee(table: &Table, callee: Callee) -> Callee
    ensures { result ≡ is.object_callee table.now callee }
{
    match callee {
        Callee::Unknown | Callee::Channel(_) => Callee::Unknown,
        Callee::Method(place) => {
            if method_is_static(method_at(table, place)) {
                Callee::Unknown
            } else {
                Callee::Method(place)
            }
        }
    }
}

/// What is called: any of the own class, a static one of a class, a method of an object.
#[tactic(auto, unfolding(crate::specs::Meaning::called))]
pub fn called(home: &Home<'_>, receiver: Receiver, name: &Name) -> Callee
    ensures { result ≡ is.called (seen home.now) receiver name.now }
{
    match receiver {
        Receiver::Own => callee_in(home.names, Some(home.class), name),
        Receiver::Class(class) => static_callee(home.table, callee_in(home.names, class, name)),
        Receiver::Object(ty) => {
            object_callee(home.table, callee_in(home.names, class_of(ty), name))
        }
    }
}

/// The type of what a call gives.
#[tactic(auto, unfolding(crate::specs::Meaning::callee_type))]
pub fn callee_type(table: &Table, callee: Callee) -> Option<Ty>
    ensures { result ≡ is.callee_type table.now callee }
{
    match callee {
        Callee::Unknown => None,
        Callee::Channel(place) => channel_type(channel_at(table, place)),
        Callee::Method(place) => method_type(method_at(table, place)),
    }
}

/// How many arguments a call takes, where it is known what is called.
#[tactic(auto, unfolding(crate::specs::Meaning::arity))]
pub fn arity(table: &Table, callee: Callee) -> Option<usize>
    ensures { result ≡ is.arity table.now callee }
{
    match callee {
        Callee::Unknown => None,
        Callee::Channel(place) => channel_arity(channel_at(table, place)),
        Callee::Method(place) => method_arity(method_at(table, place)),
    }
}

fn params_slot(method: Option<&MethodInfo>, place: usize) -> Slot
    ensures { result ≡ is.params_slot (option_copied method.entry) place }
{
    match method {
        None => param_slot(None),
        Some(method) => param_slot(method.params.get(place)),
    }
}

/// What the argument at this place may be.
#[tactic(auto, unfolding(crate::specs::Meaning::param_at))]
pub fn param_at(table: &Table, callee: Callee, place: usize) -> Slot
    ensures { result ≡ is.param_at table.now callee place }
{
    match callee {
        Callee::Unknown => Slot {
            ty: None,
            notnull: false,
        },
        Callee::Channel(channel) => number_slot(channel_arity(channel_at(table, channel)), place),
        Callee::Method(method) => params_slot(method_at(table, method), place),
    }
}

fn is_value(home: &Home<'_>, locals: &Locals<'_>, name: &Name) -> bool
    ensures { result ≡ is.is_value (seen home.now) locals.now name.now }
{
    locals.named(name).is_some() || selected(home, Receiver::Own, name).is_some()
}

/// What stands before a member, of this type. A simple name that is neither a local nor a field of
/// the own class is a class.
pub fn receiver_of(home: &Home<'_>, locals: &Locals<'_>, expr: &Expr, ty: Option<Ty>) -> Receiver
    ensures { result ≡ is.receiver_of (seen home.now) locals.now (shown expr.now) ty }
{
    match &expr.kind {
        ExprKind::Name(name) => {
            if is_value(home, locals, name) {
                Receiver::Object(ty)
            } else {
                Receiver::Class(home.names.class(name))
            }
        }
        _ => Receiver::Object(ty),
    }
}

/// The type of what an operator gives.
pub fn op_type(op: BinOp) -> Ty
    ensures { result ≡ is.op_type op }
{
    match op {
        BinOp::Or
        | BinOp::And
        | BinOp::Eq
        | BinOp::Ne
        | BinOp::Lt
        | BinOp::Le
        | BinOp::Gt
        | BinOp::Ge => Ty::Boolean,
        BinOp::BitOr
        | BinOp::BitXor
        | BinOp::BitAnd
        | BinOp::Shl
        | BinOp::Shr
        | BinOp::Ushr
        | BinOp::Add
        | BinOp::Sub
        | BinOp::Mul
        | BinOp::Div
        | BinOp::Rem => Ty::Int,
    }
}

/// The type of a simple name.
pub fn type_of_name(home: &Home<'_>, locals: &Locals<'_>, name: &Name) -> Option<Ty>
    ensures { result ≡ is.type_of_name (seen home.now) locals.now name.now }
{
    match locals.named(name) {
        None => place_type(home.table, selected(home, Receiver::Own, name)),
        Some(slot) => slot.ty,
    }
}

/// Whether the expression is never null.
pub fn sure(locals: &Locals<'_>, expr: &Expr) -> bool
    ensures { result ≡ is.sure locals.now (shown expr.now) }
{
    match &expr.kind {
        ExprKind::This | ExprKind::New(_) => true,
        ExprKind::Name(name) => match locals.named(name) {
            None => false,
            Some(slot) => slot.notnull,
        },
        _ => false,
    }
}
