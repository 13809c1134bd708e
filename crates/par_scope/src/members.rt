//! The members of the classes of a table.

ghost use Rattle.std.specs.Prelude.{◌≡◌};
ghost use Rattle.std.specs.Option.{option_copied};
ghost use Rattle.par_scope.specs.Members as is;

use crate::locals::Slot;
use par_typed::table::{ChannelInfo, FieldInfo, MethodInfo, ParamInfo, Table};
use par_typed::ty::Ty;

/// The number of a class and that of one of its fields, its channels or its methods.
#[derive(Clone, Copy)]
pub struct Place {
    pub class: u16,
    pub number: u16,
}

/// The field at this place.
pub fn field_at<'a>(table: &'a Table, place: Place) -> Option<&'a FieldInfo>
    ensures { option_copied result ≡ is.field_at table.now place }
{
    match table.classes.get(usize::from(place.class)) {
        None => None,
        Some(class) => class.fields.get(usize::from(place.number)),
    }
}

/// The channel at this place.
pub fn channel_at<'a>(table: &'a Table, place: Place) -> Option<&'a ChannelInfo>
    ensures { option_copied result ≡ is.channel_at table.now place }
{
    match table.classes.get(usize::from(place.class)) {
        None => None,
        Some(class) => class.channels.get(usize::from(place.number)),
    }
}

/// The method at this place.
pub fn method_at<'a>(table: &'a Table, place: Place) -> Option<&'a MethodInfo>
    ensures { option_copied result ≡ is.method_at table.now place }
{
    match table.classes.get(usize::from(place.class)) {
        None => None,
        Some(class) => class.methods.get(usize::from(place.number)),
    }
}

/// Whether this is an exception class.
#[tactic(auto, unfolding(crate::specs::Members::is_exception))]
pub fn is_exception(table: &Table, class: Option<u16>) -> bool
    ensures { result ≡ is.is_exception table.now class }
{
    match class {
        None => false,
        Some(class) => match table.classes.get(usize::from(class)) {
            None => false,
            Some(class) => class.exception,
        },
    }
}

/// The type of a field, if there is one.
pub fn field_type(field: Option<&FieldInfo>) -> Option<Ty>
    ensures { result ≡ is.field_type (option_copied field.entry) }
{
    match field {
        None => None,
        Some(field) => Some(field.ty),
    }
}

pub(crate) fn field_is_static(field: Option<&FieldInfo>) -> bool
    ensures { result ≡ is.field_is_static (option_copied field.entry) }
{
    match field {
        None => false,
        Some(field) => field.is_static,
    }
}

pub(crate) fn method_is_static(method: Option<&MethodInfo>) -> bool
    ensures { result ≡ is.method_is_static (option_copied method.entry) }
{
    match method {
        None => false,
        Some(method) => method.is_static,
    }
}

pub(crate) fn method_type(method: Option<&MethodInfo>) -> Option<Ty>
    ensures { result ≡ is.method_type (option_copied method.entry) }
{
    match method {
        None => None,
        Some(method) => Some(method.result),
    }
}

pub(crate) fn method_arity(method: Option<&MethodInfo>) -> Option<usize>
    ensures { result ≡ is.method_arity (option_copied method.entry) }
{
    match method {
        None => None,
        Some(method) => Some(method.params.len()),
    }
}

pub(crate) fn channel_type(channel: Option<&ChannelInfo>) -> Option<Ty>
    ensures { result ≡ is.channel_type (option_copied channel.entry) }
{
    match channel {
        None => None,
        Some(channel) => Some(if channel.is_input { Ty::Int } else { Ty::Void }),
    }
}

pub(crate) fn channel_arity(channel: Option<&ChannelInfo>) -> Option<usize>
    ensures { result ≡ is.channel_arity (option_copied channel.entry) }
{
    match channel {
        None => None,
        Some(channel) => Some(if channel.is_input { 0 } else { 1 }),
    }
}

pub(crate) fn number_slot(arity: Option<usize>, place: usize) -> Slot
    ensures { result ≡ is.number_slot arity place }
{
    match arity {
        Some(many) if place < many => Slot {
            ty: Some(Ty::Int),
            notnull: false,
        },
        _ => Slot {
            ty: None,
            notnull: false,
        },
    }
}

pub(crate) fn param_slot(param: Option<&ParamInfo>) -> Slot
    ensures { result ≡ is.param_slot (option_copied param.entry) }
{
    match param {
        None => Slot {
            ty: None,
            notnull: false,
        },
        Some(param) => Slot {
            ty: Some(param.ty),
            notnull: param.notnull,
        },
    }
}
