//! Which values fit a type.

ghost use Rattle.std.specs.Prelude.{◌≡◌};
ghost use Rattle.par_scope.specs.Members.{any_value, value_of};
ghost use Rattle.par_type_rules.specs.Fits as is;

use par_completes::par_lexer::operator::BinOp;
use par_completes::par_typed::ty::Ty;
use par_scope::locals::Slot;

/// Any value.
pub(crate) fn any_value() -> Slot
    ensures { result ≡ any_value }
{
    Slot {
        ty: None,
        notnull: false,
    }
}

/// A value of this type.
pub(crate) fn value_of(ty: Ty) -> Slot
    ensures { result ≡ value_of ty }
{
    Slot {
        ty: Some(ty),
        notnull: false,
    }
}

#[tactic(auto, unfolding(crate::specs::Fits::is_value))]
fn is_value(ty: Option<Ty>) -> bool
    ensures { result ≡ is.is_value ty }
{
    match ty {
        None => true,
        Some(ty) => match ty {
            Ty::Int | Ty::Boolean | Ty::Class(_) | Ty::Null => true,
            Ty::Void => false,
        },
    }
}

#[tactic(auto, unfolding(crate::specs::Fits::is_int))]
fn is_int(ty: Option<Ty>) -> bool
    ensures { result ≡ is.is_int ty }
{
    match ty {
        None => true,
        Some(ty) => match ty {
            Ty::Int => true,
            Ty::Boolean | Ty::Class(_) | Ty::Null | Ty::Void => false,
        },
    }
}

#[tactic(auto, unfolding(crate::specs::Fits::is_boolean))]
fn is_boolean(ty: Option<Ty>) -> bool
    ensures { result ≡ is.is_boolean ty }
{
    match ty {
        None => true,
        Some(ty) => match ty {
            Ty::Boolean => true,
            Ty::Int | Ty::Class(_) | Ty::Null | Ty::Void => false,
        },
    }
}

#[tactic(auto, unfolding(crate::specs::Fits::is_of_class))]
fn is_of_class(class: u16, ty: Option<Ty>) -> bool
    ensures { result ≡ is.is_of_class class ty }
{
    match ty {
        None => true,
        Some(ty) => match ty {
            Ty::Class(other) => class == other,
            Ty::Null => true,
            Ty::Int | Ty::Boolean | Ty::Void => false,
        },
    }
}

#[tactic(auto, unfolding(crate::specs::Fits::is_reference))]
fn is_reference(ty: Option<Ty>) -> bool
    ensures { result ≡ is.is_reference ty }
{
    match ty {
        None => true,
        Some(ty) => match ty {
            Ty::Class(_) | Ty::Null => true,
            Ty::Int | Ty::Boolean | Ty::Void => false,
        },
    }
}

#[tactic(auto, unfolding(crate::specs::Fits::are_alike))]
pub(crate) fn are_alike(one: Option<Ty>, other: Option<Ty>) -> bool
    ensures { result ≡ is.are_alike one other }
{
    match one {
        None => is_value(other),
        Some(one) => match one {
            Ty::Int => is_int(other),
            Ty::Boolean => is_boolean(other),
            Ty::Class(class) => is_of_class(class, other),
            Ty::Null => is_reference(other),
            Ty::Void => false,
        },
    }
}

pub(crate) fn is_void(ty: Option<Ty>) -> bool
    ensures { result ≡ is.is_void ty }
{
    match ty {
        None => false,
        Some(ty) => match ty {
            Ty::Void => true,
            Ty::Int | Ty::Boolean | Ty::Class(_) | Ty::Null => false,
        },
    }
}

/// What stands beside an operator.
pub(crate) fn operand(op: BinOp) -> Slot
    ensures { result ≡ is.operand op }
{
    match op {
        BinOp::Or | BinOp::And => value_of(Ty::Boolean),
        BinOp::Eq | BinOp::Ne => any_value(),
        BinOp::BitOr
        | BinOp::BitXor
        | BinOp::BitAnd
        | BinOp::Lt
        | BinOp::Le
        | BinOp::Gt
        | BinOp::Ge
        | BinOp::Shl
        | BinOp::Shr
        | BinOp::Ushr
        | BinOp::Add
        | BinOp::Sub
        | BinOp::Mul
        | BinOp::Div
        | BinOp::Rem => value_of(Ty::Int),
    }
}

fn is_equality(op: BinOp) -> bool
    ensures { result ≡ is.is_equality op }
{
    match op {
        BinOp::Eq | BinOp::Ne => true,
        BinOp::Or
        | BinOp::And
        | BinOp::BitOr
        | BinOp::BitXor
        | BinOp::BitAnd
        | BinOp::Lt
        | BinOp::Le
        | BinOp::Gt
        | BinOp::Ge
        | BinOp::Shl
        | BinOp::Shr
        | BinOp::Ushr
        | BinOp::Add
        | BinOp::Sub
        | BinOp::Mul
        | BinOp::Div
        | BinOp::Rem => false,
    }
}

/// Whether the operator may stand between these two.
pub(crate) fn suits(op: BinOp, one: Option<Ty>, other: Option<Ty>) -> bool
    ensures { result ≡ is.suits op one other }
{
    !is_equality(op) || are_alike(one, other)
}
