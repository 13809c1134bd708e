//! One node of a typed tree.

ghost use Rattle.std.specs.Prelude.{◌≡◌, ◌+◌, ◌<◌, ◌^◌, Some, false};
ghost use Rattle.par_typed.specs.Shown.{kind_at, shown};
ghost use Rattle.par_type_rules.specs.TypedExprs.{known, numbered, mark_of};
ghost use Rattle.par_annotation.specs.Seen.{marked};

use par_scope::meaning::Receiver;
use par_typed::expr::{TExpr, TExprKind};
use par_typed::ty::Ty;

/// Where an expression stands, and what is known of it. It has no type where a rule is broken.
#[derive(Clone, Copy)]
pub(crate) struct Spot {
    pub at: u32,
    pub point: u32,
    pub ty: Option<Ty>,
    pub sure: bool,
}

/// An expression that is made, and its type.
#[derive(Drop)]
pub(crate) struct Made {
    pub expr: TExpr,
    pub ty: Option<Ty>,
}

/// What a call is made on, and what is written of it.
#[derive(Drop)]
pub(crate) struct On {
    pub receiver: Receiver,
    pub written: Option<TExpr>,
}

fn known(ty: Option<Ty>) -> Ty
    ensures { result ≡ known ty }
{
    match ty {
        None => Ty::Null,
        Some(ty) => ty,
    }
}

/// The number, or 0 where there is none.
pub(crate) fn numbered(number: Option<u16>) -> u16
    ensures { result ≡ numbered number }
{
    match number {
        None => 0,
        Some(number) => number,
    }
}

/// The next point, which is taken.
pub(crate) fn take_point(next: &mut u32) -> u32
    requires { next.old + 1 < 2 ^ 32 }
    ensures taken { result ≡ next.old }
    ensures counted { next.new ≡ next.old + 1 }
{
    let point = *next;
    *next += 1;
    point
}

/// An expression of this kind.
pub(crate) fn node(kind: TExprKind, spot: Spot) -> TExpr
    ensures { shown result ≡ kind_at kind (marked spot) }
{
    TExpr {
        kind,
        at: spot.at,
        point: spot.point,
        ty: known(spot.ty),
        sure: spot.sure,
    }
}

/// An expression of this kind and type, which may be null.
pub(crate) fn typed_node(kind: TExprKind, at: u32, point: u32, ty: Ty) -> Made
    ensures made { shown result.expr ≡ kind_at kind (mark_of at point (Some ty) false) }
    ensures typed { result.ty ≡ Some ty }
{
    let ty = Some(ty);
    let spot = Spot {
        at,
        point,
        ty,
        sure: false,
    };
    Made {
        expr: node(kind, spot),
        ty,
    }
}
