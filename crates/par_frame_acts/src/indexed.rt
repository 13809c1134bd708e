//! Instructions with an index of the constant pool.

ghost use Rattle.std.specs.Prelude.{◌≡◌, [], ◌∷◌, ◌++◌, map, reverse, IfOk};
ghost use Rattle.par_frame_steps.specs.par_kinds.Shapes as shapes;
ghost use Rattle.par_frame_steps.specs.par_kinds.Acts as act;
ghost use Rattle.par_frame_steps.specs.Marks.{act_of, asked_of, also_of, given};
ghost use Rattle.par_frame_acts.specs.Shapes.{shape_of, callee_of};

use crate::descriptor::asked_kind;
use crate::forms::{one, plain, two};
use crate::shape::{Callee, PlaceShape};
use par_base::memory::NoMemory;
use par_frame_steps::{Act, Also, Asked, Flow, Leaves, PlaceKind};
use std::alloc::Global;

/// An index of a wrong kind.
fn misnamed<'f>(takes: Vec<Asked<'f>>) -> Act<'f>
    ensures { act_of result ≡ shapes.misnamed_act (map asked_of takes.entry.items) }
{
    called(true, takes, Also::Nothing, None)
}

/// What takes operands, pushes one or none, and goes on behind, or is wrong.
fn called<'f>(
    wrong: bool,
    takes: Vec<Asked<'f>>,
    also: Also<'f>,
    gives: Option<PlaceKind<'f>>,
) -> Act<'f>
    ensures { act_of result ≡ shapes.plain_act wrong (map asked_of takes.entry.items)
        (also_of also.entry) (given gives.entry) }
{
    Act {
        wrong,
        takes,
        also,
        leaves: Leaves::Gives(gives),
        flow: Flow::Onward,
    }
}

/// A number.
pub(crate) fn constant<'f>(alloc: Global, shape: PlaceShape<'f>) -> Result<Act<'f>, NoMemory>
    ensures { IfOk result (λ made. act_of made ≡ shapes.constant_act (shape_of shape.entry)) }
{
    match shape {
        PlaceShape::Number => Ok(plain(Vec::new(alloc), Some(PlaceKind::Int))),
        _ => Ok(misnamed(Vec::new(alloc))),
    }
}

/// The value of a static field.
pub(crate) fn read_static<'f>(alloc: Global, shape: PlaceShape<'f>) -> Result<Act<'f>, NoMemory>
    ensures { IfOk result (λ made. act_of made ≡ shapes.getstatic_act (shape_of shape.entry)) }
{
    match shape {
        PlaceShape::Field {
            is_static,
            kind: asked,
            ..
        } => {
            let takes = Vec::new(alloc);
            Ok(called(!is_static, takes, Also::Nothing, Some(asked_kind(asked))))
        },
        _ => Ok(misnamed(Vec::new(alloc))),
    }
}

/// A write of a static field.
pub(crate) fn written_static<'f>(alloc: Global, shape: PlaceShape<'f>) -> Result<Act<'f>, NoMemory>
    ensures { IfOk result (λ made. act_of made ≡ shapes.putstatic_act (shape_of shape.entry)) }
{
    match shape {
        PlaceShape::Field {
            is_static,
            kind: asked,
            ..
        } => {
            let takes = one(alloc, asked)?;
            Ok(called(!is_static, takes, Also::Nothing, None))
        },
        _ => Ok(misnamed(one(alloc, Asked::Anything)?)),
    }
}

/// The value of a field of an object.
pub(crate) fn read_field<'f>(alloc: Global, shape: PlaceShape<'f>) -> Result<Act<'f>, NoMemory>
    ensures { IfOk result (λ made. act_of made ≡ shapes.getfield_act (shape_of shape.entry)) }
{
    match shape {
        PlaceShape::Field {
            class,
            is_static,
            kind: asked,
        } => {
            let takes = one(alloc, Asked::Object(class))?;
            Ok(called(is_static, takes, Also::Nothing, Some(asked_kind(asked))))
        },
        _ => Ok(misnamed(one(alloc, Asked::AnyObject)?)),
    }
}

/// A write of a field of an object.
pub(crate) fn written_field<'f>(alloc: Global, shape: PlaceShape<'f>) -> Result<Act<'f>, NoMemory>
    ensures { IfOk result (λ made. act_of made ≡ shapes.putfield_act (shape_of shape.entry)) }
{
    match shape {
        PlaceShape::Field {
            class,
            is_static,
            kind: asked,
        } => {
            let takes = two(alloc, asked, Asked::Object(class))?;
            Ok(called(is_static, takes, Also::Nothing, None))
        },
        _ => Ok(misnamed(two(alloc, Asked::Anything, Asked::AnyObject)?)),
    }
}

/// An object of a class.
pub(crate) fn created<'f>(alloc: Global, shape: PlaceShape<'f>) -> Result<Act<'f>, NoMemory>
    ensures { IfOk result (λ made. act_of made ≡ shapes.new_act (shape_of shape.entry)) }
{
    match shape {
        PlaceShape::Class { name, is_made } => {
            let gives = Some(PlaceKind::Object(name));
            Ok(called(!is_made, Vec::new(alloc), Also::Nothing, gives))
        }
        _ => Ok(misnamed(Vec::new(alloc))),
    }
}

/// A call of a static method.
#[tactic(auto, using(crate::proofs::Turned::turned))]
pub(crate) fn static_call<'f>(alloc: Global, shape: PlaceShape<'f>) -> Result<Act<'f>, NoMemory>
    ensures { IfOk result (λ made. act_of made ≡ shapes.static_act (shape_of shape.entry)) }
{
    match shape {
        PlaceShape::Method(callee) => Ok(called(
            !callee.is_static,
            callee.takes,
            Also::Nothing,
            callee.result,
        )),
        _ => Ok(misnamed(Vec::new(alloc))),
    }
}

/// A call of an initializer.
#[tactic(auto, using(crate::proofs::Turned::turned))]
pub(crate) fn special_call<'f>(alloc: Global, shape: PlaceShape<'f>) -> Result<Act<'f>, NoMemory>
    ensures { IfOk result (λ made. act_of made ≡ shapes.special_act (shape_of shape.entry)) }
{
    match shape {
        PlaceShape::Method(callee) => {
            let wrong = !callee.is_initializer || callee.is_static;
            received(callee, wrong)
        }
        _ => Ok(misnamed(one(alloc, Asked::Anything)?)),
    }
}

/// A call of a method of an object.
#[tactic(auto, using(crate::proofs::Turned::turned))]
pub(crate) fn virtual_call<'f>(alloc: Global, shape: PlaceShape<'f>) -> Result<Act<'f>, NoMemory>
    ensures { IfOk result (λ made. act_of made ≡ shapes.virtual_act (shape_of shape.entry)) }
{
    match shape {
        PlaceShape::Method(callee) => {
            let wrong = callee.is_static;
            received(callee, wrong)
        }
        _ => Ok(misnamed(one(alloc, Asked::Anything)?)),
    }
}

/// A call with a receiver, or what is wrong.
fn received<'f>(callee: Callee<'f>, wrong: bool) -> Result<Act<'f>, NoMemory>
    ensures { IfOk result (λ made. act_of made ≡ shapes.plain_act wrong
        (reverse (callee_of callee.entry).takes ++ (callee_of callee.entry).receiver ∷ [])
        (callee_of callee.entry).also (callee_of callee.entry).results) }
{
    let mut takes = callee.takes;
    takes.push(callee.receiver)?;
    Ok(called(wrong, takes, callee.also, callee.result))
}
