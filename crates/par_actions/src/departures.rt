//! Instructions that leave their method, with or without a result, or by a throw.

ghost use Rattle.std.specs.Prelude.{◌≡◌, List, slice_index_or, false};
ghost use Rattle.par_values.specs.Areas.{Name, Areas};
ghost use Rattle.par_values.specs.declared.kind.Kind.TheVariants as kind;
ghost use Rattle.par_values.specs.Operations.{Leave, LeaveWith, Throw};
ghost use Rattle.par_values.specs.Reasons.{Spot};
ghost use Rattle.par_actions.specs.Done.{IsRoomy, Comes};
ghost use Rattle.par_actions.specs.Fits.{accepts};
ghost use Rattle.par_actions.specs.Leaving.{HasResult, KnowsExceptions};

use crate::done::Done;
use crate::fit::{Fit, accepts};
use crate::operands::{Number, Reference, last_number, last_reference};
use par_stack::Stack;
use par_values::value::MVal;

/// What a method gives.
#[derive(Clone, Copy, PartialEq, Eq)]
pub enum Gives {
    Nothing,
    Number,
    Object(Fit),
}

/// Leaves a method without a result.
pub fn leave(stack: &Stack, gives: Gives) -> Done
    ensures { (classes : List Name) (spot : Spot) (program : Areas) →
        IsRoomy spot stack.now → HasResult classes spot gives →
        Comes result classes spot Leave program stack.now stack.now }
{
    match gives {
        Gives::Nothing => Done::Returns,
        Gives::Number => Done::Bad(8),
        Gives::Object(_) => Done::Bad(8),
    }
}

/// Leaves a method with a number.
pub fn leave_number(stack: &Stack, gives: Gives) -> Done
    ensures { (classes : List Name) (spot : Spot) (program : Areas) →
        IsRoomy spot stack.now → HasResult classes spot gives →
        Comes result classes spot (LeaveWith kind.Number) program stack.now stack.now }
{
    let number = match last_number(stack) {
        Number::Missing => return Done::Bad(1),
        Number::Unfit => return Done::Bad(2),
        Number::Is(number) => number,
    };
    match gives {
        Gives::Nothing => Done::Bad(8),
        Gives::Number => Done::ReturnsWith(MVal::Int(number)),
        Gives::Object(_) => Done::Bad(8),
    }
}

/// Leaves a method with a reference.
pub fn leave_object(stack: &Stack, gives: Gives) -> Done
    ensures { (classes : List Name) (spot : Spot) (program : Areas) →
        IsRoomy spot stack.now → HasResult classes spot gives →
        Comes result classes spot (LeaveWith kind.AnyObject) program stack.now stack.now }
{
    let value = match last_reference(stack) {
        Reference::Missing => return Done::Bad(1),
        Reference::Unfit => return Done::Bad(2),
        Reference::Is(value) => value,
    };
    match gives {
        Gives::Nothing => Done::Bad(8),
        Gives::Number => Done::Bad(8),
        Gives::Object(fit) => {
            if accepts(fit, value) {
                Done::ReturnsWith(value)
            } else {
                Done::Bad(2)
            }
        }
    }
}

/// Whether an object is of a class of exceptions, which are told by their numbers.
pub fn is_exception(exceptions: &[bool], class: u16) -> bool
    ensures { result ≡ slice_index_or exceptions.now class false }
{
    match exceptions.get(class as usize) {
        Some(flag) => *flag,
        None => false,
    }
}

/// Throws an object.
pub fn throw(stack: &Stack, exceptions: &[bool]) -> Done
    ensures { (classes : List Name) (spot : Spot) (program : Areas) →
        IsRoomy spot stack.now → KnowsExceptions spot exceptions.now →
        Comes result classes spot Throw program stack.now stack.now }
{
    let value = match last_reference(stack) {
        Reference::Missing => return Done::Bad(1),
        Reference::Unfit => return Done::Bad(2),
        Reference::Is(value) => value,
    };
    match value {
        MVal::Null => Done::ThrowsNull(None),
        MVal::Int(_) => Done::Bad(2),
        MVal::Ref(class, _) => {
            if is_exception(exceptions, class) {
                Done::Throws(value, None)
            } else {
                Done::Throws(value, Some(9))
            }
        }
    }
}
