//! The operands that were pushed last, as an instruction needs them.

ghost use Rattle.std.specs.Prelude.{◌≡◌, List, not, slice_get};
ghost use Rattle.par_values.specs.Areas.{Name, fits, local_value};
ghost use Rattle.par_values.specs.declared.kind.Kind.TheVariants.{AnyObject};
ghost use Rattle.par_stack.specs.Frames.{running};
ghost use Rattle.par_actions.specs.Last.{IsNumber, AreNumbers, IsReference, AreReferences};
ghost use Rattle.par_actions.specs.Last.{IsHeldNumber};

use par_stack::Stack;
use par_values::value::MVal;

/// The operand that was pushed last, where it is to be a number.
#[derive(Clone, Copy)]
pub(crate) enum Number {
    Is(i32),
    Missing,
    Unfit,
}

/// The two that were pushed last, where they are to be numbers.
#[derive(Clone, Copy)]
pub(crate) enum Numbers {
    /// The last one stands second.
    Are(i32, i32),
    Missing,
    Unfit,
}

/// The operand that was pushed last, where it is to be a reference.
#[derive(Clone, Copy)]
pub(crate) enum Reference {
    Is(MVal),
    Missing,
    Unfit,
}

/// The two that were pushed last, where they are to be references.
#[derive(Clone, Copy)]
pub(crate) enum References {
    /// The last one stands second.
    Are(MVal, MVal),
    Missing,
    Unfit,
}

/// Whether a value is a number, and no reference.
pub(crate) fn is_int(value: MVal) -> bool
    ensures { (classes : List Name) → result ≡ not (fits classes AnyObject value) }
{
    matches!(value, MVal::Int(_))
}

pub(crate) fn last_number(stack: &Stack) -> Number
    ensures { IsNumber result (running stack.now).operands }
{
    let Some(value) = stack.operand(0) else {
        return Number::Missing;
    };
    let MVal::Int(number) = value else {
        return Number::Unfit;
    };
    Number::Is(number)
}

pub(crate) fn last_numbers(stack: &Stack) -> Numbers
    ensures { AreNumbers result (running stack.now).operands }
{
    // The deeper one first: where it is there, the other one is, and the compiler knows it.
    let Some(first) = stack.operand(1) else {
        return Numbers::Missing;
    };
    let Some(second) = stack.operand(0) else {
        return Numbers::Missing;
    };
    let MVal::Int(second) = second else {
        return Numbers::Unfit;
    };
    let MVal::Int(first) = first else {
        return Numbers::Unfit;
    };
    Numbers::Are(first, second)
}

pub(crate) fn last_reference(stack: &Stack) -> Reference
    ensures { IsReference result (running stack.now).operands }
{
    let Some(value) = stack.operand(0) else {
        return Reference::Missing;
    };
    if is_int(value) {
        return Reference::Unfit;
    }
    Reference::Is(value)
}

pub(crate) fn last_references(stack: &Stack) -> References
    ensures { AreReferences result (running stack.now).operands }
{
    let Some(second) = stack.operand(0) else {
        return References::Missing;
    };
    let Some(first) = stack.operand(1) else {
        return References::Missing;
    };
    if is_int(second) || is_int(first) {
        return References::Unfit;
    }
    References::Are(first, second)
}

/// The number that a local holds, where it holds one.
pub(crate) fn local_number(stack: &Stack, place: u8) -> Option<i32>
    ensures { IsHeldNumber result (local_value (slice_get (running stack.now).locals place)) }
{
    let Some(value) = stack.local(place as u16) else {
        return None;
    };
    let MVal::Int(number) = value else {
        return None;
    };
    Some(number)
}
