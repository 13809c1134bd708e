//! What is made of numbers.

ghost use Rattle.std.specs.Prelude.{◌≡◌, ◌↔◌, ◌+ℤ◌, List, IsNone, IfSome, IsTrue};
ghost use Rattle.std.specs.Int.{int_wrap, w32};
ghost use Rattle.par_values.specs.Areas.{Name, Areas};
ghost use Rattle.par_values.specs.Arithmetic.{combined, divides_by_zero};
ghost use Rattle.par_values.specs.Operations.{Combine, Negate, Increase};
ghost use Rattle.par_values.specs.Reasons.{Spot};
ghost use Rattle.par_actions.specs.Combining.{operator_of};
ghost use Rattle.par_actions.specs.Done.{IsAt, Comes, Keeps, is_still};

use crate::done::Done;
use crate::operands::{Number, Numbers, last_number, last_numbers, local_number};
use par_arithmetic::{
    and, minus, negated, or, plus, quotient, remainder, shift_left, shift_right,
    shift_right_unsigned, times, xor,
};
use par_stack::Stack;
use par_values::value::MVal;

/// What is made of two numbers.
#[derive(Clone, Copy, PartialEq, Eq)]
pub enum Operator {
    Plus,
    Minus,
    Times,
    Quotient,
    Remainder,
    ShiftLeft,
    /// Keeps the sign.
    ShiftRight,
    /// Fills with zeros.
    ShiftRightUnsigned,
    And,
    Or,
    Xor,
}

/// What an operator makes of two numbers, none where it divides by zero.
fn combined(operator: Operator, first: i32, second: i32) -> Option<i32>
    ensures none { IsNone result ↔ IsTrue (divides_by_zero (operator_of operator) second) }
    ensures some { IfSome result (λ n. n ≡ combined (operator_of operator) first second) }
{
    match operator {
        Operator::Plus => Some(plus(first, second)),
        Operator::Minus => Some(minus(first, second)),
        Operator::Times => Some(times(first, second)),
        Operator::Quotient => quotient(first, second),
        Operator::Remainder => remainder(first, second),
        Operator::ShiftLeft => Some(shift_left(first, second)),
        Operator::ShiftRight => Some(shift_right(first, second)),
        Operator::ShiftRightUnsigned => Some(shift_right_unsigned(first, second)),
        Operator::And => Some(and(first, second)),
        Operator::Or => Some(or(first, second)),
        Operator::Xor => Some(xor(first, second)),
    }
}

/// Pops two numbers and pushes what the operator makes of them.
#[tactic(auto, using(crate::proofs::Making::combining))]
pub fn combine(stack: &mut Stack, operator: Operator, ahead: bool) -> Done
    ensures done { (classes : List Name) (spot : Spot) (program : Areas) →
        IsAt spot ahead stack.old →
        Comes result classes spot (Combine (operator_of operator)) program stack.old stack.new }
    ensures kept { Keeps stack.old stack.new }
    ensures still { IsTrue (is_still result) → stack.new ≡ stack.old }
{
    let (first, second) = match last_numbers(stack) {
        Numbers::Missing => return Done::Bad(1),
        Numbers::Unfit => return Done::Bad(2),
        Numbers::Are(first, second) => (first, second),
    };
    let Some(number) = combined(operator, first, second) else {
        return Done::ThrowsArithmetic;
    };
    if !ahead {
        return Done::Bad(5);
    }
    stack.replace(2, MVal::Int(number));
    Done::Goes
}

/// Pops a number and pushes its negative.
#[tactic(auto, using(crate::proofs::Making::negating))]
pub fn negate(stack: &mut Stack, ahead: bool) -> Done
    ensures done { (classes : List Name) (spot : Spot) (program : Areas) →
        IsAt spot ahead stack.old → Comes result classes spot Negate program stack.old stack.new }
    ensures kept { Keeps stack.old stack.new }
    ensures still { IsTrue (is_still result) → stack.new ≡ stack.old }
{
    let number = match last_number(stack) {
        Number::Missing => return Done::Bad(1),
        Number::Unfit => return Done::Bad(2),
        Number::Is(number) => number,
    };
    if !ahead {
        return Done::Bad(5);
    }
    stack.replace(1, MVal::Int(negated(number)));
    Done::Goes
}

/// A number and another, which wraps.
fn sum(number: i32, by: i8) -> i32
    ensures { result ≡ int_wrap w32 (number +ℤ by) }
{
    number.wrapping_add(by as i32)
}

/// Adds a number to a local.
#[tactic(auto, using(crate::proofs::Making::increase_4, crate::proofs::Making::increase_5))]
pub fn increase(stack: &mut Stack, place: u8, by: i8, ahead: bool) -> Done
    ensures done { (classes : List Name) (spot : Spot) (program : Areas) →
        IsAt spot ahead stack.old →
        Comes result classes spot (Increase place by) program stack.old stack.new }
    ensures kept { Keeps stack.old stack.new }
    ensures still { IsTrue (is_still result) → stack.new ≡ stack.old }
{
    let Some(number) = local_number(stack, place) else {
        return Done::Bad(4);
    };
    if !ahead {
        return Done::Bad(5);
    }
    stack.set_local(place as u16, MVal::Int(sum(number, by)));
    Done::Goes
}
