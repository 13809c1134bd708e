//! What operators make of values.

ghost use Rattle.std.specs.Prelude.{◌≡◌, ◌≢◌, ◌||◌, false, pos};
ghost use Rattle.par_values.specs.Areas.{number_of};
ghost use Rattle.par_values.specs.declared.value.MVal.TheVariants.{Int};
ghost use Rattle.par_values.specs.Arithmetic.{combined, negated, Plus, Minus, ShiftLeft};
ghost use Rattle.par_values.specs.Arithmetic.{ShiftRight, ShiftRightUnsigned, Quotient};
ghost use Rattle.par_meaning.specs.Work.{is_object};
ghost use Rattle.par_run_laws.specs.Values.{truth, is_true, object_number, same, decides, throws};
ghost use Rattle.par_run_laws.specs.Values.{applied};

use par_typed::par_lexer::operator::BinOp;
use par_values::value::MVal;

/// A number as a value.
pub(crate) fn constant(number: &i32) -> MVal
    ensures { result ≡ Int number.now }
{
    MVal::Int(*number)
}

/// A boolean as a value.
pub(crate) fn truth(holds: bool) -> MVal
    ensures { result ≡ truth holds }
{
    MVal::Int(if holds { 1 } else { 0 })
}

/// A value as a number.
pub(crate) fn number(value: MVal) -> i32
    ensures { result ≡ number_of value }
{
    match value {
        MVal::Int(number) => number,
        MVal::Null | MVal::Ref(..) => 0,
    }
}

/// The number of an object.
pub(crate) fn object_number(value: MVal) -> u32
    ensures { result ≡ object_number value }
{
    match value {
        MVal::Ref(_, number) => number,
        MVal::Int(_) | MVal::Null => 0,
    }
}

/// Whether a receiver passes the null test, which one that is never null does not need.
pub(crate) fn is_there(sure: bool, receiver: MVal) -> bool
    ensures { result ≡ (sure || is_object receiver) }
{
    sure || matches!(&receiver, MVal::Ref(..))
}

/// Whether a test holds.
pub(crate) fn is_true(value: MVal) -> bool
    ensures { result ≡ is_true value }
{
    number(value) != 0
}

/// Whether two values are the same number or the same object, or both null.
fn same(left: MVal, right: MVal) -> bool
    ensures { result ≡ same left right }
{
    match left {
        MVal::Int(a) => match right {
            MVal::Int(b) => a == b,
            MVal::Null | MVal::Ref(..) => false,
        },
        MVal::Null => match right {
            MVal::Null => true,
            MVal::Int(_) | MVal::Ref(..) => false,
        },
        MVal::Ref(class, number) => match right {
            MVal::Ref(other, another) => class == other && number == another,
            MVal::Int(_) | MVal::Null => false,
        },
    }
}

pub(crate) fn negated(number: i32) -> i32
    ensures { result ≡ negated number }
{
    number.wrapping_neg()
}

/// Whether an operator needs no second part.
pub(crate) fn decides(op: BinOp, left: MVal) -> bool
    ensures { result ≡ decides op left }
{
    match op {
        BinOp::Or => is_true(left),
        BinOp::And => !is_true(left),
        _ => false,
    }
}

/// Whether an operator throws for its second part.
pub(crate) fn throws(op: BinOp, right: MVal) -> bool
    ensures { result ≡ throws op right }
{
    match op {
        BinOp::Div => number(right) == 0,
        BinOp::Rem => number(right) == 0,
        _ => false,
    }
}

fn sum(a: i32, b: i32) -> i32
    ensures { result ≡ combined Plus a b }
{
    a.wrapping_add(b)
}

fn difference(a: i32, b: i32) -> i32
    ensures { result ≡ combined Minus a b }
{
    a.wrapping_sub(b)
}

fn quotient(a: i32, b: i32) -> i32
    requires { b ≢ pos 0 }
    ensures { result ≡ combined Quotient a b }
{
    if b == -1 {
        return negated(a);
    }
    a / b
}

fn shift_left(a: i32, b: i32) -> i32
    ensures { result ≡ combined ShiftLeft a b }
{
    a.wrapping_shl(b.cast_unsigned())
}

fn shift_right(a: i32, b: i32) -> i32
    ensures { result ≡ combined ShiftRight a b }
{
    a.wrapping_shr(b.cast_unsigned())
}

fn shift_right_unsigned(a: i32, b: i32) -> i32
    ensures { result ≡ combined ShiftRightUnsigned a b }
{
    a.cast_unsigned()
        .wrapping_shr(b.cast_unsigned())
        .cast_signed()
}

/// What an operator gives for its two parts.
pub(crate) fn applied(op: BinOp, left: MVal, right: MVal) -> MVal
    requires { throws op right ≡ false }
    ensures { result ≡ applied op left right }
{
    let (a, b) = (number(left), number(right));
    match op {
        BinOp::Or | BinOp::And => right,
        BinOp::BitOr => MVal::Int(a | b),
        BinOp::BitXor => MVal::Int(a ^ b),
        BinOp::BitAnd => MVal::Int(a & b),
        BinOp::Eq => truth(same(left, right)),
        BinOp::Ne => truth(!same(left, right)),
        BinOp::Lt => truth(a < b),
        BinOp::Le => truth(a <= b),
        BinOp::Gt => truth(a > b),
        BinOp::Ge => truth(a >= b),
        BinOp::Shl => MVal::Int(shift_left(a, b)),
        BinOp::Shr => MVal::Int(shift_right(a, b)),
        BinOp::Ushr => MVal::Int(shift_right_unsigned(a, b)),
        BinOp::Add => MVal::Int(sum(a, b)),
        BinOp::Sub => MVal::Int(difference(a, b)),
        BinOp::Mul => MVal::Int(a.wrapping_mul(b)),
        BinOp::Div => MVal::Int(quotient(a, b)),
        BinOp::Rem => MVal::Int(a.wrapping_rem(b)),
    }
}
