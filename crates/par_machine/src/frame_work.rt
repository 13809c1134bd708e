//! Instructions that name nothing, and work on the frame that runs alone.

ghost use Rattle.std.specs.Prelude.{◌≡◌, ℕ, List, true, IsTrue};
ghost use Rattle.par_values.specs.Areas.{Name, Areas};
ghost use Rattle.par_values.specs.declared.link.Link.{Link};
ghost use Rattle.par_values.specs.Operations.{operation};
ghost use Rattle.par_values.specs.Reasons.{Spot};
ghost use Rattle.par_method_area.specs.par_actions.Done.{IsAt, Comes, Keeps, is_still};
ghost use Rattle.par_machine.specs.Instructions.{is_work, is_arithmetic};

use par_instr::Instr;
use par_method_area::par_actions::{
    Done, Operator, combine, copy, discard, increase, load_number, load_object, negate, push_null,
    push_number, store_number, store_object,
};
use par_stack::Stack;

/// Makes one number of two.
#[inline(always)]
fn calculate(stack: &mut Stack, instr: Instr, ahead: bool) -> Done
    requires { is_arithmetic instr ≡ true }
    ensures done { (names : ℕ → Link) (classes : List Name) (spot : Spot) (program : Areas) →
        IsAt spot ahead stack.old →
        Comes result classes spot (operation names instr) program stack.old stack.new }
    ensures kept { Keeps stack.old stack.new }
    ensures still { IsTrue (is_still result) → stack.new ≡ stack.old }
{
    match instr {
        Instr::Iadd => combine(stack, Operator::Plus, ahead),
        Instr::Isub => combine(stack, Operator::Minus, ahead),
        Instr::Imul => combine(stack, Operator::Times, ahead),
        Instr::Idiv => combine(stack, Operator::Quotient, ahead),
        Instr::Irem => combine(stack, Operator::Remainder, ahead),
        Instr::Ishl => combine(stack, Operator::ShiftLeft, ahead),
        Instr::Ishr => combine(stack, Operator::ShiftRight, ahead),
        Instr::Iushr => combine(stack, Operator::ShiftRightUnsigned, ahead),
        Instr::Iand => combine(stack, Operator::And, ahead),
        Instr::Ior => combine(stack, Operator::Or, ahead),
        Instr::Ixor => combine(stack, Operator::Xor, ahead),
        _ => unreachable!(),
    }
}

/// Pushes, pops, keeps or makes a value.
#[inline(always)]
pub(crate) fn work(stack: &mut Stack, instr: Instr, ahead: bool) -> Done
    requires { is_work instr ≡ true }
    ensures done { (names : ℕ → Link) (classes : List Name) (spot : Spot) (program : Areas) →
        IsAt spot ahead stack.old →
        Comes result classes spot (operation names instr) program stack.old stack.new }
    ensures kept { Keeps stack.old stack.new }
    ensures still { IsTrue (is_still result) → stack.new ≡ stack.old }
{
    match instr {
        Instr::AconstNull => push_null(stack, ahead),
        Instr::Iconst(number) => push_number(stack, number as i32, ahead),
        Instr::Bipush(number) => push_number(stack, number as i32, ahead),
        Instr::Sipush(number) => push_number(stack, number as i32, ahead),
        Instr::Iload(place) => load_number(stack, place, ahead),
        Instr::Aload(place) => load_object(stack, place, ahead),
        Instr::IloadShort(place) => load_number(stack, place, ahead),
        Instr::AloadShort(place) => load_object(stack, place, ahead),
        Instr::Istore(place) => store_number(stack, place, ahead),
        Instr::Astore(place) => store_object(stack, place, ahead),
        Instr::IstoreShort(place) => store_number(stack, place, ahead),
        Instr::AstoreShort(place) => store_object(stack, place, ahead),
        Instr::Pop => discard(stack, ahead),
        Instr::Dup => copy(stack, ahead),
        Instr::Ineg => negate(stack, ahead),
        Instr::Iinc(place, by) => increase(stack, place, by, ahead),
        _ => calculate(stack, instr, ahead),
    }
}
