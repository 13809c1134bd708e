//! Where a run goes on: jumps and tests.

ghost use Rattle.std.specs.Prelude.{◌≡◌, ◌≤◌, List, ℤ, length, IsTrue};
ghost use Rattle.par_values.specs.Areas.{Name, Areas};
ghost use Rattle.par_values.specs.Effects.{comes, is_same};
ghost use Rattle.par_values.specs.Operations.{Operation, Jump, JumpIf, JumpIfBoth, JumpIfSame};
ghost use Rattle.par_values.specs.Operations.{JumpIfNull};
ghost use Rattle.par_values.specs.Reasons.{Spot};
ghost use Rattle.par_stack.specs.Frames.{running};
ghost use Rattle.par_actions.specs.Branches.{IsTest};
ghost use Rattle.par_actions.specs.Done.{IsAtFork, areas_in, Comes, Keeps, is_still};

use crate::done::{Done, Ways};
use crate::operands::{
    Number, Numbers, Reference, References, last_number, last_numbers, last_reference,
    last_references,
};
use crate::tests::compares;
use par_stack::Stack;
use par_values::value::MVal;

/// Goes on at its distance or behind itself, where an instruction stands there, without the
/// operands that were pushed last, so many.
fn branch(stack: &mut Stack, many: usize, goes: bool, ways: Ways) -> Done
    requires { many ≤ length (running stack.old).operands }
    ensures done { (classes : List Name) (spot : Spot) (program : Areas) (o : Operation) →
        IsTest classes o many goes (areas_in program (running stack.old)) →
        IsAtFork spot ways classes o program stack.old →
        Comes result classes spot o program stack.old stack.new }
    ensures kept { Keeps stack.old stack.new }
    ensures still { IsTrue (is_still result) → stack.new ≡ stack.old }
{
    let stands = if goes { ways.aside } else { ways.ahead };
    if !stands {
        return Done::Bad(5);
    }
    stack.pop(many);
    if goes { Done::Jumps } else { Done::Goes }
}

/// Goes on at its distance.
#[tactic(auto, using(crate::proofs::Jumping::jump_tests))]
pub fn jump(stack: &mut Stack, ways: Ways) -> Done
    ensures done { (classes : List Name) (spot : Spot) (program : Areas) (to : ℤ) →
        IsAtFork spot ways classes (Jump to) program stack.old →
        Comes result classes spot (Jump to) program stack.old stack.new }
    ensures kept { Keeps stack.old stack.new }
    ensures still { IsTrue (is_still result) → stack.new ≡ stack.old }
{
    branch(stack, 0, true, ways)
}

/// Pops a number, and goes on at its distance where it compares so with 0.
#[tactic(auto, using(crate::proofs::Jumping::jumping_if))]
pub fn jump_if(stack: &mut Stack, test: u8, ways: Ways) -> Done
    ensures done { (classes : List Name) (spot : Spot) (program : Areas) (to : ℤ) →
        IsAtFork spot ways classes (JumpIf test to) program stack.old →
        Comes result classes spot (JumpIf test to) program stack.old stack.new }
    ensures kept { Keeps stack.old stack.new }
    ensures still { IsTrue (is_still result) → stack.new ≡ stack.old }
{
    match last_number(stack) {
        Number::Missing => Done::Bad(1),
        Number::Unfit => Done::Bad(2),
        Number::Is(number) => branch(stack, 1, compares(test, number, 0), ways),
    }
}

/// Pops two numbers, and goes on at its distance where they compare so.
#[tactic(auto, using(crate::proofs::Jumping::jumping_both))]
pub fn jump_if_both(stack: &mut Stack, test: u8, ways: Ways) -> Done
    ensures done { (classes : List Name) (spot : Spot) (program : Areas) (to : ℤ) →
        IsAtFork spot ways classes (JumpIfBoth test to) program stack.old →
        Comes result classes spot (JumpIfBoth test to) program stack.old stack.new }
    ensures kept { Keeps stack.old stack.new }
    ensures still { IsTrue (is_still result) → stack.new ≡ stack.old }
{
    match last_numbers(stack) {
        Numbers::Missing => Done::Bad(1),
        Numbers::Unfit => Done::Bad(2),
        Numbers::Are(first, second) => branch(stack, 2, compares(test, first, second), ways),
    }
}

/// Whether two references are the same.
fn is_same(first: MVal, second: MVal) -> bool
    ensures { result ≡ is_same first second }
{
    match (first, second) {
        (MVal::Null, MVal::Null) => true,
        (MVal::Int(first), MVal::Int(second)) => first == second,
        (MVal::Ref(class, n), MVal::Ref(other, k)) => class == other && n == k,
        _ => false,
    }
}

/// Whether a test comes out as it is asked.
fn comes(asked: bool, test: bool) -> bool
    ensures { result ≡ comes asked test }
{
    if asked { test } else { !test }
}

/// Pops two references, and goes on at its distance where they are the same, or are not.
#[tactic(auto, using(crate::proofs::Jumping::jumping_same))]
pub fn jump_if_same(stack: &mut Stack, same: bool, ways: Ways) -> Done
    ensures done { (classes : List Name) (spot : Spot) (program : Areas) (to : ℤ) →
        IsAtFork spot ways classes (JumpIfSame same to) program stack.old →
        Comes result classes spot (JumpIfSame same to) program stack.old stack.new }
    ensures kept { Keeps stack.old stack.new }
    ensures still { IsTrue (is_still result) → stack.new ≡ stack.old }
{
    match last_references(stack) {
        References::Missing => Done::Bad(1),
        References::Unfit => Done::Bad(2),
        References::Are(first, second) => branch(
            stack,
            2,
            comes(same, is_same(first, second)),
            ways,
        ),
    }
}

/// Pops a reference, and goes on at its distance where it is null, or is not.
#[tactic(auto, using(crate::proofs::Jumping::jumping_null))]
pub fn jump_if_null(stack: &mut Stack, null: bool, ways: Ways) -> Done
    ensures done { (classes : List Name) (spot : Spot) (program : Areas) (to : ℤ) →
        IsAtFork spot ways classes (JumpIfNull null to) program stack.old →
        Comes result classes spot (JumpIfNull null to) program stack.old stack.new }
    ensures kept { Keeps stack.old stack.new }
    ensures still { IsTrue (is_still result) → stack.new ≡ stack.old }
{
    match last_reference(stack) {
        Reference::Missing => Done::Bad(1),
        Reference::Unfit => Done::Bad(2),
        Reference::Is(value) => branch(stack, 1, comes(null, is_same(value, MVal::Null)), ways),
    }
}
