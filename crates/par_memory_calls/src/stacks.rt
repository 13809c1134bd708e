ghost use Rattle.std.specs.Prelude.{◌≡◌, IfOk, length};
ghost use Rattle.par_stack.specs.Frames.{running};

use par_base::memory::NoMemory;
use par_stack::{Point, Stack};
use par_values::value::MVal;
use par_worked::expect;
use std::alloc::Global;
use std::test::Fail;

const CALLER: Point = Point {
    class: 0,
    method: 2,
    at: 7,
};

const CALLED: Point = Point {
    class: 1,
    method: 0,
    at: 0,
};

const THREE: MVal = MVal::Int(3);

const FOUR: MVal = MVal::Int(4);

// A frame with a local and two operands.
fn with_operands(alloc: Global) -> Result<Stack, NoMemory>
    ensures { IfOk result (λ stack. length (running stack).operands ≡ 2) }
{
    let mut stack = Stack::start(alloc, CALLER, 1, 2)?;
    stack.push(THREE);
    stack.push(FOUR);
    Ok(stack)
}

fn has_operands(stack: &Stack) -> bool {
    let sizes = (stack.locals(), stack.count(), stack.free()) == (1, 2, 0);
    let last = stack.operand(0) == Some(FOUR) && stack.operand(1) == Some(THREE);
    let none = stack.operand(2).is_none() && stack.local(0).is_none();
    let places = stack.places() == [None, Some(THREE), Some(FOUR)].as_slice();
    sizes && last && none && places
}

fn operands_are_kept(alloc: Global) -> Result<bool, NoMemory> {
    let stack = with_operands(alloc)?;
    let are_kept = has_operands(&stack);
    drop(stack);
    Ok(are_kept)
}

#[test]
fn operands_lie_behind_locals(rt: HostRuntime) -> Result<(), Fail> {
    expect(operands_are_kept(rt.alloc())?, "a local and two operands")
}

// The frame, and one that was called with its last operand.
fn called(alloc: Global) -> Result<Stack, NoMemory> {
    let mut stack = with_operands(alloc)?;
    stack.enter(CALLED, 2, 1, 1)?;
    Ok(stack)
}

fn is_called(stack: &Stack) -> bool {
    let points = stack.point() == CALLED
        && stack.point_below(1) == Some(CALLER)
        && stack.point_below(2).is_none();
    let argument = stack.local(0) == Some(FOUR) && stack.local(1).is_none();
    let all = [None, Some(THREE), None, Some(FOUR), None, None];
    stack.depth() == 2 && points && argument && stack.places() == all.as_slice()
}

fn call_is_made(alloc: Global) -> Result<bool, NoMemory> {
    let stack = called(alloc)?;
    let is_made = is_called(&stack);
    drop(stack);
    Ok(is_made)
}

#[test]
fn a_call_takes_its_arguments(rt: HostRuntime) -> Result<(), Fail> {
    expect(
        call_is_made(rt.alloc())?,
        "the last operand is its first local",
    )
}

fn gives_back(stack: &mut Stack) -> bool {
    if stack.locals() != 2 {
        return false;
    }
    stack.set_local(1, MVal::Null);
    let set = stack.local(1) == Some(MVal::Null);
    let left = stack.leave() && stack.point() == CALLER;
    let places = stack.places() == [None, Some(THREE), None].as_slice();
    let last = !stack.leave() && stack.depth() == 1;
    set && left && places && last
}

fn caller_is_left(alloc: Global) -> Result<bool, NoMemory> {
    let mut stack = called(alloc)?;
    let is_left = gives_back(&mut stack);
    drop(stack);
    Ok(is_left)
}

#[test]
fn a_frame_that_is_left_gives_its_places_back(rt: HostRuntime) -> Result<(), Fail> {
    expect(caller_is_left(rt.alloc())?, "the operand that stayed")
}

fn takes(stack: &mut Stack) -> bool
    requires { length (running stack.old).operands ≡ 2 }
{
    stack.pop(1);
    let popped = stack.places() == [None, Some(THREE), None].as_slice();
    stack.keep(FOUR);
    stack.go_to(9);
    let kept = stack.places() == [None, Some(FOUR), None].as_slice();
    popped && kept && stack.point().at == 9
}

fn operands_are_taken(alloc: Global) -> Result<bool, NoMemory> {
    let mut stack = with_operands(alloc)?;
    let are_taken = takes(&mut stack);
    drop(stack);
    Ok(are_taken)
}

#[test]
fn one_operand_is_left(rt: HostRuntime) -> Result<(), Fail> {
    expect(operands_are_taken(rt.alloc())?, "the one that was given")
}
