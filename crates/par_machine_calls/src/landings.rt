ghost use Rattle.std.specs.Prelude.{◌≡◌, ◌<◌, IfOk, drop, length};
ghost use Rattle.par_stack.specs.Frames.{running};

use crate::linked::{SHOP, linked};
use par_base::memory::NoMemory;
use par_link::Linked;
use par_stack::{Point, Stack};
use par_unwinding::{Landing, land, landing_of};
use par_values::value::MVal;
use par_worked::expect;
use std::alloc::Global;
use std::test::Fail;

// The method `tries` at its call of `hit`, and behind it, and at its handler.
const CALL: Point = Point {
    class: 0,
    method: 2,
    at: 0,
};

const BEHIND: Point = Point {
    class: 0,
    method: 2,
    at: 3,
};

const HANDLER: Point = Point {
    class: 0,
    method: 2,
    at: 4,
};

// The method `hit` at its throw.
const THROW: Point = Point {
    class: 0,
    method: 3,
    at: 1,
};

// The class of divisions by zero, and that of null.
const ARITHMETIC: u16 = 1;

const NULL_POINTER: u16 = 2;

const LANDINGS: &[(&str, Point, u16, Option<Landing>)] = &[
    (
        "the handler of the caller",
        CALL,
        NULL_POINTER,
        Some(Landing {
            above: 1,
            point: HANDLER,
        }),
    ),
    ("a handler of another exception", CALL, ARITHMETIC, None),
    ("a handler that ends before", BEHIND, NULL_POINTER, None),
];

// `tries` where it stands, and `hit`, which it called.
fn stack(alloc: Global, caller: Point) -> Result<Stack, NoMemory>
    ensures frames { IfOk result (λ stack. length stack ≡ 2) }
    ensures room { IfOk result (λ stack. 0 < (running (drop 1 stack)).free) }
{
    let mut stack = Stack::start(alloc, caller, 0, 1)?;
    stack.enter(THROW, 0, 1, 0)?;
    Ok(stack)
}

fn lands(
    alloc: Global,
    linked: &Linked,
    caller: Point,
    thrown: u16,
    landing: Option<Landing>,
) -> Result<bool, NoMemory> {
    let stack = stack(alloc, caller)?;
    let lands = landing_of(linked, &stack, thrown) == landing;
    drop(stack);
    Ok(lands)
}

fn check_landings(alloc: Global, linked: &Linked) -> Result<(), Fail> {
    for (name, caller, thrown, landing) in LANDINGS {
        let lands = lands(alloc, linked, *caller, *thrown, *landing)?;
        expect(lands, name)?;
    }
    Ok(())
}

#[test]
fn exceptions_go_to_their_handlers(rt: HostRuntime) -> Result<(), Fail> {
    let linked = linked(rt.alloc(), SHOP)?;
    let checked = check_landings(rt.alloc(), &linked);
    drop(linked);
    checked
}

// The exception of null.
const EXCEPTION: MVal = MVal::Ref(NULL_POINTER, 0);

// Whether the caller stands at its handler, and has the exception as its only operand.
fn is_landed(stack: &Stack) -> bool {
    let places = stack.places() == [Some(EXCEPTION)].as_slice();
    stack.depth() == 1 && stack.point() == HANDLER && places
}

fn frame_is_dropped(alloc: Global) -> Result<bool, NoMemory> {
    let mut stack = stack(alloc, CALL)?;
    let landing = Landing {
        above: 1,
        point: HANDLER,
    };
    land(&mut stack, landing, EXCEPTION);
    let is_landed = is_landed(&stack);
    drop(stack);
    Ok(is_landed)
}

#[test]
fn an_exception_is_the_only_operand(rt: HostRuntime) -> Result<(), Fail> {
    expect(
        frame_is_dropped(rt.alloc())?,
        "the frame that threw is gone",
    )
}
