//! A run before its first instruction.

ghost use Rattle.std.specs.Prelude.{◌≡◌, [], ◌∷◌, Some, slice_get, IfOk, IsSome};
ghost use Rattle.par_lines.specs.Lines.{channels_of};
ghost use Rattle.par_method_area.specs.Area.{KnowsLines};
ghost use Rattle.par_stack.specs.Frames.{entered};
ghost use Rattle.par_method_area.specs.par_step_laws.Methods.{method_code};
ghost use Rattle.par_method_area.specs.par_step_laws.State.{main_place, start};
ghost use Rattle.par_machine.specs.Running.{state_in, IsSound};

use crate::run::Running;
use par_base::memory::NoMemory;
use par_heap::{Heap, Statics};
use par_lines::Lines;
use par_method_area::MethodArea;
use par_single::member::method_place;
use par_stack::{Point, Stack};
use par_values::inputs::Inputs;
use std::alloc::Global;

/// The place of the method `main` of a class.
fn main_of(area: &MethodArea, class: u16) -> u16
    requires { IsSome (main_place (slice_get area.now.files class)) }
    ensures { main_place (slice_get area.now.files class) ≡ Some result }
{
    let _ = area.linked().count();
    let Some(file) = area.linked().file(class) else {
        unreachable!();
    };
    match method_place(file, b"main", b"()V") {
        Some(place) => place as u16,
        None => unreachable!(),
    }
}

/// The frame of a method that takes nothing.
fn first_frame(alloc: Global, area: &MethodArea, point: Point) -> Result<Stack, NoMemory>
    ensures { IfOk result (λ stack. stack
        ≡ entered point [] (method_code area.now.files point.class point.method).max_locals
        (method_code area.now.files point.class point.method).max_stack ∷ []) }
{
    match area.code(point.class, point.method) {
        Some(code) => Stack::start(alloc, point, code.locals, code.room),
        None => Stack::start(alloc, point, 0, 0),
    }
}

/// A run before the first instruction of `main` of a class.
pub(crate) fn begin(
    alloc: Global,
    area: &MethodArea,
    main: u16,
    inputs: Inputs,
) -> Result<Running, NoMemory>
    requires main { IsSome (main_place (slice_get area.now.files main)) }
    requires lines { KnowsLines area.now (channels_of inputs.channels) }
    ensures state { IfOk result (λ running.
        state_in area.now.files running ≡ start area.now.files main inputs) }
    ensures sound { IfOk result (IsSound area.now) }
    ensures unborn { IfOk result (λ running. running.heap ≡ []) }
{
    let point = Point {
        class: main,
        method: main_of(area, main),
        at: 0,
    };
    let lines = Lines::of(alloc, inputs)?;
    let stack = first_frame(alloc, area, point)?;
    let statics = Statics::of(alloc, area.first_statics())?;
    Ok(Running {
        stack,
        statics,
        heap: Heap::new(alloc),
        lines,
    })
}
