//! Returns.

ghost use Rattle.std.specs.Prelude.{◌≡◌, ◌+◌, ◌≤◌, ◌<◌, ◌∷◌, length, true, Ok, IsTrue};
ghost use Rattle.par_instr.specs.Decoding.{decoded_at};
ghost use Rattle.par_stack.specs.Frames.{running, with_running, at_offset};
ghost use Rattle.par_method_area.specs.par_step_laws.Step.{size_of, returned, returned_with};
ghost use Rattle.par_machine.specs.Frames.{code_of, gives, Stands};
ghost use Rattle.par_machine.specs.Running.{below, state_in, IsSound};
ghost use Rattle.par_machine.specs.Turn.{IsTurn, is_over};

use crate::run::Running;
use crate::turn::Turn;
use par_instr::decode;
use par_method_area::MethodArea;
use par_stack::{Point, Stack};
use par_values::run::Ending;
use par_values::value::MVal;

/// The offset behind the instruction at a point, or the same where there is none.
fn past(area: &MethodArea, point: Point) -> u32
    requires { point.at ≤ length (code_of area.now.files point).code }
    ensures past { result
        ≡ point.at + size_of (decoded_at (code_of area.now.files point).code point.at) }
    ensures within { result ≤ length (code_of area.now.files point).code }
{
    let Some(code) = area.code(point.class, point.method) else {
        return point.at;
    };
    match decode(code.bytes, point.at as usize) {
        Ok((_, next)) => next as u32,
        Err(_) => point.at,
    }
}

/// The frame that runs goes on behind the instruction at which it stands.
fn pass(stack: &mut Stack, area: &MethodArea)
    requires { Stands area.now.files (running stack.old) }
    ensures passed { stack.new ≡ with_running (at_offset ((running stack.old).point.at
        + size_of (decoded_at (code_of area.now.files (running stack.old).point).code
        (running stack.old).point.at))) stack.old }
    ensures stands { Stands area.now.files (running stack.new) }
{
    let point = stack.point();
    stack.go_to(past(area, point));
}

impl Running {
    /// Drops the frame that runs where another waits for it. The last one ends the run.
    #[inline(always)]
    pub(crate) fn leave(&mut self, area: &MethodArea) -> Turn
        requires { IsSound area.now self.old }
        ensures turn { IsTurn (Ok result)
            (returned area.now.files (below self.old) (state_in area.now.files self.old))
            (state_in area.now.files self.new) }
        ensures over { IsTrue (is_over (Ok result)) → self.new ≡ self.old }
        ensures sound { IsSound area.now self.new }
        ensures heap { self.new.heap ≡ self.old.heap }
    {
        if !self.stack.leave() {
            return Turn::Ended(Ending::End);
        }
        pass(&mut self.stack, area);
        Turn::Silent
    }

    /// The same, and leaves a value to the frame that waits.
    #[inline(always)]
    pub(crate) fn leave_with(&mut self, area: &MethodArea, value: MVal) -> Turn
        requires sound { IsSound area.now self.old }
        requires given { gives area.now.files (running self.old.stack).point ≡ true }
        ensures turn { IsTurn (Ok result)
            (returned_with area.now.files value (below self.old) (state_in area.now.files self.old))
            (state_in area.now.files self.new) }
        ensures over { IsTrue (is_over (Ok result)) → self.new ≡ self.old }
        ensures sound { IsSound area.now self.new }
        ensures heap { self.new.heap ≡ self.old.heap }
    {
        if !self.stack.leave() {
            return Turn::Ended(Ending::End);
        }
        pass(&mut self.stack, area);
        self.stack.push(value);
        Turn::Silent
    }
}
