//! The machine: linked class files, and a run of them in progress.

ghost use Rattle.std.specs.Prelude.{ℕ, ◌≤◌, length};
ghost use Rattle.par_heap.specs.Heap.{objects_of};
ghost use Rattle.par_machine.specs.Running.{IsSound};

use crate::run::Running;
use crate::start::begin;
use crate::turn::{Stuck, Turn};
use par_base::memory::NoMemory;
use par_method_area::MethodArea;
use par_method_area::par_link::Linked;
use par_values::inputs::Inputs;
use par_values::value::MVal;
use std::alloc::Global;

/// A machine that runs linked class files.
///
/// Contracts see the files that it runs, its state, and how many instructions it has run. A step
/// takes memory only where it calls a method or makes an object, or where names are handed out: in
/// an event, an ending or bad code.
pub struct Machine {
    alloc: Global,
    area: MethodArea,
    running: Running,
    steps: u32,
    ghost sound: { IsSound area running },
    ghost few: { (class : ℕ) → length (objects_of running.heap class) ≤ steps },
}

impl Drop for Machine {
    // In one place, for all that own one.
    fn drop(self) {
        let Machine {
            alloc: _,
            area: _,
            running: _,
            steps: _,
        } = self;
    }
}

impl Machine {
    ghost use Rattle.std.specs.Prelude.{◌≡◌, ◌<◌, ◌≤◌, ◌+◌, ◌⊎◌, true, IfOk, IsErrOf, IsSome};
    ghost use Rattle.std.specs.Prelude.{IsTrue, slice_get};
    ghost use Rattle.par_method_area.specs.par_step_laws.State.{start, main_place};
    ghost use Rattle.par_method_area.specs.par_step_laws.Step.{turn};
    ghost use Rattle.par_method_area.specs.par_step_laws.Places.{all_places};
    ghost use Rattle.par_machine.specs.Machine.{files_of, state_of, steps_of, is_asking_at};
    ghost use Rattle.par_machine.specs.Quiet.{GoesOn};
    ghost use Rattle.par_machine.specs.Turn.{IsTurn, MakesOrTells, is_over};
    ghost use Rattle.par_lines.specs.Lines.{channels_of};
    ghost use Rattle.par_method_area.specs.Area.{KnowsLines};

    /// A machine before the first instruction of the method `main` of a class, with these inputs.
    ///
    /// A channel that the inputs name and no file has is never asked.
    pub fn start(
        alloc: Global,
        linked: Linked,
        main: u16,
        inputs: Inputs,
    ) -> Result<Machine, NoMemory>
        requires { IsSome (main_place (slice_get linked main)) }
        ensures files { IfOk result (λ machine. files_of machine ≡ linked) }
        ensures state { IfOk result (λ machine. state_of machine ≡ start linked main inputs) }
        ensures steps { IfOk result (λ machine. steps_of machine ≡ 0) }
    {
        match MethodArea::of(alloc, linked, &inputs) {
            Ok(area) => Machine::over(alloc, area, main, inputs),
            Err(error) => {
                drop(inputs);
                Err(error)
            }
        }
    }

    /// A machine before the first instruction of the method `main` of a class, over what is told of
    /// the files.
    fn over(alloc: Global, area: MethodArea, main: u16, inputs: Inputs) -> Result<Machine, NoMemory>
        requires main { IsSome (main_place (slice_get area.files main)) }
        requires lines { KnowsLines area (channels_of inputs.channels) }
        ensures files { IfOk result (λ machine. files_of machine ≡ area.files) }
        ensures state { IfOk result (λ machine.
            state_of machine ≡ start area.files main inputs) }
        ensures steps { IfOk result (λ machine. steps_of machine ≡ 0) }
    {
        match begin(alloc, &area, main, inputs) {
            Ok(running) => Ok(Machine {
                alloc,
                area,
                running,
                steps: 0,
            }),
            Err(error) => {
                drop(area);
                Err(error)
            }
        }
    }

    /// Runs one instruction.
    ///
    /// After want of memory nothing is said of the state.
    #[inline(always)]
    pub fn step(&mut self) -> Result<Turn, Stuck>
        requires { steps_of self.old < 4000000000 }
        ensures turn { IsTurn result
            (turn (files_of self.old) (state_of self.old)) (state_of self.new) }
        ensures memory { IsErrOf result Stuck.Memory →
            MakesOrTells (turn (files_of self.old) (state_of self.old)) (state_of self.old)
            ⊎ (is_asking_at self.old ≡ true) }
        // A further step answers the same.
        ensures over { IsTrue (is_over result) → state_of self.new ≡ state_of self.old }
        ensures files { files_of self.new ≡ files_of self.old }
        ensures steps { steps_of self.new ≡ steps_of self.old + 1 }
    {
        self.steps += 1;
        self.running.advance(self.alloc, &self.area)
    }

    /// Runs instructions as long as they go on in their frame and show nothing, at most so many,
    /// and gives how many.
    ///
    /// It may stop before: the next step tells what comes then.
    pub fn go_on(&mut self, most: u32) -> u32
        requires { steps_of self.old + most ≤ 4000000000 }
        ensures most { result ≤ most }
        ensures goes { GoesOn (files_of self.old) result (state_of self.old) (state_of self.new) }
        ensures files { files_of self.new ≡ files_of self.old }
        ensures steps { steps_of self.new ≡ steps_of self.old + result }
    {
        let many = self.running.go_on(&self.area, most);
        self.steps += many;
        many
    }

    /// The places of all frames in one row, the outermost first.
    pub fn places(&self) -> &[Option<MVal>]
        ensures { result.now ≡ all_places (files_of self.now) (state_of self.now).frames }
    {
        let _ = self.running.stack.point();
        self.running.stack.places()
    }
}
