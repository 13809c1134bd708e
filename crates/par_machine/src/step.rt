//! One instruction of a run.

ghost use Rattle.std.specs.Prelude.{◌≡◌, ◌<◌, ◌≤◌, ℕ, length, IsSome};
ghost use Rattle.par_heap.specs.Heap.{objects_of};
ghost use Rattle.par_method_area.specs.Known.{code_at};
ghost use Rattle.par_method_area.specs.par_step_laws.Step.{turn};
ghost use Rattle.par_machine.specs.Advanced.{is_asking, IsAdvanced};
ghost use Rattle.par_machine.specs.Frames.{code_of};
ghost use Rattle.par_machine.specs.Running.{state_in, IsSound};
ghost use Rattle.par_machine.specs.Settled.{turn_from};
ghost use Rattle.par_machine.specs.Site.{IsThere};
ghost use Rattle.par_machine.specs.Turn.{calls_or_makes};

use crate::events::stuck;
use crate::run::Running;
use crate::site::Site;
use crate::turn::{Stuck, Turn};
use par_method_area::MethodArea;
use std::alloc::Global;

impl Running {
    /// Does what the instruction of a site does, and goes on from there.
    #[inline(always)]
    fn run(
        &mut self,
        alloc: Global,
        area: &MethodArea,
        site: Site,
        ahead: bool,
    ) -> Result<Turn, Stuck>
        requires sound { IsSound area.now self.old }
        requires coded { IsSome (code_at area.now.files site.point.class site.point.method) }
        requires there { IsThere area.now.files self.old site ahead }
        requires small { site.point.at ≤ 65535 }
        requires within { site.next ≤ length (code_of area.now.files site.point).code }
        requires few { (class : ℕ) → length (objects_of self.old.heap class) < 4294967294 }
        ensures { IsAdvanced area.now (calls_or_makes site.instr)
            (turn_from area.now.files self.old site) self.old result self.new }
    {
        let done = self.perform(area, site, ahead)?;
        self.settle(alloc, area, site, done)
    }

    /// Runs the instruction at which the run stands.
    #[inline(always)]
    pub(crate) fn advance(&mut self, alloc: Global, area: &MethodArea) -> Result<Turn, Stuck>
        requires sound { IsSound area.now self.old }
        requires few { (class : ℕ) → length (objects_of self.old.heap class) < 4294967294 }
        ensures { IsAdvanced area.now (is_asking area.now.files self.old)
            (turn area.now.files (state_in area.now.files self.old)) self.old result self.new }
    {
        let point = self.stack.point();
        let Some(row) = area.instruction(point.class, point.method, point.at) else {
            return stuck(alloc, area, point, 5);
        };
        let site = Site {
            point,
            instr: row.instr,
            next: row.next,
            aside: row.aside,
        };
        self.run(alloc, area, site, row.ahead)
    }
}
