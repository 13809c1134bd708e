//! What an instruction came to is handed out, and the run goes on so.

ghost use Rattle.std.specs.Prelude.{◌≡◌, ◌<◌, ◌≤◌, ◌+◌, ℕ, true, ℤ, pos, ◌+ℤ◌, ◌⊎◌, length, IfOk};
ghost use Rattle.std.specs.Prelude.{IsTrue};
ghost use Rattle.par_heap.specs.Heap.{objects_of};
ghost use Rattle.par_stack.specs.Frames.{running};
ghost use Rattle.par_method_area.specs.par_step_laws.Step.{offset};
ghost use Rattle.par_machine.specs.Frames.{code_of};
ghost use Rattle.par_machine.specs.Running.{IsSound};
ghost use Rattle.par_machine.specs.Settled.{is_told, Tells, IsSettled};
ghost use Rattle.par_machine.specs.Site.{IsKnown, is_call};

use crate::events::{born_event, out_event, put_event, set_event, stuck};
use crate::run::Running;
use crate::site::Site;
use crate::turn::{Stuck, Turn};
use par_base::memory::NoMemory;
use par_method_area::MethodArea;
use par_method_area::par_actions::Done;
use par_starts::distance;
use par_values::run::Event;
use std::alloc::Global;

/// The offset at a distance from another, 0 where it is below 0.
pub(crate) fn target(at: u32, distance: i16) -> u32
    requires { at ≤ 65535 }
    ensures { result ≡ offset (pos at +ℤ distance) }
{
    let to = at as i32 + distance as i32;
    if to < 0 { 0 } else { to as u32 }
}

/// The event of what an instruction came to.
#[inline(always)]
fn event(alloc: Global, area: &MethodArea, site: Site, done: Done) -> Result<Event, NoMemory>
    requires told { is_told done ≡ true }
    requires known { IsKnown area.now.files site done }
    ensures { IfOk result (λ e. Tells area.now.files site done e) }
{
    match done {
        Done::Sets(value) => set_event(alloc, area, site, value),
        Done::Puts(n, value) => put_event(alloc, area, site, n, value),
        Done::Born(n) => born_event(alloc, area, site, n),
        Done::Outs(number) => out_event(alloc, area, site, number),
        _ => unreachable!(),
    }
}

impl Running {
    /// Goes on behind the instruction of a site, or to its distance, to a new frame or to one that
    /// waits, to where an exception lands, or nowhere.
    #[inline(always)]
    pub(crate) fn settle(
        &mut self,
        alloc: Global,
        area: &MethodArea,
        site: Site,
        done: Done,
    ) -> Result<Turn, Stuck>
        requires sound { IsSound area.now self.old }
        requires stays { IsTrue (is_call done) ⊎ ((running self.old.stack).point ≡ site.point) }
        requires known { IsKnown area.now.files site done }
        requires small { site.point.at ≤ 65535 }
        requires forward { site.point.at ≤ site.next }
        requires within { site.next ≤ length (code_of area.now.files site.point).code }
        requires few { (class : ℕ) → length (objects_of self.old.heap class) < 4294967295 }
        ensures { IsSettled area.now site done self.old result self.new }
    {
        let _ = self.stack.point();
        match done {
            Done::Goes => {
                self.stack.go_to(site.next);
                Ok(Turn::Silent)
            }
            Done::Jumps => {
                self.stack
                    .go_to(target(site.point.at, distance(site.instr)));
                Ok(Turn::Silent)
            }
            Done::Calls => Ok(Turn::Silent),
            Done::Returns => Ok(self.leave(area)),
            Done::ReturnsWith(value) => Ok(self.leave_with(area, value)),
            Done::ThrowsArithmetic => self.throw_next(alloc, area, area.linked().count(), None),
            Done::ThrowsNull(later) => {
                self.throw_next(alloc, area, area.linked().count() + 1, later)
            }
            Done::Throws(exception, later) => self.throw(alloc, area, exception, later),
            Done::Bad(reason) => stuck(alloc, area, site.point, reason),
            _ => {
                let event = event(alloc, area, site, done)?;
                self.stack.go_to(site.next);
                Ok(Turn::Happened(event))
            }
        }
    }
}
