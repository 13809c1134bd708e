ghost use Rattle.std.specs.Prelude.{◌≡◌, ◌<◌, ◌+◌, [], drop, length, IfSome, IfNone};
ghost use Rattle.std.specs.Option.{option_map};
ghost use Rattle.par_step_laws.specs.Handlers.{caught, handler_in};
ghost use Rattle.par_unwinding.specs.Standing.{standing};
ghost use Rattle.par_stack.specs.Frames.{running, with_running, left_with};
ghost use Rattle.par_unwinding.specs.Shown.{frames_of};
ghost use Rattle.par_unwinding.specs.Landing.{Lands, gone_on};

use crate::catches::handler;
use par_stack::{Point, Stack};
use par_step_laws::par_link::Linked;
use par_values::value::MVal;

/// Where an exception goes.
#[derive(Clone, Copy, PartialEq, Eq)]
pub struct Landing {
    /// How many frames are dropped.
    pub above: usize,
    /// Where the next one goes on: at its handler.
    pub point: Point,
}

/// Where a frame goes on at which an exception of a class arrives, none where no handler takes it.
fn handled(linked: &Linked, point: Point, thrown: u16) -> Option<Point>
    ensures at { option_map (λ p. p.at) result
        ≡ handler_in linked.now thrown (standing point.class point.method point.at) }
    ensures same { IfSome result (λ p. p ≡ record point { at = p.at }) }
{
    let at = handler(linked, thrown, point.class, point.method, point.at)?;
    Some(Point {
        class: point.class,
        method: point.method,
        at: at as u32,
    })
}

/// Where an exception of a class goes, none where no frame takes it.
pub fn landing_of(linked: &Linked, stack: &Stack, thrown: u16) -> Option<Landing>
    ensures taken { IfSome result (Lands linked.now thrown stack.now) }
    ensures uncaught { IfNone result (caught linked.now thrown (frames_of stack.now) ≡ []) }
{
    for above in 0..stack.depth() {
        let Some(point) = stack.point_below(above) else {
            return None;
        };
        if let Some(point) = handled(linked, point, thrown) {
            return Some(Landing { above, point });
        }
    }
    None
}

/// Drops the frames above, and goes on at the handler with the exception as the only operand.
pub fn land(stack: &mut Stack, landing: Landing, exception: MVal)
    requires there { landing.above < length stack.old }
    requires roomy { 0 < length (running (drop landing.above stack.old)).operands
        + (running (drop landing.above stack.old)).free }
    ensures { stack.new
        ≡ with_running (left_with exception) (gone_on landing.above landing.point.at stack.old) }
{
    for _dropped in 0..landing.above {
        stack.leave();
    }
    stack.go_to(landing.point.at);
    stack.keep(exception);
}
