//! Where the frame of an instruction goes on.

ghost use Rattle.std.specs.Prelude.{◌≡◌, ℕ, ◌+◌, ◌≤◌, false, [], ◌∷◌};
ghost use Rattle.par_frame_moves.specs.par_kinds.Acts.{next_offsets};
ghost use Rattle.par_frame_moves.specs.par_kinds.Fits.{Given};
ghost use Rattle.par_kinds.specs.Passes.{onward, handled};
ghost use Rattle.par_frame_steps.specs.Marks.{frame_of, flow_of};
ghost use Rattle.par_frame_guesses.specs.Methods.{exc_of, act_in, handler_in, code_in, IsToldOf};
ghost use Rattle.par_frame_passes.specs.Sweeps.{Went};
ghost use Rattle.par_frame_passes.specs.Tables.{table_of, taken_by};

use crate::course::Course;
use crate::landings::arrive;
use par_base::memory::NoMemory;
use par_class::file::Catch;
use par_frame_acts::caught;
use par_frame_guesses::{Method, is_around};
use par_frame_steps::{Flow, Merges, Pile, PlaceFrame};
use std::alloc::Global;

/// Lets a frame go on where code goes on from an offset, of an instruction before another offset.
pub(crate) fn go_on<'f>(
    alloc: Global,
    merges: &mut Merges<'f>,
    method: &Method<'_, 'f>,
    table: &mut [Option<PlaceFrame<'f>>],
    frame: PlaceFrame<'f>,
    flow: Flow,
    at: u32,
    next: u32,
) -> Result<Course, NoMemory>
    requires at { at ≤ 65535 }
    requires next { next ≤ 65535 }
    ensures { (start : Given) (size : ℕ) → IsToldOf method.now start → at + size ≡ next →
        Went (exc_of method.now) (act_in method.now) (handler_in method.now)
        (code_in method.now) start at
        (onward (exc_of method.now) (act_in method.now) (handler_in method.now)
        (code_in method.now) start (frame_of frame.entry)
        (next_offsets (flow_of flow) at size))
        (table_of table.old) result (table_of table.new) }
{
    match flow {
        Flow::Onward => go_to(alloc, merges, method, table, frame, next as i32, at),
        Flow::Jumps(to) => {
            let to = at as i32 + i32::from(to);
            go_to(alloc, merges, method, table, frame, to, at)
        }
        Flow::Branches(to) => {
            let to = at as i32 + i32::from(to);
            go_to_both(alloc, merges, method, table, frame, next as i32, to, at)
        }
        Flow::Nowhere => {
            drop(frame);
            Ok(Course::Calm)
        }
    }
}

/// Lets a frame go on at one offset, and then at another.
fn go_to_both<'f>(
    alloc: Global,
    merges: &mut Merges<'f>,
    method: &Method<'_, 'f>,
    table: &mut [Option<PlaceFrame<'f>>],
    frame: PlaceFrame<'f>,
    ahead: i32,
    aside: i32,
    at: u32,
) -> Result<Course, NoMemory>
    ensures { (start : Given) → IsToldOf method.now start →
        Went (exc_of method.now) (act_in method.now) (handler_in method.now)
        (code_in method.now) start at
        (onward (exc_of method.now) (act_in method.now) (handler_in method.now)
        (code_in method.now) start (frame_of frame.entry) (ahead ∷ aside ∷ []))
        (table_of table.old) result (table_of table.new) }
{
    match copy_goes_to(alloc, merges, method, table, &frame, ahead, at) {
        Ok(first) => {
            let second = go_to(alloc, merges, method, table, frame, aside, at)?;
            Ok(first.joined(second))
        }
        Err(error) => {
            drop(frame);
            Err(error)
        }
    }
}

/// Lets a copy of a frame go on at an offset.
fn copy_goes_to<'f>(
    alloc: Global,
    merges: &mut Merges<'f>,
    method: &Method<'_, 'f>,
    table: &mut [Option<PlaceFrame<'f>>],
    frame: &PlaceFrame<'f>,
    to: i32,
    at: u32,
) -> Result<Course, NoMemory>
    ensures { (start : Given) → IsToldOf method.now start →
        Went (exc_of method.now) (act_in method.now) (handler_in method.now)
        (code_in method.now) start at
        (record { to = to; frame = frame_of frame.now; exact = false } ∷ [])
        (table_of table.old) result (table_of table.new) }
{
    let copy = frame.copied(alloc)?;
    go_to(alloc, merges, method, table, copy, to, at)
}

/// Lets a frame go on at an offset.
fn go_to<'f>(
    alloc: Global,
    merges: &mut Merges<'f>,
    method: &Method<'_, 'f>,
    table: &mut [Option<PlaceFrame<'f>>],
    frame: PlaceFrame<'f>,
    to: i32,
    at: u32,
) -> Result<Course, NoMemory>
    ensures { (start : Given) → IsToldOf method.now start →
        Went (exc_of method.now) (act_in method.now) (handler_in method.now)
        (code_in method.now) start at
        (record { to = to; frame = frame_of frame.entry; exact = false } ∷ [])
        (table_of table.old) result (table_of table.new) }
{
    arrive(alloc, merges, method, table, frame, to, false, at as usize)
}

/// Lets the locals of a frame go on at a handler, with what it takes as the one operand.
fn handle<'f>(
    alloc: Global,
    merges: &mut Merges<'f>,
    method: &Method<'_, 'f>,
    table: &mut [Option<PlaceFrame<'f>>],
    frame: &PlaceFrame<'f>,
    catch: &Catch,
    at: u32,
) -> Result<Course, NoMemory>
    ensures { (start : Given) → IsToldOf method.now start →
        Went (exc_of method.now) (act_in method.now) (handler_in method.now)
        (code_in method.now) start at
        (taken_by (handler_in method.now) (frame_of frame.now) catch.now ∷ [])
        (table_of table.old) result (table_of table.new) }
{
    let kind = caught(method.linked, method.class, catch);
    let frame = PlaceFrame {
        many: frame.many,
        locals: frame.locals.copied(alloc)?,
        stack: Pile::of(alloc, &[kind])?,
    };
    let to = i32::from(catch.handler);
    arrive(alloc, merges, method, table, frame, to, true, at as usize)
}

/// Lets the frame of an offset go on at each of some handlers that is around it.
pub(crate) fn go_to_handlers<'f>(
    alloc: Global,
    merges: &mut Merges<'f>,
    method: &Method<'_, 'f>,
    table: &mut [Option<PlaceFrame<'f>>],
    frame: &PlaceFrame<'f>,
    at: u32,
    catches: &[Catch],
) -> Result<Course, NoMemory>
    ensures { (start : Given) → IsToldOf method.now start →
        Went (exc_of method.now) (act_in method.now) (handler_in method.now)
        (code_in method.now) start at
        (handled (exc_of method.now) (act_in method.now) (handler_in method.now)
        (code_in method.now) start at (frame_of frame.now) catches.now)
        (table_of table.old) result (table_of table.new) }
{
    let mut course = Course::Calm;
    for catch in catches {
        if is_around(at, catch) {
            let then = handle(alloc, merges, method, table, frame, catch, at)?;
            course = course.joined(then);
        }
    }
    Ok(course)
}
