//! One instruction.

ghost use Rattle.std.specs.Prelude.{◌≡◌, ◌≤◌, ◌<◌, length, Some, Ok, IfOk};
ghost use Rattle.std.specs.Option.{option_map};
ghost use Rattle.par_frame_moves.specs.par_kinds.Fits.{Given};
ghost use Rattle.par_frame_moves.specs.par_kinds.Kinds.{Each};
ghost use Rattle.par_kinds.specs.Passes.{Table as Frames, frame_at, handled};
ghost use Rattle.par_frame_steps.specs.Marks.{frame_of};
ghost use Rattle.par_frame_guesses.specs.Methods.{exc_of, act_in, handler_in, code_in};
ghost use Rattle.par_frame_guesses.specs.Methods.{IsToldOf, fixed_at};
ghost use Rattle.par_frame_passes.specs.Sparing.{Spares, SparesApart};
ghost use Rattle.par_frame_passes.specs.Sweeps.{Kept, Meets, Visited, Went};
ghost use Rattle.par_frame_passes.specs.Tables.{table_of, IsLeft, Taken};
ghost use Rattle.par_frame_passes.specs.declared.course.Course.TheVariants as course;

use crate::course::Course;
use crate::goes::go_on;
use crate::outcome::leave;
use crate::spared::meet_handlers;
use crate::table::taken;
use par_base::memory::NoMemory;
use par_frame_guesses::Method;
use par_frame_steps::{Flow, Merges, PlaceFrame};
use par_instr::{Instr, decode};
use std::alloc::Global;

/// What becomes of the frames at the handlers around an instruction, and where it goes on, if it
/// can be run.
#[derive(Clone, Copy)]
struct Setting {
    aside: Course,
    flow: Option<Flow>,
}

/// Lets the frame of an offset go on at the handlers around it, and makes of it what the
/// instruction leaves.
fn set_out<'f>(
    alloc: Global,
    merges: &mut Merges<'f>,
    method: &Method<'_, 'f>,
    table: &mut [Option<PlaceFrame<'f>>],
    spared: &mut Option<PlaceFrame<'f>>,
    frame: &mut PlaceFrame<'f>,
    instr: Instr,
    at: u32,
) -> Result<Setting, NoMemory>
    ensures went { IfOk result (λ setting. (start : Given) → IsToldOf method.now start →
        Spares (exc_of method.now) (act_in method.now) (handler_in method.now)
        (code_in method.now) at (table_of table.old) (option_map frame_of spared.old) →
        Went (exc_of method.now) (act_in method.now) (handler_in method.now)
        (code_in method.now) start at
        (handled (exc_of method.now) (act_in method.now) (handler_in method.now)
        (code_in method.now) start at (frame_of frame.old) (code_in method.now).catches)
        (table_of table.old) (Ok setting.aside) (table_of table.new)) }
    ensures spared { IfOk result (λ setting. (start : Given) → IsToldOf method.now start →
        Spares (exc_of method.now) (act_in method.now) (handler_in method.now)
        (code_in method.now) at (table_of table.old) (option_map frame_of spared.old) →
        Kept (exc_of method.now) (act_in method.now) (handler_in method.now)
        (code_in method.now) start (table_of table.old) →
        Each (Meets (exc_of method.now) (act_in method.now) (handler_in method.now)
        (code_in method.now) start)
        (handled (exc_of method.now) (act_in method.now) (handler_in method.now)
        (code_in method.now) start at (frame_of frame.old) (code_in method.now).catches) →
        setting.aside ≡ course.Calm →
        Spares (exc_of method.now) (act_in method.now) (handler_in method.now)
        (code_in method.now) at (table_of table.new) (option_map frame_of spared.new)) }
    ensures left { IfOk result (λ setting.
        IsLeft (exc_of method.now) (act_in method.now instr) (frame_of frame.old) setting.flow
        (frame_of frame.new)) }
{
    let aside = meet_handlers(alloc, merges, method, table, spared, frame, at)?;
    let flow = leave(alloc, method, instr, frame)?;
    Ok(Setting { aside, flow })
}

/// Lets the frame of an offset go on that was taken of the table.
fn go_through<'f>(
    alloc: Global,
    merges: &mut Merges<'f>,
    method: &Method<'_, 'f>,
    table: &mut [Option<PlaceFrame<'f>>],
    spared: &mut Option<PlaceFrame<'f>>,
    frame: PlaceFrame<'f>,
    at: usize,
) -> Result<Course, NoMemory>
    requires inside { at < length (code_in method.now).code }
    requires small { length (code_in method.now).code ≤ 65535 }
    ensures visited { (start : Given) (t : Frames) → IsToldOf method.now start →
        Taken (fixed_at method.now at) at t (table_of table.old) →
        frame_at t at ≡ Some (frame_of frame.entry) →
        SparesApart (exc_of method.now) (act_in method.now) (handler_in method.now)
        (code_in method.now) at t (option_map frame_of spared.old) →
        Visited (exc_of method.now) (act_in method.now) (handler_in method.now)
        (code_in method.now) start at t result (table_of table.new) }
    ensures spared { (start : Given) (t : Frames) → IsToldOf method.now start →
        Taken (fixed_at method.now at) at t (table_of table.old) →
        frame_at t at ≡ Some (frame_of frame.entry) →
        SparesApart (exc_of method.now) (act_in method.now) (handler_in method.now)
        (code_in method.now) at t (option_map frame_of spared.old) →
        Kept (exc_of method.now) (act_in method.now) (handler_in method.now)
        (code_in method.now) start t → result ≡ Ok course.Calm →
        Spares (exc_of method.now) (act_in method.now) (handler_in method.now)
        (code_in method.now) at (table_of table.new) (option_map frame_of spared.new) }
{
    let Ok((instr, next)) = decode(method.code.code.as_slice(), at) else {
        drop(frame);
        return Ok(Course::Refused);
    };
    let mut frame = frame;
    match set_out(
        alloc, merges, method, table, spared, &mut frame, instr, at as u32,
    ) {
        Ok(setting) => match setting.flow {
            Some(flow) => {
                let onward = go_on(
                    alloc,
                    merges,
                    method,
                    table,
                    frame,
                    flow,
                    at as u32,
                    next as u32,
                )?;
                Ok(setting.aside.joined(onward))
            }
            None => {
                drop(frame);
                Ok(Course::Refused)
            }
        },
        Err(error) => {
            drop(frame);
            Err(error)
        }
    }
}

/// Lets the frame of an offset go on, where it has one. It is kept no longer, unless it stays.
pub(crate) fn visit<'f>(
    alloc: Global,
    merges: &mut Merges<'f>,
    method: &Method<'_, 'f>,
    table: &mut [Option<PlaceFrame<'f>>],
    spared: &mut Option<PlaceFrame<'f>>,
    at: usize,
    stays: bool,
) -> Result<Course, NoMemory>
    requires inside { at < length (code_in method.now).code }
    requires small { length (code_in method.now).code ≤ 65535 }
    ensures visited { (start : Given) → IsToldOf method.now start →
        SparesApart (exc_of method.now) (act_in method.now) (handler_in method.now)
        (code_in method.now) at (table_of table.old) (option_map frame_of spared.old) →
        Visited (exc_of method.now) (act_in method.now) (handler_in method.now)
        (code_in method.now) start at (table_of table.old) result (table_of table.new) }
    ensures spared { (start : Given) → IsToldOf method.now start →
        SparesApart (exc_of method.now) (act_in method.now) (handler_in method.now)
        (code_in method.now) at (table_of table.old) (option_map frame_of spared.old) →
        Kept (exc_of method.now) (act_in method.now) (handler_in method.now)
        (code_in method.now) start (table_of table.old) →
        result ≡ Ok course.Calm →
        Spares (exc_of method.now) (act_in method.now) (handler_in method.now)
        (code_in method.now) at (table_of table.new) (option_map frame_of spared.new) }
{
    let Some(frame) = taken(alloc, method, table, at, stays)? else {
        return Ok(Course::Calm);
    };
    go_through(alloc, merges, method, table, spared, frame, at)
}
