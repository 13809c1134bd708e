//! Handlers that need no second look: those that have met the locals of a frame, where others fit
//! into these.

ghost use Rattle.std.specs.Prelude.{◌≡◌, length, IfOk, Ok, None, if◌then◌else◌};
ghost use Rattle.std.specs.Option.{option_map};
ghost use Rattle.par_frame_moves.specs.par_kinds.Fits.{Given};
ghost use Rattle.par_kinds.specs.Passes.{handled};
ghost use Rattle.par_frame_moves.specs.par_kinds.Kinds.{Each};
ghost use Rattle.par_frame_steps.specs.Marks.{frame_of};
ghost use Rattle.par_frame_guesses.specs.Methods.{exc_of, act_in, handler_in, code_in, IsToldOf};
ghost use Rattle.par_frame_passes.specs.Sparing.{AreMarked, IsBelow, Spares};
ghost use Rattle.par_frame_passes.specs.Sweeps.{Kept, Meets, Went};
ghost use Rattle.par_frame_passes.specs.Tables.{table_of};
ghost use Rattle.par_frame_passes.specs.declared.course.Course.TheVariants as course;

use crate::course::Course;
use crate::goes::go_to_handlers;
use par_base::memory::NoMemory;
use par_class::file::Catch;
use par_frame_guesses::{Method, mark};
use par_frame_steps::{Merges, Pile, PlaceFrame};
use std::alloc::Global;

/// Marks where handlers begin, and where what they handle does.
fn mark_begun(catches: &[Catch], marks: &mut [bool])
    ensures { AreMarked catches.now (length marks.old) marks.new }
{
    for catch in catches {
        mark(marks, catch.start as usize);
        mark(marks, catch.handler as usize);
    }
}

/// Of each offset whether a handler begins there, or what one handles.
pub(crate) fn begun_offsets(alloc: Global, method: &Method) -> Result<Vec<bool>, NoMemory>
    ensures { IfOk result (λ marks. AreMarked (code_in method.now).catches
        (length (code_in method.now).code) marks.items) }
{
    let mut marks = vec![in alloc; false; method.code.code.len()]?;
    mark_begun(method.code.catches.as_slice(), marks.as_mut_slice());
    Ok(marks)
}

/// Forgets a frame, if it is said.
pub(crate) fn forget<'f>(spared: &mut Option<PlaceFrame<'f>>, is_over: bool)
    ensures { option_map frame_of spared.new
        ≡ (if is_over then None else option_map frame_of spared.old) }
{
    if is_over {
        let before = spared.take();
        drop(before);
    }
}

/// A copy of a frame without its operands.
fn bare<'f>(alloc: Global, frame: &PlaceFrame<'f>) -> Result<PlaceFrame<'f>, NoMemory>
    ensures { IfOk result (λ bare. (frame_of bare).locals ≡ (frame_of frame.now).locals) }
{
    Ok(PlaceFrame {
        many: frame.many,
        locals: frame.locals.copied(alloc)?,
        stack: Pile::new(alloc),
    })
}

/// Whether the locals of a frame fit into those that handlers have met, if there are some.
fn is_spared(method: &Method, spared: &Option<PlaceFrame>, frame: &PlaceFrame) -> bool
    ensures { IsBelow (exc_of method.now) result (frame_of frame.now).locals
        (option_map frame_of spared.now) }
{
    match spared {
        Some(met) => frame.locals_fit_into(method.exceptions, met),
        None => false,
    }
}

/// Lets the frame of an offset go on at the handlers around it, but where they have met its locals.
pub(crate) fn meet_handlers<'f>(
    alloc: Global,
    merges: &mut Merges<'f>,
    method: &Method<'_, 'f>,
    table: &mut [Option<PlaceFrame<'f>>],
    spared: &mut Option<PlaceFrame<'f>>,
    frame: &PlaceFrame<'f>,
    at: u32,
) -> Result<Course, NoMemory>
    ensures went { (start : Given) → IsToldOf method.now start →
        Spares (exc_of method.now) (act_in method.now) (handler_in method.now)
        (code_in method.now) at (table_of table.old) (option_map frame_of spared.old) →
        Went (exc_of method.now) (act_in method.now) (handler_in method.now)
        (code_in method.now) start at
        (handled (exc_of method.now) (act_in method.now) (handler_in method.now)
        (code_in method.now) start at (frame_of frame.now) (code_in method.now).catches)
        (table_of table.old) result (table_of table.new) }
    ensures spared { (start : Given) → IsToldOf method.now start →
        Spares (exc_of method.now) (act_in method.now) (handler_in method.now)
        (code_in method.now) at (table_of table.old) (option_map frame_of spared.old) →
        Kept (exc_of method.now) (act_in method.now) (handler_in method.now)
        (code_in method.now) start (table_of table.old) →
        Each (Meets (exc_of method.now) (act_in method.now) (handler_in method.now)
        (code_in method.now) start)
        (handled (exc_of method.now) (act_in method.now) (handler_in method.now)
        (code_in method.now) start at (frame_of frame.now) (code_in method.now).catches) →
        result ≡ Ok course.Calm →
        Spares (exc_of method.now) (act_in method.now) (handler_in method.now)
        (code_in method.now) at (table_of table.new) (option_map frame_of spared.new) }
{
    let catches = method.code.catches.as_slice();
    if catches.is_empty() {
        return Ok(Course::Calm);
    }
    if is_spared(method, spared, frame) {
        return Ok(Course::Calm);
    }
    let course = go_to_handlers(alloc, merges, method, table, frame, at, catches)?;
    let met = bare(alloc, frame)?;
    let before = spared.replace(met);
    drop(before);
    Ok(course)
}
