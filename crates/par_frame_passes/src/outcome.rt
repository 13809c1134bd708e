//! What an instruction leaves of a frame.

ghost use Rattle.std.specs.Prelude.{List as Items, IfOk};
ghost use Rattle.par_values.specs.Areas.{Name};
ghost use Rattle.par_frame_steps.specs.Marks.{names, frame_of, act_of as meaning_of};
ghost use Rattle.par_frame_moves.specs.Briefs.{act_of};
ghost use Rattle.par_frame_guesses.specs.Methods.{exc_of, act_in};
ghost use Rattle.par_frame_passes.specs.Tables.{IsLeft};

use par_base::memory::NoMemory;
use par_frame_acts::act;
use par_frame_guesses::Method;
use par_frame_moves::{Brief, in_brief};
use par_frame_steps::{Act, Flow, PlaceFrame};
use par_instr::Instr;
use std::alloc::Global;

/// Makes of a frame what an instruction leaves of it, if it can be run on it: where it goes on.
/// Elsewhere nothing is told of the frame.
pub(crate) fn leave<'f>(
    alloc: Global,
    method: &Method<'_, 'f>,
    instr: Instr,
    frame: &mut PlaceFrame<'f>,
) -> Result<Option<Flow>, NoMemory>
    ensures { IfOk result (λ flow. IsLeft (exc_of method.now) (act_in method.now instr)
        (frame_of frame.old) flow (frame_of frame.new)) }
{
    match in_brief(instr) {
        Some(brief) => left_in_place(alloc, brief, frame),
        None => left_by_act(alloc, method, instr, frame),
    }
}

/// The same of an instruction that names no class.
fn left_in_place(
    alloc: Global,
    brief: Brief,
    frame: &mut PlaceFrame,
) -> Result<Option<Flow>, NoMemory>
    ensures { (exceptions : Items Name) → IfOk result (λ flow.
        IsLeft exceptions (act_of brief) (frame_of frame.old) flow (frame_of frame.new)) }
{
    if !brief.fits(frame) {
        return Ok(None);
    }
    brief.leave(alloc, frame)?;
    Ok(Some(brief.flow))
}

/// The same by what an instruction asks and leaves.
fn left_by<'f>(
    alloc: Global,
    exceptions: &[&[u8]],
    act: &Act<'f>,
    frame: &mut PlaceFrame<'f>,
) -> Result<Option<Flow>, NoMemory>
    ensures { IfOk result (λ flow. IsLeft (names exceptions.now) (meaning_of act.now)
        (frame_of frame.old) flow (frame_of frame.new)) }
{
    if !act.fits(exceptions, frame) {
        return Ok(None);
    }
    act.leave(alloc, frame)?;
    Ok(Some(act.flow))
}

/// The same of any instruction, of which more is known.
fn left_by_act<'f>(
    alloc: Global,
    method: &Method<'_, 'f>,
    instr: Instr,
    frame: &mut PlaceFrame<'f>,
) -> Result<Option<Flow>, NoMemory>
    ensures { IfOk result (λ flow. IsLeft (exc_of method.now) (act_in method.now instr)
        (frame_of frame.old) flow (frame_of frame.new)) }
{
    let act = act(alloc, method.linked, method.class, method.gives, instr)?;
    let left = left_by(alloc, method.exceptions, &act, frame);
    drop(act);
    left
}
