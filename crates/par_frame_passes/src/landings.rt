//! A frame that goes on at an offset.

ghost use Rattle.std.specs.Prelude.{◌≡◌, [], ◌∷◌, IfOk};
ghost use Rattle.par_frame_moves.specs.par_kinds.Fits.{Given};
ghost use Rattle.par_kinds.specs.Passes.{Table as Frames, frame_at, landed};
ghost use Rattle.par_kinds.specs.Passes.{landed_at, land};
ghost use Rattle.par_frame_steps.specs.Marks.{frame_of};
ghost use Rattle.par_frame_guesses.specs.Methods.{exc_of, act_in, handler_in, code_in, IsToldOf};
ghost use Rattle.par_frame_passes.specs.Tables.{table_of, way_of, landed_in, Comes};
ghost use Rattle.par_frame_passes.specs.Sweeps.{Went};

use crate::course::Course;
use crate::table::{is_new, put};
use par_base::memory::NoMemory;
use par_frame_guesses::{Method, kept};
use par_frame_steps::{Merges, PlaceFrame};
use std::alloc::Global;

/// A frame that goes on at an offset, which may be none. At a handler the operand is the exception
/// and no other.
#[derive(Drop)]
pub(crate) struct PlaceWay<'f> {
    pub(crate) to: i32,
    pub(crate) frame: PlaceFrame<'f>,
    pub(crate) exact: bool,
}

/// What becomes of the frame of the offset.
#[derive(Drop)]
enum Landing<'f> {
    /// No frames fit.
    Refused,
    Stays,
    Rises(PlaceFrame<'f>),
}

/// What becomes of a frame that is kept.
#[tactic(auto, unfolding(par_kinds::specs::Passes::landed))]
fn onto<'f>(
    alloc: Global,
    merges: &mut Merges<'f>,
    method: &Method<'_, 'f>,
    at: usize,
    way: &PlaceWay<'f>,
    kept: &PlaceFrame<'f>,
) -> Result<Landing<'f>, NoMemory>
    ensures { IfOk result (λ it. (start : Given) (t : Frames) → IsToldOf method.now start →
        landed_in it t at ≡ landed (exc_of method.now) (act_in method.now)
        (handler_in method.now) (code_in method.now) start t at (way_of way.now)
        (frame_of kept.now)) }
{
    if way.exact && !kept.operands_fit_into(method.exceptions, &way.frame) {
        return Ok(Landing::Refused);
    }
    let fits = way.frame.fits(alloc, merges, method.exceptions, kept)?;
    if fits {
        return Ok(Landing::Stays);
    }
    if method.is_fixed(at) || !way.frame.has_lengths_of(kept) {
        return Ok(Landing::Refused);
    }
    Ok(Landing::Rises(way.frame.merged(alloc, merges, method.exceptions, kept)?))
}

/// What becomes of an offset without a frame.
fn anew<'f>(method: &Method<'_, 'f>, at: u32, way: PlaceWay<'f>) -> Landing<'f>
    ensures { (start : Given) (t : Frames) → IsToldOf method.now start →
        landed_in result t at ≡ landed_at (exc_of method.now) (act_in method.now)
        (handler_in method.now) (code_in method.now) start t at (way_of way.entry) None }
{
    let fits = method.starts.has(at)
        && way.frame.places() == method.code.max_locals as usize
        && way.frame.operands() <= method.code.max_stack as usize;
    if !fits {
        drop(way);
        return Landing::Refused;
    }
    Landing::Rises(way.frame)
}

/// What becomes of an offset.
fn landing_at<'f>(
    alloc: Global,
    merges: &mut Merges<'f>,
    method: &Method<'_, 'f>,
    table: &[Option<PlaceFrame<'f>>],
    at: u32,
    way: PlaceWay<'f>,
) -> Result<Landing<'f>, NoMemory>
    ensures { IfOk result (λ it. (start : Given) → IsToldOf method.now start →
        landed_in it (table_of table.entry.now) at ≡ landed_at (exc_of method.now)
        (act_in method.now) (handler_in method.now) (code_in method.now) start
        (table_of table.entry.now) at (way_of way.entry)
        (frame_at (table_of table.entry.now) at)) }
{
    match kept(table, at as usize) {
        Some(kept) => {
            let landing = onto(alloc, merges, method, at as usize, &way, kept);
            drop(way);
            landing
        }
        None => Ok(anew(method, at, way)),
    }
}

/// Lets a frame go on at an offset: whether one rose, or nothing where no frames fit.
fn land<'f>(
    alloc: Global,
    merges: &mut Merges<'f>,
    method: &Method<'_, 'f>,
    table: &mut [Option<PlaceFrame<'f>>],
    way: PlaceWay<'f>,
) -> Result<Option<bool>, NoMemory>
    ensures { (start : Given) → IsToldOf method.now start →
        Comes result (table_of table.new) (land (exc_of method.now) (act_in method.now)
        (handler_in method.now) (code_in method.now) start (table_of table.old)
        (way_of way.entry)) }
{
    if way.to < 0 {
        drop(way);
        return Ok(None);
    }
    let at = way.to as u32;
    match landing_at(alloc, merges, method, table, at, way)? {
        Landing::Refused => Ok(None),
        Landing::Stays => Ok(Some(false)),
        Landing::Rises(frame) => {
            put(table, at as usize, frame);
            Ok(Some(true))
        }
    }
}

/// Lets a frame of the instruction of an offset go on at another, which may be none.
pub(crate) fn arrive<'f>(
    alloc: Global,
    merges: &mut Merges<'f>,
    method: &Method<'_, 'f>,
    table: &mut [Option<PlaceFrame<'f>>],
    frame: PlaceFrame<'f>,
    to: i32,
    exact: bool,
    at: usize,
) -> Result<Course, NoMemory>
    ensures { (start : Given) → IsToldOf method.now start →
        Went (exc_of method.now) (act_in method.now) (handler_in method.now)
        (code_in method.now) start at
        (record { to = to; frame = frame_of frame.entry; exact = exact } ∷ [])
        (table_of table.old) result (table_of table.new) }
{
    let is_new = is_new(table, to, at);
    let way = PlaceWay { to, frame, exact };
    let landed = land(alloc, merges, method, table, way)?;
    match landed {
        None => Ok(Course::Refused),
        Some(false) => Ok(Course::Calm),
        Some(true) if is_new => Ok(Course::Calm),
        Some(true) => Ok(Course::Rises(to.max(0) as usize)),
    }
}
