//! The frames that are kept, by their offsets.

ghost use Rattle.std.specs.Prelude.{◌≡◌, slice_set, Some, IfOk};
ghost use Rattle.std.specs.Option.{option_map};
ghost use Rattle.par_kinds.specs.Passes.{frame_at};
ghost use Rattle.par_frame_steps.specs.Marks.{frame_of};
ghost use Rattle.par_frame_guesses.specs.Methods.{fixed_at};
ghost use Rattle.par_frame_passes.specs.Tables.{table_of, Taken, NewAt};

use par_base::memory::NoMemory;
use par_frame_guesses::{Method, kept};
use par_frame_steps::PlaceFrame;
use std::alloc::Global;

/// A frame for each offset that has one.
pub type Table<'f> = Vec<Option<PlaceFrame<'f>>>;

/// A copy of the frame of an offset.
fn copied<'f>(
    alloc: Global,
    table: &[Option<PlaceFrame<'f>>],
    at: usize,
) -> Result<Option<PlaceFrame<'f>>, NoMemory>
    ensures { IfOk result (λ frame.
        option_map frame_of frame ≡ frame_at (table_of table.entry.now) at) }
{
    match kept(table, at) {
        Some(frame) => Ok(Some(frame.copied(alloc)?)),
        None => Ok(None),
    }
}

/// The frame of an offset, which is kept no longer.
#[tactic(auto, using(crate::proofs::Puts::taken))]
fn moved<'f>(table: &mut [Option<PlaceFrame<'f>>], at: usize) -> Option<PlaceFrame<'f>>
    ensures found { option_map frame_of result ≡ frame_at (table_of table.old) at }
    ensures left { table_of table.new ≡ slice_set (table_of table.old) at None }
{
    if at >= table.len() {
        return None;
    }
    table[at].take()
}

/// The frame of an offset. It is kept no longer, but where it stays from the start or code goes
/// back to it.
pub(crate) fn taken<'f>(
    alloc: Global,
    method: &Method<'_, 'f>,
    table: &mut [Option<PlaceFrame<'f>>],
    at: usize,
    stays: bool,
) -> Result<Option<PlaceFrame<'f>>, NoMemory>
    ensures found { IfOk result (λ frame.
        option_map frame_of frame ≡ frame_at (table_of table.old) at) }
    ensures left { IfOk result (λ frame.
        Taken (fixed_at method.now at) at (table_of table.old) (table_of table.new)) }
{
    if stays || method.is_fixed(at) {
        return copied(alloc, table, at);
    }
    Ok(moved(table, at))
}

/// Keeps a frame for an offset of the table, in the place of the one that stood there. For another
/// offset none is kept.
#[tactic(auto, using(crate::proofs::Puts::put_there, crate::proofs::Puts::put_nowhere))]
pub fn put<'f>(table: &mut [Option<PlaceFrame<'f>>], at: usize, frame: PlaceFrame<'f>)
    ensures { table_of table.new
        ≡ slice_set (table_of table.old) at (Some (frame_of frame.entry)) }
{
    if at >= table.len() {
        drop(frame);
        return;
    }
    let before = table[at].replace(frame);
    drop(before);
}

/// Whether an offset has no frame and stands ahead of another.
pub(crate) fn is_new(table: &[Option<PlaceFrame>], to: i32, at: usize) -> bool
    ensures { NewAt result (table_of table.now) to at }
{
    if to < 0 {
        return false;
    }
    let place = to as usize;
    place > at && kept(table, place).is_none()
}
