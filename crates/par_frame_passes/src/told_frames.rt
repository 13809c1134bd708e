//! Frames that are told of some offsets beside those that stand.

ghost use Rattle.std.specs.Prelude.{◌≡◌, ◌==◌, ◌&&◌, nat_le, true, Some, None, is_some, map};
ghost use Rattle.std.specs.Prelude.{length, slice_set, IfOk};
ghost use Rattle.std.specs.Option.{option_map};
ghost use Rattle.par_frame_moves.specs.par_kinds.Fits.{Given};
ghost use Rattle.par_kinds.specs.Passes.{frame_at, is_sized};
ghost use Rattle.par_frame_steps.specs.Marks.{frame_of};
ghost use Rattle.par_frame_guesses.specs.Methods.{code_in, IsToldOf};
ghost use Rattle.par_frame_passes.specs.Tables.{table_of};
ghost use Rattle.par_frame_passes.specs.Telling.{Tells};

use crate::table::{Table, put};
use par_base::memory::NoMemory;
use par_frame_guesses::{Guess, Method, kept};
use par_frame_steps::PlaceFrame;
use std::alloc::Global;

/// Whether a frame has the places that it needs.
fn is_filled(method: &Method, frame: &PlaceFrame) -> bool
    ensures { result ≡ (length (frame_of frame.now).locals == (code_in method.now).max_locals
        && nat_le (length (frame_of frame.now).stack) (code_in method.now).max_stack) }
{
    frame.places() == method.code.max_locals as usize
        && frame.operands() <= method.code.max_stack as usize
}

/// Whether a frame can stand at an offset.
fn can_stand(method: &Method, at: u32, frame: &PlaceFrame) -> bool
    ensures { (start : Given) → IsToldOf method.now start →
        result ≡ is_sized (code_in method.now) at (frame_of frame.now) }
{
    if !method.starts.has(at) {
        return false;
    }
    is_filled(method, frame)
}

/// Whether no frame stands at an offset.
fn has_none(table: &Table, at: usize) -> bool
    ensures { result ≡ true → frame_at (table_of table.now.items) at ≡ None }
{
    match kept(table.as_slice(), at) {
        Some(_) => false,
        None => true,
    }
}

/// A copy of a frame, where there is one.
fn copy_of<'f>(
    alloc: Global,
    frame: &Option<PlaceFrame<'f>>,
) -> Result<Option<PlaceFrame<'f>>, NoMemory>
    ensures { IfOk result (λ copy.
        option_map frame_of copy ≡ option_map frame_of frame.entry.now) }
{
    match frame {
        Some(frame) => Ok(Some(frame.copied(alloc)?)),
        None => Ok(None),
    }
}

/// The frames of a table.
fn copies<'f>(alloc: Global, table: &[Option<PlaceFrame<'f>>]) -> Result<Table<'f>, NoMemory>
    ensures { IfOk result (λ all. table_of all.items ≡ table_of table.entry.now) }
{
    let mut all = Vec::new(alloc);
    for frame in table {
        all.push(copy_of(alloc, frame)?)?;
    }
    Ok(all)
}

/// Puts a frame at an offset of the table.
fn stand<'f>(table: &mut Table<'f>, at: usize, frame: PlaceFrame<'f>)
    ensures { table_of table.new.items
        ≡ slice_set (table_of table.old.items) at (Some (frame_of frame.entry)) }
{
    put(table.as_mut_slice(), at, frame);
}

/// Tells a frame of an offset, if it can stand there and none does.
fn tell<'f>(method: &Method<'_, 'f>, table: &mut Table<'f>, guess: Guess<'f>)
    ensures { (start : Given) → IsToldOf method.now start →
        Tells (code_in method.now) (table_of table.old.items) (table_of table.new.items) }
{
    let at = guess.at as usize;
    if !has_none(table, at) || !can_stand(method, guess.at, &guess.frame) {
        drop(guess);
        return;
    }
    stand(table, at, guess.frame);
}

/// Frames that stand, and those of some guesses that can stand beside them.
pub(crate) fn told<'f>(
    alloc: Global,
    method: &Method<'_, 'f>,
    table: &[Option<PlaceFrame<'f>>],
    guesses: Vec<Guess<'f>>,
) -> Result<Table<'f>, NoMemory>
    ensures { IfOk result (λ all. (start : Given) → IsToldOf method.now start →
        Tells (code_in method.now) (table_of table.entry.now) (table_of all.items)) }
{
    let mut all = copies(alloc, table)?;
    for guess in guesses {
        tell(method, &mut all, guess);
    }
    Ok(all)
}

/// Of each offset whether a frame stands there.
pub(crate) fn standing(alloc: Global, table: &[Option<PlaceFrame>]) -> Result<Vec<bool>, NoMemory>
    ensures { IfOk result (λ marks. marks.items ≡ map is_some (table_of table.now)) }
{
    let mut marks = Vec::new(alloc);
    for frame in table {
        marks.push(frame.is_some())?;
    }
    Ok(marks)
}
