//! All instructions, until nothing rises.

ghost use Rattle.std.specs.Prelude.{◌≡◌, ◌≤◌, true, length, Some, None, IfOk};
ghost use Rattle.par_frame_moves.specs.par_kinds.Kinds.{KFrame};
ghost use Rattle.par_frame_moves.specs.par_kinds.Fits.{Given};
ghost use Rattle.par_kinds.specs.Passes.{frame_at};
ghost use Rattle.par_frame_guesses.specs.Methods.{exc_of, act_in, handler_in, code_in, IsToldOf};
ghost use Rattle.par_frame_passes.specs.Sweeps.{Kept, Settles};
ghost use Rattle.par_frame_passes.specs.Sparing.{AreMarked};
ghost use Rattle.par_frame_passes.specs.Tables.{table_of};

use crate::course::Course;
use crate::spared::{begun_offsets, forget};
use crate::sweep::Sweep;
use crate::told_frames::{standing, told};
use crate::visit::visit;
use par_base::memory::NoMemory;
use par_frame_guesses::{Method, guessed, is_marked};
use par_frame_steps::{Merges, PlaceFrame};
use std::alloc::Global;

/// Goes through the code, and back to each frame that rises, until nothing does on a whole way:
/// whether frames are found.
fn least<'f>(
    alloc: Global,
    method: &Method<'_, 'f>,
    table: &mut [Option<PlaceFrame<'f>>],
) -> Result<bool, NoMemory>
    requires { length (code_in method.now).code ≤ 65535 }
    ensures { IfOk result (λ found. (start : Given) (first : KFrame) →
        IsToldOf method.now start → start 0 ≡ Some first →
        Kept (exc_of method.now) (act_in method.now) (handler_in method.now)
        (code_in method.now) start (table_of table.old) →
        Settles (exc_of method.now) (act_in method.now) (handler_in method.now)
        (code_in method.now) start found) }
{
    let begun = begun_offsets(alloc, method)?;
    let mut sweep = Sweep::new(alloc, method)?;
    let mut spared: Option<PlaceFrame<'f>> = None;
    let mut merges = Merges::new(alloc);
    let found = settles(
        alloc,
        &mut merges,
        method,
        table,
        &begun,
        &mut spared,
        &mut sweep,
    );
    drop(merges);
    drop(spared);
    found
}

/// The same by a sweep that stands at the first offset, while no frame is spared.
fn settles<'f>(
    alloc: Global,
    merges: &mut Merges<'f>,
    method: &Method<'_, 'f>,
    table: &mut [Option<PlaceFrame<'f>>],
    begun: &[bool],
    spared: &mut Option<PlaceFrame<'f>>,
    sweep: &mut Sweep,
) -> Result<bool, NoMemory>
    requires small { length (code_in method.now).code ≤ 65535 }
    requires begun { AreMarked (code_in method.now).catches (length (code_in method.now).code)
        begun.now }
    requires spared { spared.old ≡ None }
    requires at { sweep.old.at ≡ 0 }
    ensures { IfOk result (λ found. (start : Given) (first : KFrame) →
        IsToldOf method.now start → start 0 ≡ Some first →
        Kept (exc_of method.now) (act_in method.now) (handler_in method.now)
        (code_in method.now) start (table_of table.old) →
        Settles (exc_of method.now) (act_in method.now) (handler_in method.now)
        (code_in method.now) start found) }
{
    // Frames rise seldom enough: the steps never come to an end.
    'steps: while sweep.has_steps() {
        let at = sweep.at();
        if at >= method.code.code.len() {
            if !sweep.rose() {
                return Ok(true);
            }
            sweep.begin_again();
            forget(spared, true);
        } else {
            forget(spared, is_marked(begun, at));
            let stays = sweep.stays();
            let course = visit(alloc, merges, method, table, spared, at, stays)?;
            sweep.go_on(course);
            match course {
                Course::Refused => return Ok(false),
                Course::Calm => {}
                Course::Rises(_) => forget(spared, true),
            }
        }
    }
    Err(NoMemory)
}

/// Whether frames are found among which those are that stand in a table, which stay as they are.
fn least_around<'f>(
    alloc: Global,
    method: &Method<'_, 'f>,
    table: &mut [Option<PlaceFrame<'f>>],
) -> Result<bool, NoMemory>
    requires { length (code_in method.now).code ≤ 65535 }
    ensures { IfOk result (λ found. (start : Given) (first : KFrame) →
        IsToldOf method.now start → frame_at (table_of table.old) 0 ≡ Some first →
        Kept (exc_of method.now) (act_in method.now) (handler_in method.now)
        (code_in method.now) (frame_at (table_of table.old)) (table_of table.old) →
        Settles (exc_of method.now) (act_in method.now) (handler_in method.now)
        (code_in method.now) (frame_at (table_of table.old)) found) }
{
    let marks = standing(alloc, table)?;
    let fixed = marks.as_slice();
    let told = Method {
        linked: method.linked,
        class: method.class,
        code: method.code,
        gives: method.gives,
        exceptions: method.exceptions,
        starts: method.starts,
        fixed,
    };
    let found = least(alloc, &told, table)?;
    Ok(found)
}

/// Whether frames are found among which those are that are guessed.
fn is_guessed<'f>(
    alloc: Global,
    method: &Method<'_, 'f>,
    table: &[Option<PlaceFrame<'f>>],
) -> Result<bool, NoMemory>
    requires { length (code_in method.now).code ≤ 65535 }
    ensures { IfOk result (λ found. (start : Given) (first : KFrame) →
        IsToldOf method.now start → start 0 ≡ Some first →
        Kept (exc_of method.now) (act_in method.now) (handler_in method.now)
        (code_in method.now) start (table_of table.entry.now) → found ≡ true →
        Settles (exc_of method.now) (act_in method.now) (handler_in method.now)
        (code_in method.now) start true) }
{
    let guesses = guessed(alloc, method, table)?;
    if guesses.is_empty() {
        drop(guesses);
        return Ok(false);
    }
    let mut table = told(alloc, method, table, guesses)?;
    let found = least_around(alloc, method, table.as_mut_slice());
    drop(table);
    found
}

/// Goes through the code, with frames that are guessed where it goes back, or else until nothing
/// rises: whether frames are found.
pub fn passes<'f>(
    alloc: Global,
    method: &Method<'_, 'f>,
    table: &mut [Option<PlaceFrame<'f>>],
) -> Result<bool, NoMemory>
    requires { length (code_in method.now).code ≤ 65535 }
    ensures { IfOk result (λ found. (start : Given) (first : KFrame) →
        IsToldOf method.now start → start 0 ≡ Some first →
        Kept (exc_of method.now) (act_in method.now) (handler_in method.now)
        (code_in method.now) start (table_of table.old) →
        Settles (exc_of method.now) (act_in method.now) (handler_in method.now)
        (code_in method.now) start found) }
{
    if is_guessed(alloc, method, table)? {
        return Ok(true);
    }
    least(alloc, method, table)
}
