//! Whether frames fit one method.

ghost use Rattle.std.specs.Prelude.{◌≡◌, ◌≤◌, ◌<◌, ℕ, Some, map, is_some, length, option_map, IfOk};
ghost use Rattle.par_single.specs.Descriptors.{kind_of};
ghost use Rattle.par_kinds.specs.Kinds.{KFrame};
ghost use Rattle.par_kinds.specs.Linked.{caught_kind};
ghost use Rattle.par_kinds.specs.Shapes as shapes;
ghost use Rattle.par_kinds.specs.Shapes.{shape_at};
ghost use Rattle.par_kinds.specs.Fits.{Given};
ghost use Rattle.par_verify_laws.specs.par_kinds.Passes.{begins_as, frame_at};
ghost use Rattle.par_verify_laws.specs.par_kinds.Passes.{least_from, start_table};
ghost use Rattle.par_frame_steps.specs.Marks.{names, frame_of};
ghost use Rattle.par_frame_passes.specs.par_frame_guesses.Methods.{exc_of, act_in, handler_in};
ghost use Rattle.par_frame_passes.specs.par_frame_guesses.Methods.{code_in, IsToldOf};
ghost use Rattle.par_frame_passes.specs.Tables.{table_of};
ghost use Rattle.par_verify.specs.Starts.{IsJudged};

use crate::sizes::are_sized;
use par_base::memory::NoMemory;
use par_class::file::CodeAttr;
use par_frame_guesses::kept;
use par_frame_passes::{Method, passes, put};
use par_frame_steps::PlaceFrame;
use par_link::Linked;
use par_single::descriptor::Said;
use par_starts::Starts;
use std::alloc::Global;

/// A method with code, and what is known of its file and of all.
#[derive(Clone, Copy)]
pub(crate) struct Site<'m, 'f> {
    pub(crate) linked: &'f Linked,
    pub(crate) class: u16,
    pub(crate) code: &'f CodeAttr,
    pub(crate) gives: Option<Said<'f>>,
    pub(crate) exceptions: &'m [&'f [u8]],
}

/// Of each offset whether the frame from which the passes start stays as it is.
fn fixed(alloc: Global, table: &[Option<PlaceFrame>]) -> Result<Vec<bool>, NoMemory>
    ensures { IfOk result (λ fixed. fixed.items ≡ map is_some (table_of table.now)) }
{
    let mut fixed = Vec::new(alloc);
    for frame in table {
        fixed.push(frame.is_some())?;
    }
    Ok(fixed)
}

/// Whether what a table tells of offset 0 is the frame of a call.
fn begins(exceptions: &[&[u8]], first: &PlaceFrame, table: &[Option<PlaceFrame>]) -> bool
    ensures { result ≡ begins_as (names exceptions.now) (frame_of first.now)
        (frame_at (table_of table.now) 0) }
{
    match kept(table, 0) {
        Some(told) => { told.fits_into(exceptions, first) && first.fits_into(exceptions, told) }
        None => true,
    }
}

/// Whether frames that fit are found from these.
fn settle<'f>(
    alloc: Global,
    method: &Method<'_, 'f>,
    table: &mut [Option<PlaceFrame<'f>>],
) -> Result<bool, NoMemory>
    requires small { length (code_in method.now).code ≤ 65535 }
    requires many { length table.old ≤ 65535 }
    ensures { IfOk result (λ found. (start : Given) (first : KFrame) →
        IsToldOf method.now start → start 0 ≡ Some first →
        ((at : ℕ) (k : KFrame) → start at ≡ Some k → at < length (code_in method.now).code) →
        table_of table.old ≡ start_table start 0 (code_in method.now).code →
        found ≡ is_some (least_from (exc_of method.now) (act_in method.now)
        (handler_in method.now) (code_in method.now) start (table_of table.old))) }
{
    if !are_sized(method, table) {
        return Ok(false);
    }
    passes(alloc, method, table)
}

/// Whether frames fit the code of a method that begins with this one, and are those that a table
/// tells. The frames that are found are put into the table.
pub(crate) fn judge<'f>(
    alloc: Global,
    site: Site<'_, 'f>,
    first: &PlaceFrame<'f>,
    told: &mut [Option<PlaceFrame<'f>>],
) -> Result<bool, NoMemory>
    requires small { length site.code.now.code ≤ 65535 }
    requires many { length told.old ≡ length site.code.now.code }
    ensures { IfOk result (IsJudged (names site.entry.exceptions.now)
        (shapes.act_of (option_map kind_of site.entry.gives)
        (shape_at site.entry.linked.now site.entry.class))
        (caught_kind site.entry.linked.now site.entry.class) site.entry.code.now
        (frame_of first.now) (table_of told.old)) }
{
    let code = site.code;
    let starts = Starts::of(alloc, code.code.as_slice())?;
    if !starts.has(0) || !begins(site.exceptions, first, told) {
        return Ok(false);
    }
    let frame = first.copied(alloc)?;
    put(told, 0, frame);
    let fixed = fixed(alloc, told)?;
    let method = Method {
        linked: site.linked,
        class: site.class,
        code,
        gives: site.gives,
        exceptions: site.exceptions,
        starts: &starts,
        fixed: fixed.as_slice(),
    };
    settle(alloc, &method, told)
}
