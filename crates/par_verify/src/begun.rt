//! The frames from which the passes start.

ghost use Rattle.std.specs.Prelude.{◌≡◌, ◌<◌, ◌^◌, None, replicate, length};
ghost use Rattle.std.specs.Prelude.{IfOk, IfSome};
ghost use Rattle.par_verify_laws.specs.par_kinds.Passes.{start_table};
ghost use Rattle.par_frame_steps.specs.Marks.{kinds_of};
ghost use Rattle.par_frame_passes.specs.Tables.{table_of};
ghost use Rattle.par_given_frames.specs.par_frames.Given.{frames_said};
ghost use Rattle.par_verify.specs.Starts.{told_of};

use crate::told::{frame_said, locals_said};
use par_base::memory::NoMemory;
use par_class::file::CodeAttr;
use par_class::par_pool::constant::Constant;
use par_frame_forms::FrameForm;
use par_frame_passes::{Table, put};
use par_frame_steps::{Pile, PlaceFrame};
use par_given_frames::delta;
use std::alloc::Global;

/// No frame for any of so many offsets.
#[tactic(auto, using(crate::proofs::Starting::one_none))]
fn no_frames<'f>(alloc: Global, len: usize) -> Result<Table<'f>, NoMemory>
    ensures { IfOk result (λ table. table.items ≡ replicate len None) }
{
    let mut table = Vec::new(alloc);
    for _at in 0..len {
        table.push(None)?;
    }
    Ok(table)
}

/// Puts the frames that forms say of code into a table that has none, where the first form lists
/// its locals behind these.
fn tell_forms<'f>(
    alloc: Global,
    entries: &'f [Constant],
    code: &CodeAttr,
    start: &Pile<'f>,
    forms: &[FrameForm],
    table: &mut [Option<PlaceFrame<'f>>],
) -> Result<(), NoMemory>
    requires few { length forms.now < 2 ^ 16 }
    requires blank { table.old ≡ replicate (length code.now.code) None }
    ensures { IfOk result (λ done.
        IfSome (frames_said entries.entry.now 0 (kinds_of start.now) forms.now)
        (λ frames. table_of table.new
        ≡ start_table (told_of code.now.max_locals frames) 0 code.now.code)) }
{
    let copy = start.copied(alloc)?;
    let mut listed = copy;
    let mut from: u32 = 0;
    for form in forms {
        listed = locals_said(alloc, entries, listed, form)?;
        let frame = frame_said(alloc, entries, code.max_locals, &listed, form)?;
        let at = from + u32::from(delta(form));
        put(table, at as usize, frame);
        from = at + 1;
    }
    drop(listed);
    Ok(())
}

/// The frames that forms say of code, by its offsets, where the first form lists its locals behind
/// these. Frames share the locals that they list.
pub(crate) fn told_table<'f>(
    alloc: Global,
    entries: &'f [Constant],
    code: &CodeAttr,
    start: &Pile<'f>,
    forms: &[FrameForm],
) -> Result<Table<'f>, NoMemory>
    requires few { length forms.now < 2 ^ 16 }
    ensures many { IfOk result (λ table. length table.items ≡ length code.now.code) }
    ensures told { IfOk result (λ table.
        IfSome (frames_said entries.entry.now 0 (kinds_of start.now) forms.now)
        (λ frames. table_of table.items
        ≡ start_table (told_of code.now.max_locals frames) 0 code.now.code)) }
{
    let mut table = no_frames(alloc, code.code.len())?;
    match tell_forms(alloc, entries, code, start, forms, table.as_mut_slice()) {
        Ok(()) => Ok(table),
        Err(error) => {
            drop(table);
            Err(error)
        }
    }
}
