//! The frame that an instruction leaves.

ghost use Rattle.std.specs.Prelude.{◌≡◌, ◌++◌, length, IfOk};
ghost use Rattle.par_kinds.specs.Acts.{left_by};
ghost use Rattle.par_frame_steps.specs.Marks.{frame_of, given, leaves_of, act_of};

use crate::act::{Act, Leaves};
use crate::frame::PlaceFrame;
use par_base::memory::NoMemory;
use par_place_kinds::PlaceKind;
use std::alloc::Global;

/// Pushes an operand, where it is something.
fn give<'f>(
    alloc: Global,
    frame: &mut PlaceFrame<'f>,
    kind: Option<PlaceKind<'f>>,
) -> Result<(), NoMemory>
    ensures { IfOk result (λ done. frame_of frame.new ≡ record {
      locals = (frame_of frame.old).locals;
      stack = given kind.entry ++ (frame_of frame.old).stack;
    }) }
{
    match kind {
        Some(kind) => frame.push(alloc, kind),
        None => Ok(()),
    }
}

/// Makes of a frame, of which so many operands are taken, what is left of it.
#[tactic(auto, unfolding(par_kinds::specs::Acts::left_by))]
fn leave_by<'f>(
    alloc: Global,
    leaves: Leaves<'f>,
    many: usize,
    frame: &mut PlaceFrame<'f>,
) -> Result<(), NoMemory>
    ensures { IfOk result (λ done.
        frame_of frame.new ≡ left_by (leaves_of leaves.entry) many (frame_of frame.old)) }
{
    let top = frame.operand();
    frame.take(alloc, many)?;
    match leaves {
        Leaves::Gives(kind) => give(alloc, frame, kind),
        Leaves::Loads(local) => {
            let kind = frame.local(local);
            frame.push(alloc, kind)
        }
        Leaves::Copies => {
            frame.push(alloc, top)?;
            frame.push(alloc, top)
        }
        Leaves::Stores(local) => frame.set(alloc, local, top),
    }
}

impl<'f> Act<'f> {
    /// Makes of a frame what the instruction leaves of it. After want of memory nothing is told of
    /// the frame.
    pub fn leave(&self, alloc: Global, frame: &mut PlaceFrame<'f>) -> Result<(), NoMemory>
        ensures { IfOk result (λ done. frame_of frame.new ≡ left_by (act_of self.now).leaves
            (length (act_of self.now).takes) (frame_of frame.old)) }
    {
        leave_by(alloc, self.leaves, self.takes.len(), frame)
    }
}
