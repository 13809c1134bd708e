//! A frame that is changed where it stands.

ghost use Rattle.std.specs.Prelude.{◌≡◌, length, drop, IfOk};
ghost use Rattle.par_kinds.specs.Acts.{left_by};
ghost use Rattle.par_frame_steps.specs.Marks.{frame_of};
ghost use Rattle.par_frame_moves.specs.Briefs.{takes_of, act_of};

use crate::brief::{Brief, Takes, Work};
use par_base::memory::NoMemory;
use par_frame_steps::{PlaceFrame, PlaceKind};
use std::alloc::Global;

/// Takes operands.
fn take(alloc: Global, frame: &mut PlaceFrame, takes: Takes) -> Result<(), NoMemory>
    ensures { IfOk result (λ done. frame_of frame.new ≡ record {
      locals = (frame_of frame.old).locals;
      stack = drop (length (takes_of takes)) (frame_of frame.old).stack;
    }) }
{
    match takes {
        Takes::Nothing => Ok(()),
        Takes::One(_) => frame.take(alloc, 1),
        Takes::Two(_) => frame.take(alloc, 2),
    }
}

impl Brief {
    /// Makes of a frame what the instruction leaves of it.
    #[tactic(auto, unfolding(par_kinds::specs::Acts::left_by))]
    pub fn leave(&self, alloc: Global, frame: &mut PlaceFrame) -> Result<(), NoMemory>
        ensures { IfOk result (λ done. frame_of frame.new ≡ left_by (act_of self.now).leaves
            (length (act_of self.now).takes) (frame_of frame.old)) }
    {
        let top = frame.operand();
        take(alloc, frame, self.takes)?;
        match self.work {
            Work::Nothing => Ok(()),
            Work::PushNumber => frame.push(alloc, PlaceKind::Int),
            Work::PushNull => frame.push(alloc, PlaceKind::Null),
            Work::Load(x, _) => {
                let kind = frame.local(x);
                frame.push(alloc, kind)
            }
            Work::Increase(_) => Ok(()),
            Work::Copy => {
                frame.push(alloc, top)?;
                frame.push(alloc, top)
            }
            Work::Store(x) => frame.set(alloc, x, top),
        }
    }
}
