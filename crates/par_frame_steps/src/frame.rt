//! Frames of kinds.

ghost use Rattle.std.specs.Prelude.{◌≡◌, IsTrue, IfOk, length};
ghost use Rattle.par_kinds.specs.Passes.{all_into, merge_all, frame_into, merge_frames};
ghost use Rattle.par_kinds.specs.Passes.{same_lengths};
ghost use Rattle.par_frame_steps.specs.Marks.{names, kinds_of, operands_of, locals_of};
ghost use Rattle.par_frame_steps.specs.Marks.{frame_of};

use crate::merges::Merges;
use crate::pile::Pile;
use par_base::memory::NoMemory;
use std::alloc::Global;

/// What locals and operands hold; the operand that was pushed last stands last. Locals that are not
/// listed hold anything, so that a frame takes no memory for them.
pub struct PlaceFrame<'f> {
    /// How many locals there are, where no more are listed.
    pub many: usize,
    pub locals: Pile<'f>,
    pub stack: Pile<'f>,
}

// Written out, so that what owns a frame is proved without its parts.
impl Drop for PlaceFrame<'_> {
    fn drop(self) {
        let PlaceFrame {
            many: _,
            locals: _,
            stack: _,
        } = self;
    }
}

impl<'f> PlaceFrame<'f> {
    /// How many locals there are.
    #[tactic(auto, using(crate::proofs::Padded::padded_length))]
    pub fn places(&self) -> usize
        ensures { result ≡ length (frame_of self.now).locals }
    {
        let listed = self.locals.len();
        if self.many < listed {
            return listed;
        }
        self.many
    }

    /// Whether its locals fit into those of another.
    #[tactic(auto, using(crate::proofs::Padded::padded_into, crate::proofs::Padded::padded_differ))]
    pub fn locals_fit_into(&self, exceptions: &[&[u8]], other: &PlaceFrame) -> bool
        ensures { result
            ≡ all_into (names exceptions.now) (locals_of self.now) (locals_of other.now) }
    {
        if self.places() != other.places() {
            return false;
        }
        self.locals.listed_into(exceptions, &other.locals)
    }

    /// How many operands there are.
    #[tactic(auto, using(crate::proofs::Turned::operands_many))]
    pub fn operands(&self) -> usize
        ensures { result ≡ length (frame_of self.now).stack }
    {
        self.stack.len()
    }

    /// Whether it fits into another.
    pub fn fits_into(&self, exceptions: &[&[u8]], other: &PlaceFrame) -> bool
        ensures { result
            ≡ frame_into (names exceptions.now) (frame_of self.now) (frame_of other.now) }
    {
        self.locals_fit_into(exceptions, other) && self.operands_fit_into(exceptions, other)
    }

    /// Whether its operands fit into those of another.
    #[tactic(auto, using(crate::proofs::Turned::turned_into))]
    pub fn operands_fit_into(&self, exceptions: &[&[u8]], other: &PlaceFrame) -> bool
        ensures { result ≡ all_into (names exceptions.now) (frame_of self.now).stack
            (frame_of other.now).stack }
    {
        self.stack.fits_into(exceptions, &other.stack)
    }

    /// Whether it fits into another. Operands that were seen to fit a short while ago are found
    /// there.
    pub fn fits(
        &self,
        alloc: Global,
        merges: &mut Merges<'f>,
        exceptions: &[&[u8]],
        other: &PlaceFrame<'f>,
    ) -> Result<bool, NoMemory>
        ensures { IfOk result (λ fits. fits
            ≡ frame_into (names exceptions.now) (frame_of self.now) (frame_of other.now)) }
    {
        if !self.locals_fit_into(exceptions, other) {
            return Ok(false);
        }
        self.operands_fit(alloc, merges, exceptions, other)
    }

    /// Whether its operands fit into those of another.
    fn operands_fit(
        &self,
        alloc: Global,
        merges: &mut Merges<'f>,
        exceptions: &[&[u8]],
        other: &PlaceFrame<'f>,
    ) -> Result<bool, NoMemory>
        ensures { IfOk result (λ fits. fits ≡ all_into (names exceptions.now)
            (frame_of self.now).stack (frame_of other.now).stack) }
    {
        self.stack.fits(alloc, merges, exceptions, &other.stack)
    }

    /// Whether another has as many locals and operands.
    pub fn has_lengths_of(&self, other: &PlaceFrame) -> bool
        ensures { result ≡ same_lengths (frame_of self.now) (frame_of other.now) }
    {
        self.places() == other.places() && self.operands() == other.operands()
    }

    /// The least kinds into which the operands of both fit, of as many.
    fn merged_operands(
        &self,
        alloc: Global,
        merges: &mut Merges<'f>,
        exceptions: &[&[u8]],
        other: &PlaceFrame<'f>,
    ) -> Result<Pile<'f>, NoMemory>
        requires { length (frame_of self.now).stack ≡ length (frame_of other.now).stack }
        ensures { IfOk result (λ pile. operands_of pile
            ≡ merge_all (names exceptions.now) (frame_of self.now).stack
            (frame_of other.now).stack) }
    {
        self.stack.merged(alloc, merges, exceptions, &other.stack)
    }

    /// The least kinds into which the locals of both fit, of each that both list.
    fn merged_locals(
        &self,
        alloc: Global,
        merges: &mut Merges<'f>,
        exceptions: &[&[u8]],
        other: &PlaceFrame<'f>,
    ) -> Result<Pile<'f>, NoMemory>
        ensures { IfOk result (λ pile. kinds_of pile ≡ merge_all (names exceptions.now)
            (kinds_of self.now.locals) (kinds_of other.now.locals)) }
    {
        if self.locals.len() == other.locals.len() {
            return self.locals.merged(alloc, merges, exceptions, &other.locals);
        }
        self.locals
            .listed_merged(alloc, merges, exceptions, &other.locals)
    }

    /// The least frame into which both fit, where both have as many locals and operands.
    #[tactic(auto, using(crate::proofs::Padded::padded_merged))]
    pub fn merged(
        &self,
        alloc: Global,
        merges: &mut Merges<'f>,
        exceptions: &[&[u8]],
        other: &PlaceFrame<'f>,
    ) -> Result<PlaceFrame<'f>, NoMemory>
        requires { IsTrue (same_lengths (frame_of self.now) (frame_of other.now)) }
        ensures { IfOk result (λ frame. frame_of frame
            ≡ merge_frames (names exceptions.now) (frame_of self.now) (frame_of other.now)) }
    {
        Ok(PlaceFrame {
            many: self.places(),
            locals: self.merged_locals(alloc, merges, exceptions, other)?,
            stack: self.merged_operands(alloc, merges, exceptions, other)?,
        })
    }

    /// A copy.
    pub fn copied(&self, alloc: Global) -> Result<PlaceFrame<'f>, NoMemory>
        ensures { IfOk result (λ frame. frame_of frame ≡ frame_of self.now) }
    {
        Ok(PlaceFrame {
            many: self.many,
            locals: self.locals.copied(alloc)?,
            stack: self.stack.copied(alloc)?,
        })
    }
}
