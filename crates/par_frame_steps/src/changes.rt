//! A frame that is changed where it stands.

ghost use Rattle.std.specs.Prelude.{◌≡◌, ◌∷◌, ◌++◌, drop, slice_set, replicate, IfOk};
ghost use Rattle.par_frame_steps.specs.Marks.{kind_of, kinds_of, frame_of};
ghost use Rattle.par_place_kinds.specs.Listed.{with_place};
ghost use Rattle.par_place_kinds.specs.declared.kind.PlaceKind.TheVariants as place;

use crate::frame::PlaceFrame;
use crate::pile::Pile;
use par_base::memory::NoMemory;
use par_place_kinds::PlaceKind;
use std::alloc::Global;

/// Lists so many kinds more, each of which holds anything.
#[tactic(auto, using(crate::proofs::Parts::tops_more))]
fn list(alloc: Global, kinds: &mut Pile, rest: usize) -> Result<(), NoMemory>
    ensures { IfOk result (λ done. kinds.new ≡ kinds.old ++ replicate rest place.Top) }
{
    for _kind in 0..rest {
        kinds.push(alloc, PlaceKind::Top)?;
    }
    Ok(())
}

/// Sets the kind of a place, where those before it are listed.
#[tactic(auto, using(crate::proofs::Padded::listed_set))]
fn set_kind<'f>(
    alloc: Global,
    kinds: &mut Pile<'f>,
    local: u8,
    kind: PlaceKind<'f>,
) -> Result<(), NoMemory>
    ensures { IfOk result (λ done. kinds_of kinds.new
        ≡ with_place (kinds_of kinds.old) local (kind_of kind.entry)) }
{
    let rest = (local as usize + 1).saturating_sub(kinds.len());
    list(alloc, kinds, rest)?;
    kinds.set(alloc, local, kind)
}

impl<'f> PlaceFrame<'f> {
    /// Pushes an operand.
    #[tactic(auto, using(crate::proofs::Turned::last_first))]
    pub fn push(&mut self, alloc: Global, kind: PlaceKind<'f>) -> Result<(), NoMemory>
        ensures { IfOk result (λ done. frame_of self.new ≡ record {
          locals = (frame_of self.old).locals;
          stack = kind_of kind.entry ∷ (frame_of self.old).stack;
        }) }
    {
        self.stack.push(alloc, kind)
    }

    /// Takes so many operands, all where there are fewer.
    #[tactic(auto, using(crate::proofs::Turned::turned_take))]
    pub fn take(&mut self, alloc: Global, many: usize) -> Result<(), NoMemory>
        ensures { IfOk result (λ done. frame_of self.new ≡ record {
          locals = (frame_of self.old).locals;
          stack = drop many (frame_of self.old).stack;
        }) }
    {
        self.stack.take(alloc, many)
    }

    /// Sets a local, where there is such a one.
    #[tactic(auto, using(crate::proofs::Padded::padded_set, crate::proofs::Padded::padded_past))]
    pub fn set(&mut self, alloc: Global, local: u8, kind: PlaceKind<'f>) -> Result<(), NoMemory>
        ensures { IfOk result (λ done. frame_of self.new ≡ record {
          locals = slice_set (frame_of self.old).locals local (kind_of kind.entry);
          stack = (frame_of self.old).stack;
        }) }
    {
        if local as usize >= self.places() {
            return Ok(());
        }
        set_kind(alloc, &mut self.locals, local, kind)
    }
}
