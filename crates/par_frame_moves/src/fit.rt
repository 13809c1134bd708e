//! Whether an instruction can be run on every frame of some kinds.

ghost use Rattle.std.specs.Prelude.{◌≡◌, drop, List as Items};
ghost use Rattle.par_values.specs.Areas.{Name};
ghost use Rattle.par_kinds.specs.Kinds.{accepts};
ghost use Rattle.par_frame_steps.specs.par_kinds.Passes.{takes_fit, also_fits, act_fits};
ghost use Rattle.par_frame_steps.specs.Marks.{kind_of, operands_of, frame_of};
ghost use Rattle.par_frame_moves.specs.declared.brief.Takes.TheVariants as takes;
ghost use Rattle.par_frame_moves.specs.Briefs.{want_of, takes_of, also_of, act_of};

use crate::brief::{Brief, Takes, Want, Work};
use par_frame_steps::{Pile, PlaceFrame, PlaceKind};

impl Want {
    /// Whether each value of a kind is one that is asked for.
    #[tactic(auto, unfolding(par_kinds::specs::Kinds::accepts))]
    fn accepts(self, kind: PlaceKind) -> bool
        ensures { result ≡ accepts (want_of self) (kind_of kind.entry) }
    {
        match self {
            Want::Number => kind.is_int(),
            Want::Reference => kind.is_reference(),
            Want::Anything => true,
        }
    }
}

/// Whether the operand that stands so far below the one that was pushed last is of a kind.
fn one_fits(want: Want, stack: &Pile, depth: usize) -> bool
    ensures { result ≡ takes_fit (takes_of (takes.One want)) (drop depth (operands_of stack.now)) }
{
    match stack.below(depth) {
        Some(kind) => want.accepts(kind),
        None => false,
    }
}

/// Whether the two operands that were pushed last are.
fn two_fit(want: Want, stack: &Pile) -> bool
    ensures { result ≡ takes_fit (takes_of (takes.Two want)) (operands_of stack.now) }
{
    one_fits(want, stack, 0) && one_fits(want, stack, 1)
}

impl Takes {
    /// Whether operands of these kinds can be taken.
    fn fits(self, stack: &Pile) -> bool
        ensures { result ≡ takes_fit (takes_of self) (operands_of stack.now) }
    {
        match self {
            Takes::Nothing => true,
            Takes::One(want) => one_fits(want, stack, 0),
            Takes::Two(want) => two_fit(want, stack),
        }
    }
}

impl Work {
    /// Whether a frame has what is asked beside.
    fn fits(self, frame: &PlaceFrame) -> bool
        ensures { (exceptions : Items Name) →
            result ≡ also_fits exceptions (also_of self) (frame_of frame.now) }
    {
        match self {
            Work::Load(x, want) => want.accepts(frame.local(x)),
            Work::Increase(x) => frame.local(x).is_int(),
            Work::Store(x) => (x as usize) < frame.places(),
            _ => true,
        }
    }
}

impl Brief {
    /// Whether the instruction can be run on every frame of these kinds.
    pub fn fits(&self, frame: &PlaceFrame) -> bool
        ensures { (exceptions : Items Name) →
            result ≡ act_fits exceptions (act_of self.now) (frame_of frame.now) }
    {
        self.takes.fits(&frame.stack) && self.work.fits(frame)
    }
}
