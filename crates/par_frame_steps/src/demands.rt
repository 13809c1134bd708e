//! Whether an instruction can be run on every frame of some kinds.

ghost use Rattle.std.specs.Prelude.{◌≡◌, [], ◌∷◌, drop, map};
ghost use Rattle.par_kinds.specs.Kinds.{accepts, kind_at};
ghost use Rattle.par_kinds.specs.Passes.{takes_fit, also_fits, act_fits};
ghost use Rattle.par_frame_steps.specs.Marks.{names, kind_of, operands_of, frame_of};
ghost use Rattle.par_frame_steps.specs.Marks.{asked_of, also_of, act_of};

use crate::act::{Act, Also, Asked};
use crate::frame::PlaceFrame;
use crate::pile::Pile;
use par_place_kinds::PlaceKind;

impl Asked<'_> {
    /// Whether each value of a kind is one that is asked for.
    #[tactic(auto, unfolding(par_kinds::specs::Kinds::accepts))]
    pub fn accepts(self, kind: PlaceKind) -> bool
        ensures { result ≡ accepts (asked_of self.entry) (kind_of kind.entry) }
    {
        match self {
            Asked::Number => kind.is_int(),
            Asked::Object(name) => kind.is_of(name),
            Asked::AnyObject => kind.is_reference(),
            Asked::Anything => true,
        }
    }

    /// Whether the operand that stands so far below the one that was pushed last is asked for.
    fn accepts_below(self, stack: &Pile, depth: usize) -> bool
        ensures { result ≡ takes_fit (asked_of self.entry ∷ [])
            (drop depth (operands_of stack.now)) }
    {
        match stack.below(depth) {
            Some(kind) => self.accepts(kind),
            None => false,
        }
    }
}

impl<'f> PlaceFrame<'f> {
    /// The kind of a local.
    #[tactic(auto, using(crate::proofs::Padded::padded_at))]
    pub fn local(&self, local: u8) -> PlaceKind<'f>
        ensures { kind_of result ≡ kind_at (frame_of self.now).locals local }
    {
        self.locals.kind_at(local as usize)
    }

    /// The kind of the operand that was pushed last.
    pub fn operand(&self) -> PlaceKind<'f>
        ensures { kind_of result ≡ kind_at (frame_of self.now).stack 0 }
    {
        match self.stack.below(0) {
            Some(kind) => kind,
            None => PlaceKind::Top,
        }
    }
}

/// Whether operands of these kinds can be taken, of which the last pushed stands last.
fn takes_fit(takes: &[Asked], stack: &Pile) -> bool
    ensures { result ≡ takes_fit (map asked_of takes.now) (operands_of stack.now) }
{
    for (depth, asked) in takes.iter().enumerate() {
        if !asked.accepts_below(stack, depth) {
            return false;
        }
    }
    true
}

impl Also<'_> {
    /// Whether a frame has what is asked beside.
    fn fits(self, exceptions: &[&[u8]], frame: &PlaceFrame) -> bool
        ensures { result
            ≡ also_fits (names exceptions.now) (also_of self.entry) (frame_of frame.now) }
    {
        match self {
            Also::Nothing => true,
            Also::Throwable => frame.operand().is_throwable(exceptions),
            Also::Exceptional => frame.operand().is_exceptional(exceptions),
            Also::Result(asked) => asked.accepts(frame.operand()),
            Also::Local(local, asked) => asked.accepts(frame.local(local)),
            Also::InRange(local) => (local as usize) < frame.places(),
        }
    }
}

impl Act<'_> {
    /// Whether the instruction can be run on every frame of these kinds.
    pub fn fits(&self, exceptions: &[&[u8]], frame: &PlaceFrame) -> bool
        ensures { result
            ≡ act_fits (names exceptions.now) (act_of self.now) (frame_of frame.now) }
    {
        !self.wrong && takes_fit(&self.takes, &frame.stack) && self.also.fits(exceptions, frame)
    }
}
