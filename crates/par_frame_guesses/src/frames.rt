//! The frames that stand, by their offsets.

ghost use Rattle.std.specs.Prelude.{◌≡◌};
ghost use Rattle.std.specs.Option.{option_map};
ghost use Rattle.par_kinds.specs.Passes.{frame_at};
ghost use Rattle.par_frame_steps.specs.Marks.{frame_of};
ghost use Rattle.par_frame_guesses.specs.Frames.{table_of};

use par_frame_steps::PlaceFrame;

/// The frame of an offset, if one stands there.
#[tactic(auto, unfolding(par_kinds::specs::Passes::frame_at))]
pub fn kept<'t, 'f>(table: &'t [Option<PlaceFrame<'f>>], at: usize) -> Option<&'t PlaceFrame<'f>>
    ensures { option_map (λ frame. frame_of frame.now) result
        ≡ frame_at (table_of table.entry.now) at }
{
    match table.get(at) {
        Some(Some(frame)) => Some(frame),
        _ => None,
    }
}
