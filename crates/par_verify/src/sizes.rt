//! Whether the frames from which the passes start have their places.

ghost use Rattle.std.specs.Prelude.{◌≡◌, ◌≤◌, length};
ghost use Rattle.std.specs.Option.{option_map};
ghost use Rattle.par_kinds.specs.Fits.{Given};
ghost use Rattle.par_verify_laws.specs.par_kinds.Passes.{is_sized, are_sized};
ghost use Rattle.par_frame_steps.specs.Marks.{frame_of};
ghost use Rattle.par_frame_passes.specs.par_frame_guesses.Methods.{code_in, IsToldOf};
ghost use Rattle.par_frame_passes.specs.Tables.{table_of};
ghost use Rattle.par_verify.specs.Starts.{is_right};

use par_frame_passes::Method;
use par_frame_steps::PlaceFrame;

/// Whether a frame stands where an instruction does, and has the numbers of places that it needs.
fn is_sized(method: &Method, at: u32, frame: &PlaceFrame) -> bool
    ensures { (start : Given) → IsToldOf method.now start →
        result ≡ is_sized (code_in method.now) at (frame_of frame.now) }
{
    method.starts.has(at)
        && frame.places() == method.code.max_locals as usize
        && frame.operands() <= method.code.max_stack as usize
}

/// Whether the frame of an offset does, where it has one.
fn is_right(method: &Method, at: u32, frame: &Option<PlaceFrame>) -> bool
    ensures { (start : Given) → IsToldOf method.now start →
        result ≡ is_right (code_in method.now) at (option_map frame_of frame.now) }
{
    match frame {
        Some(frame) => is_sized(method, at, frame),
        None => true,
    }
}

/// Whether each frame that is there does.
pub(crate) fn are_sized(method: &Method, table: &[Option<PlaceFrame>]) -> bool
    requires { length table.now ≤ 65535 }
    ensures { (start : Given) → IsToldOf method.now start →
        result ≡ are_sized (code_in method.now) 0 (table_of table.now) }
{
    for at in 0..table.len() {
        if !is_right(method, at as u32, &table[at]) {
            return false;
        }
    }
    true
}
