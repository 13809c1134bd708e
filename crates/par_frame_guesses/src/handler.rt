//! Where handlers are.

ghost use Rattle.std.specs.Prelude.{◌≡◌};
ghost use Rattle.par_frame_steps.specs.par_kinds.Fits.{around};

use par_class::file::Catch;

/// Whether a handler is around an offset.
pub fn is_around(at: u32, catch: &Catch) -> bool
    ensures { result ≡ around at catch.now }
{
    u32::from(catch.start) <= at && at < u32::from(catch.end)
}
