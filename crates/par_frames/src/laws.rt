ghost use Rattle.par_frames.specs.Laws.{WrittenKindsAreRead};

/// What kinds are written as is read as these kinds again.
pub fn written_kinds_are_read()
    ensures { WrittenKindsAreRead }
{}
