ghost use Rattle.par_kinds.specs.Laws.{FramesAsToldAreLeast, LeastFramesAreLeast};
ghost use Rattle.par_kinds.specs.Laws.{MergesAreLeast};

/// The merge of two kinds is the least into which both fit.
pub fn merges_are_least()
    ensures { MergesAreLeast }
{}

/// The passes find the least frames of a method, and nothing exactly where none fit.
pub fn least_frames_are_least()
    ensures { LeastFramesAreLeast }
{}

/// The same of frames of which some are told: those stay as they are told.
pub fn frames_as_told_are_least()
    ensures { FramesAsToldAreLeast }
{}
