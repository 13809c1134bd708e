// The laws of frames at labels. Nothing runs here: the contracts are laws.
ghost use Rattle.par_framed_file_laws.specs.NeededLaws.{BodiesHaveFrames, PlacedCodeIsFramed};

/// The code of a body whose statements are all reached has a frame at each label that needs one.
pub fn bodies_have_frames()
    ensures { BodiesHaveFrames }
{}

/// The frames of such code, where it is placed, stand at instructions and at each offset that needs
/// one.
pub fn placed_code_is_framed()
    ensures { PlacedCodeIsFramed }
{}
