//! Frames of placed code.

ghost use Rattle.par_placed_fit_laws.specs.Laws.{PlacedCodeFits, WrittenFramesAreGiven};

/// Where frames fit labelled code, they fit it in a class file, each at the offset of its
/// instruction, whatever stands for the items in the constant pool.
pub fn placed_code_fits()
    ensures { PlacedCodeFits }
{}

/// The frames that stand in a class file are a part of those: each is the one that is given for its
/// offset.
pub fn written_frames_are_given()
    ensures { WrittenFramesAreGiven }
{}
