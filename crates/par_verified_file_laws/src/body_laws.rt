//! Frames of kinds and labelled code.

ghost use Rattle.par_verified_file_laws.specs.BodyLaws.{TypedCodeFits};

/// Frames fit the labelled code of each typed body. Where a local is in scope they have its
/// declared type, and of operands their types; at the labels that the code says to have frames they
/// are those. Control comes to each instruction that is written.
pub fn typed_code_fits()
    ensures { TypedCodeFits }
{}
