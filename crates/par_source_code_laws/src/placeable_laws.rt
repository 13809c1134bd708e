//! The laws of labelled code.

ghost use Rattle.par_source_code_laws.specs.PlaceableLaws.{LabelledCodeIsPlaceable, WordsAreTexts};
ghost use Rattle.par_source_code_laws.specs.PlaceableLaws.{FramesNameClasses};

/// The code of each well-typed body, without its policies, can be placed where all names are texts
/// of a pool: its items and handlers fit, each label that it uses stands once, and it has at most
/// 32,016 bytes. Each of its frames stands at a label with an instruction behind it, no two at one
/// label, and within the locals and operands of the method. It needs at most eight entries of a
/// pool for each node of the body.
pub fn labelled_code_is_placeable()
    ensures { LabelledCodeIsPlaceable }
{}

/// Names of classes and members, and descriptors of methods with at most 16 parameters, are texts
/// that a pool can have.
pub fn words_are_texts()
    ensures { WordsAreTexts }
{}

/// Each class that a frame of a well-typed body names is one of the table's.
pub fn frames_name_classes()
    ensures { FramesNameClasses }
{}
