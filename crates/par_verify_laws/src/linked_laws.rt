ghost use Rattle.par_verify_laws.specs.LinkedLaws.{LinkedFilesAreRight, TextsTellActs};
ghost use Rattle.par_verify_laws.specs.LinkedLaws.{MainsAreRight};
ghost use Rattle.par_verify_laws.specs.LinkedLaws.{TextsTellHandlers};
ghost use Rattle.par_verify_laws.specs.LinkedLaws.{FramesKeepFromBadCode};
ghost use Rattle.par_verify_laws.specs.LinkedLaws.{FramesKeepProgramsFromBadCode};

/// The links of linked files whose methods have code say what is so.
pub fn linked_files_are_right()
    ensures { LinkedFilesAreRight }
{}

/// What an instruction asks of a frame and leaves is what the texts of its constant pool say.
pub fn texts_tell_acts()
    ensures { TextsTellActs }
{}

/// What a handler takes is what the text of its class says.
pub fn texts_tell_handlers()
    ensures { TextsTellHandlers }
{}

/// Where a class has a static method `main` without arguments and result, runs begin in it.
pub fn mains_are_right()
    ensures { MainsAreRight }
{}

/// Files that link, of whose methods frames fit, never come to bad code, whatever the inputs and
/// the bound on instructions.
pub fn frames_keep_from_bad_code()
    ensures { FramesKeepFromBadCode }
{}

/// The same of the files that are loaded for a program.
pub fn frames_keep_programs_from_bad_code()
    ensures { FramesKeepProgramsFromBadCode }
{}
