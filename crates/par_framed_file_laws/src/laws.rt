// The law of frames in class files. Nothing runs here: the contract is a law.
ghost use Rattle.par_framed_file_laws.specs.Laws.{LoadedFilesAreFramed};

/// What is loaded of a well-typed program has frames, where each of the files is of its version.
pub fn loaded_files_are_framed()
    ensures { LoadedFilesAreFramed }
{}
