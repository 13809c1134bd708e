//! Class files of programs and verification.

ghost use Rattle.par_verified_file_laws.specs.Laws.{AllFilesAreVerified, LoadedFilesAreVerified};

/// Each method with code of the class files that are loaded for a well-typed program is verified,
/// with the frames that the files tell of it.
pub fn loaded_files_are_verified()
    ensures { LoadedFilesAreVerified }
{}

/// So is each method with code of all its class files, also of those that are never loaded since
/// nothing that is reached from `main` names their classes.
pub fn all_files_are_verified()
    ensures { AllFilesAreVerified }
{}
