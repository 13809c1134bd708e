//! Frames of loaded class files.

ghost use Rattle.par_verified_file_laws.specs.FitLaws.{LoadedMethodsFit};

/// Some frames fit each method with code of the class files that are loaded for a well-typed
/// program. Those that are written of it are a part of these.
pub fn loaded_methods_fit()
    ensures { LoadedMethodsFit }
{}
