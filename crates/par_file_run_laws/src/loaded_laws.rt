// The laws of loaded files. Nothing runs here: the contracts are laws.
ghost use Rattle.par_file_run_laws.specs.LoadedLaws.{LoadedFilesAreKnown, ErasedTablesHaveKinds};

/// The files that are loaded for a program which links are such as a layout asks for: each of a
/// declared class, closed under what their constants name, and linked.
pub fn loaded_files_are_known()
    ensures { LoadedFilesAreKnown }
{}

/// What a layout asks of a table beside what lets its files link holds of the erased table of a
/// well-typed program.
pub fn erased_tables_have_kinds()
    ensures { ErasedTablesHaveKinds }
{}
