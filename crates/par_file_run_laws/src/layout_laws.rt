// The laws of loaded class files. Nothing runs here: the contracts are laws.
ghost use Rattle.par_file_run_laws.specs.LayoutLaws.{NamesAreLaidOut, InitializersStand};
ghost use Rattle.par_file_run_laws.specs.LayoutLaws.{FilesAreLaidOut};
ghost use Rattle.par_file_run_laws.specs.LayoutLaws.{StatesBeginAlike, CodeIsPlaced};
ghost use Rattle.par_file_run_laws.specs.LayoutLaws.{ProgramsBeginAtMain};

/// What the names of a program's code are to an instruction of its loaded files is what the program
/// says: classes, fields, channels, methods, initializers and locks, each of them apart from all
/// others.
pub fn names_are_laid_out()
    ensures { NamesAreLaidOut }
{}

/// Each loaded class has the initializer that makes its objects, which calls that of the class
/// above.
pub fn initializers_stand()
    ensures { InitializersStand }
{}

/// Each method of a loaded class has the code of its body, each class and member that the body
/// names is laid out too, and no other code has handlers.
pub fn files_are_laid_out()
    ensures { FilesAreLaidOut }
{}

/// Before the first instruction the static fields, the objects, the locks and the inputs of the
/// machine are those of the program.
pub fn states_begin_alike()
    ensures { StatesBeginAlike }
{}

/// The code of each method stands in its file at offsets as its labelled code.
pub fn code_is_placed()
    ensures { CodeIsPlaced }
{}

/// The method that a machine finds to begin with is the one where the program begins.
pub fn programs_begin_at_main()
    ensures { ProgramsBeginAtMain }
{}
