// The laws of the loaded class files of a program. Nothing runs here: the contracts are laws.
ghost use Rattle.par_file_run_laws.specs.Laws.{FilesShow, FilesShowWhole};

/// Whoever runs the class files that are loaded for a well-typed program, on inputs of that program
/// and for as long as he likes, meets the events of its source's run in their order, and never bad
/// code. Only the lines for input channels of loaded classes are handed to the machine; the program
/// reads no others.
pub fn files_show()
    ensures { FilesShow }
{}

/// A run that comes to its end within some steps is met whole by whoever allows 16 instructions for
/// each of these steps and 16 more.
pub fn files_show_whole()
    ensures { FilesShowWhole }
{}
