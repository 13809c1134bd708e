// The laws that a machine of class files is the engine. Nothing runs here: the contracts are laws.
ghost use Rattle.par_match_laws.specs.EngineLaws.{SameTurns, SameRuns};

/// One instruction of linked class files is one of the program that they are.
pub fn files_turn_as_a_program()
    ensures { SameTurns }
{}

/// A run of linked class files is that of the program that they are, for each bound on
/// instructions.
pub fn files_run_as_a_program()
    ensures { SameRuns }
{}
