// The laws of programs that differ in places alone. Nothing runs here: the contracts are laws.
ghost use Rattle.par_placed_run_laws.specs.Relocated.{SameTurns, SameRuns};

/// One instruction is the same wherever it stands, but for the places that it leads to.
pub fn places_do_not_matter()
    ensures { SameTurns }
{}

/// Runs that end without bad code are the same wherever instructions stand, for each bound on
/// instructions.
pub fn places_do_not_matter_to_runs()
    ensures { SameRuns }
{}
