ghost use Rattle.par_placed_run_laws.specs.Laid.{PlacedCodeRuns};
ghost use Rattle.par_placed_run_laws.specs.Made.{HandlersNameMade, PlacedCodeIsLaid};

/// The law that class files run from `main` as their labelled code does, for each number of
/// instructions, where the labelled code never is bad code.
pub fn placed_code_runs_as_labelled()
    ensures { PlacedCodeRuns }
{}

/// The law of the classes that linked class files name, where they have simple names in programs:
/// objects are made of each. So nothing more is asked of handlers in placed code.
pub fn handlers_name_made_classes()
    ensures made { HandlersNameMade }
    ensures laid { PlacedCodeIsLaid }
{}
