// The law that labelled code runs as its program. Nothing runs here: the contract is a law.
ghost use Rattle.par_code_laws.specs.Laws.{LabelledCodeShows};

/// Labelled code of typed bodies shows the run of these bodies, for all forms of the language: each
/// run of the program is reached within sixteen instructions a step, each run of the code is a
/// front of one of the program, and no code is bad. What names and numbers are to the code is left
/// open, but for what the law asks of them.
pub fn labelled_code_shows()
    ensures { LabelledCodeShows }
{}
