ghost use Rattle.par_verify_laws.specs.SoundLaws.{StatesStayFit, FittingFilesAreNeverBad};

/// Where frames fit all methods and a state fits them, its next instruction is run, and what it
/// leaves fits.
pub fn states_stay_fit()
    ensures { StatesStayFit }
{}

/// A run of files whose methods' frames fit never comes to bad code, whatever the inputs and the
/// bound on instructions.
pub fn fitting_files_are_never_bad()
    ensures { FittingFilesAreNeverBad }
{}
