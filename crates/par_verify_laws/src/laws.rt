ghost use Rattle.par_verify_laws.specs.Laws.{VerifiedProgramsAreNeverBad};

/// The verified files of a program never come to bad code, whatever the inputs and the bound on
/// instructions.
pub fn verified_programs_are_never_bad()
    ensures { VerifiedProgramsAreNeverBad }
{}
