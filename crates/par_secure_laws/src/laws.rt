//! The laws of two runs. Nothing runs here: each contract is a law.

ghost use Rattle.par_secure_laws.specs.Laws.{AcceptedProgramsAreSecure, DifferencesAreExplained};

/// Where an observer of an accepted program is shown equal events up to some place and different
/// ones there, a node under a rule on releases explains it. The observer sees the policy of the
/// target and does not see the value, and the locks of the node are open at both events.
pub fn differences_are_explained()
    ensures { DifferencesAreExplained }
{}

/// An accepted program is secure: for an observer with a declared actor, for two inputs that it
/// cannot tell apart and for any two bounds, the next events that it is shown are equal as long as
/// those before them are and the open locks are its own.
pub fn accepted_programs_are_secure()
    ensures { AcceptedProgramsAreSecure }
{}
