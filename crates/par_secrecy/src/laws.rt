// The laws of inputs that an observer cannot tell apart, and of inputs that fit files. Nothing runs
// here: each contract is a law.
ghost use Rattle.par_secrecy.specs.Laws.{AlikeIsReflexive, AlikeIsSymmetric, AlikeIsTransitive};
ghost use Rattle.par_secrecy.specs.Laws.{FittingGivesTheSame};

/// No observer tells inputs from themselves.
pub fn alike_is_reflexive()
    ensures { AlikeIsReflexive }
{}

/// Who cannot tell the first inputs from the second cannot tell the second from the first.
pub fn alike_is_symmetric()
    ensures { AlikeIsSymmetric }
{}

/// Who can tell neither apart from a third cannot tell the two apart.
pub fn alike_is_transitive()
    ensures { AlikeIsTransitive }
{}

/// Lines of channels that files do not have take nothing from the channels that they have.
pub fn fitting_gives_the_same()
    ensures { FittingGivesTheSame }
{}
