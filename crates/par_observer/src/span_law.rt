//! Where the rules of a body are asked.

ghost use Rattle.par_observer.specs.SpanLaw.{ChecksLieWithin};

/// No check of a source's bodies stands behind the last place of its tree.
pub fn checks_lie_within()
    ensures { ChecksLieWithin }
{}
