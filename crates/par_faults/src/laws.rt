//! A law on where rules on names and limits are broken.

ghost use Rattle.par_faults.specs.Places.{FaultsLieWithin};

/// No rule on names and no limit is broken behind the last place of the tree.
pub fn faults_lie_within()
    ensures { FaultsLieWithin }
{}
