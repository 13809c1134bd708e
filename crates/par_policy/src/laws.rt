// The laws of the order. Nothing runs here: each contract is a law.
ghost use Rattle.par_policy.specs.Laws.{OrderIsReflexive, OrderIsTransitive, OrderIsAntisymmetric};
ghost use Rattle.par_policy.specs.Laws.{JoinIsLeastUpperBound, MeetIsGreatestLowerBound};
ghost use Rattle.par_policy.specs.Laws.{OpenLocksLower, SpecialisedIsBelow};

/// Each policy is at least as restrictive as itself.
pub fn order_is_reflexive()
    ensures { OrderIsReflexive }
{}

/// What is at least as restrictive as a more restrictive policy is so as the less restrictive one.
pub fn order_is_transitive()
    ensures { OrderIsTransitive }
{}

/// Two policies in normal form, each at least as restrictive as the other, have equal clause lists.
pub fn order_is_antisymmetric()
    ensures { OrderIsAntisymmetric }
{}

/// What both see alone is the least restrictive policy that is at least as restrictive as each.
pub fn join_is_least_upper_bound()
    ensures { JoinIsLeastUpperBound }
{}

/// What each of them sees is the most restrictive policy that each is at least as restrictive as.
pub fn meet_is_greatest_lower_bound()
    ensures { MeetIsGreatestLowerBound }
{}

/// Specialised to open locks, a policy is below itself.
pub fn open_locks_lower()
    ensures { OpenLocksLower }
{}

/// The policy that is made for open locks is below what its source is below where they are open,
/// its source among that.
pub fn specialised_is_below()
    ensures { SpecialisedIsBelow }
{}
