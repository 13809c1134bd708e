// The laws of joins as sets. Nothing runs here: each contract is a law.
ghost use Rattle.par_atoms.specs.Laws.{MembersAreThoseHad, JoinIsBelowWhereEachIs};

/// The list of a set's members holds exactly the numbers that the set has.
pub fn members_are_those_had()
    ensures { MembersAreThoseHad }
{}

/// The join of the policies of a set is below another policy where each of these policies is.
pub fn join_is_below_where_each_is()
    ensures { JoinIsBelowWhereEachIs }
{}
