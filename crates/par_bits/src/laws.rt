// The laws of sets. Nothing runs here: each contract is a law.
ghost use Rattle.par_bits.specs.Laws.{SameMembersAreEqual, SizeIsAtMostBound};
ghost use Rattle.par_bits.specs.Laws.{SizeGrows, SizeGrowsByMember};

/// Two sets that have the same members are equal.
pub fn same_members_are_equal()
    ensures { SameMembersAreEqual }
{}

/// A set within another one has at most as many members.
pub fn size_grows()
    ensures { SizeGrows }
{}

/// It has fewer, where a number below the bound is in the other one alone.
pub fn size_grows_by_member()
    ensures { SizeGrowsByMember }
{}

/// No more numbers are counted than there are below the bound.
pub fn size_is_at_most_bound()
    ensures { SizeIsAtMostBound }
{}
