//! A law on where rules on names are broken.

ghost use Rattle.par_names.specs.Places.{NamesAreBrokenWithin};

/// No rule on names is broken behind the last place of the tree.
pub fn names_are_broken_within()
    ensures { NamesAreBrokenWithin }
{}
