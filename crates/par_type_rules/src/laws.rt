//! A law on where rules on types are broken.

ghost use Rattle.par_type_rules.specs.Places.{TypesAreBrokenWithin};

/// No rule on types is broken behind the last place of the tree.
pub fn types_are_broken_within()
    ensures { TypesAreBrokenWithin }
{}
