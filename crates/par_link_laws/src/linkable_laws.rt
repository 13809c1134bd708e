//! The law of linkable programs. The function does nothing: its contract is the law.

ghost use Rattle.par_link_laws.specs.LinkableLaws.{WellTypedProgramsAreLinkable};

/// The law that the program that is left of a well-typed one without policies is linkable, where
/// its names are names and differ.
pub fn well_typed_programs_are_linkable()
    ensures { WellTypedProgramsAreLinkable }
{}
