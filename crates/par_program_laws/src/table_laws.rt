//! What follows where names differ.

ghost use Rattle.par_program_laws.specs.TableLaws.{NamesStandOnce};

/// A name stands at one place among names of which no two are equal.
pub fn names_stand_once()
    ensures { NamesStandOnce }
{}
