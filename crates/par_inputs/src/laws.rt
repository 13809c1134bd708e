// What holds of all input files. Nothing runs here: each contract is a law.

ghost use Rattle.par_inputs.specs.Laws.{RightOrBroken, NeverBoth, OneFirstBroken};
ghost use Rattle.par_inputs.specs.Laws.{EntriesStandOnTheirLines};

/// The law that each file is right or has one first broken line, and not both.
pub fn files_are_right_or_broken()
    ensures either { RightOrBroken }
    ensures never_both { NeverBoth }
    ensures one_broken { OneFirstBroken }
{}

/// The law that the line which is told of an entry gives that entry.
pub fn entries_stand_on_their_lines()
    ensures { EntriesStandOnTheirLines }
{}
