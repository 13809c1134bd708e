// What holds of all sources. Nothing runs here: the contract is the law.

ghost use Rattle.par_lexer.specs.Laws.{TokensOrFault, NeverBoth, OneReading, OneFirstFault};

/// The law that each source has its tokens or its first fault, and not both.
pub fn sources_are_cut_one_way()
    ensures either { TokensOrFault }
    ensures never_both { NeverBoth }
    ensures one_reading { OneReading }
    ensures one_fault { OneFirstFault }
{}
