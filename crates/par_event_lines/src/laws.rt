// What the lines of a run tell. Nothing runs here: the contract is a law.
ghost use Rattle.par_event_lines.specs.Laws.{EqualLinesAreEqualEvents};

/// A line is that of one event alone: who reads equal lines was shown equal events.
pub fn equal_lines_are_equal_events()
    ensures { EqualLinesAreEqualEvents }
{}
