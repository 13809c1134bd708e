// The law of what is told. Nothing runs here.
ghost use Rattle.par_told.specs.Laws.{ToldIsLeast};

/// The joins of the policies that are told are the least accepted filling where those of all are.
pub fn told_is_least()
    ensures { ToldIsLeast }
{}
