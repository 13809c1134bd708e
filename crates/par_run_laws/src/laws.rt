// The laws of runs with greater bounds. Nothing runs here: each contract is a law.
ghost use Rattle.par_run_laws.specs.Laws.{DeeperRunsExtend, SourceRunsExtend};

use par_typed::program::Typed;

/// A run with more turns of loops, deeper calls and more steps allowed begins with the events of
/// one with fewer, and one that has ended stays as it is. So more turns and deeper calls than a run
/// has steps change nothing.
pub fn deeper_runs_extend()
    ensures { DeeperRunsExtend }
{}

/// A run with more steps allowed begins with the events of one with fewer, and one that has ended
/// stays as it is.
pub fn source_runs_extend(program: &Typed)
    ensures { SourceRunsExtend program.now }
{}
