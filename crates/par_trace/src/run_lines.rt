//! A run, told line by line.

ghost use Rattle.std.specs.Prelude.{◌≡◌, ◌≢◌, ◌≤◌, map, IsTrue, IfErr, OnOk};
ghost use Rattle.par_io.specs.Causes.{raised, appended};
ghost use Rattle.par_io.specs.Saying.{Said};
ghost use Rattle.par_values.specs.Ran.{Fine};
ghost use Rattle.par_meaning.specs.Onward.{witnessed};
ghost use Rattle.par_event_lines.specs.Telling.{IsUntold, IsCutOff, PutsAreTold};
ghost use Rattle.par_event_lines.specs.Texts.{line, ending_text, status};
ghost use Rattle.par_trace.specs.Puts.{ArePut};
ghost use Rattle.par_trace.specs.Texts.{run_of, witnessed_text, event_lines, lines};

use crate::text::event_line;
use par_event_lines::{Untold, ending_line, put_line, untold_status};
use par_io::Sink;
use par_meaning::{SourceEvent, SourceRun};
use par_typed::table::Table;
use par_values::run::Ending;
use std::alloc::Global;

/// Puts the line of an event.
fn tell_event<S: Sink>(
    alloc: Global,
    table: &Table,
    event: &SourceEvent,
    out: &mut S,
) -> Result<(), Untold>
    ensures faults_never_fall { (S.counts out.old).faults ≤ (S.counts out.new).faults }
    ensures faults_stand { IsTrue S.counts_faults_alone →
        PutsAreTold result (S.counts out.old).faults (S.counts out.new).faults }
    ensures counted { OnOk result ((S.counts out.new).puts ≡ raised (S.counts out.old).puts) }
    ensures put { OnOk result (S.held out.new
        ≡ appended (S.held out.old) (line (witnessed_text table.now (witnessed event.now)))) }
    ensures untold { IfErr result (IsUntold (line (witnessed_text table.now (witnessed event.now)))
        (S.held out.old) (S.held out.new) (S.counts out.old) (S.counts out.new)) }
{
    let text = event_line(alloc, table, event)?;
    put_line(text.as_slice(), out)
}

/// Puts a line for each event.
fn tell_events<S: Sink>(
    alloc: Global,
    table: &Table,
    events: &[SourceEvent],
    out: &mut S,
) -> Result<(), Untold>
    ensures faults_never_fall { (S.counts out.old).faults ≤ (S.counts out.new).faults }
    ensures faults_stand { IsTrue S.counts_faults_alone →
        PutsAreTold result (S.counts out.old).faults (S.counts out.new).faults }
    ensures put { OnOk result (ArePut (event_lines table.now (map witnessed events.now))
        (S.held out.old) (S.held out.new) (S.counts out.old) (S.counts out.new)) }
    ensures untold { IfErr result (IsCutOff (event_lines table.now (map witnessed events.now))
        (S.held out.old) (S.held out.new) (S.counts out.old) (S.counts out.new)) }
{
    for event in events {
        tell_event(alloc, table, event, out)?;
    }
    Ok(())
}

/// Puts the line of an ending.
fn tell_ending<S: Sink>(alloc: Global, ending: &Ending, out: &mut S) -> Result<(), Untold>
    ensures faults_never_fall { (S.counts out.old).faults ≤ (S.counts out.new).faults }
    ensures faults_stand { IsTrue S.counts_faults_alone →
        PutsAreTold result (S.counts out.old).faults (S.counts out.new).faults }
    ensures counted { OnOk result ((S.counts out.new).puts ≡ raised (S.counts out.old).puts) }
    ensures put { OnOk result
        (S.held out.new ≡ appended (S.held out.old) (line (ending_text (Fine ending.now)))) }
    ensures untold { IfErr result (IsUntold (line (ending_text (Fine ending.now)))
        (S.held out.old) (S.held out.new) (S.counts out.old) (S.counts out.new)) }
{
    let text = ending_line(alloc, ending)?;
    put_line(text.as_slice(), out)
}

/// Puts all lines of a run.
fn tell_lines<S: Sink>(
    alloc: Global,
    table: &Table,
    run: &SourceRun,
    out: &mut S,
) -> Result<(), Untold>
    ensures faults_stand { IsTrue S.counts_faults_alone →
        PutsAreTold result (S.counts out.old).faults (S.counts out.new).faults }
    ensures put { OnOk result (ArePut (lines table.now (run_of run.now))
        (S.held out.old) (S.held out.new) (S.counts out.old) (S.counts out.new)) }
    ensures untold { IfErr result (IsCutOff (lines table.now (run_of run.now))
        (S.held out.old) (S.held out.new) (S.counts out.old) (S.counts out.new)) }
{
    tell_events(alloc, table, run.events.as_slice(), out)?;
    tell_ending(alloc, &run.ending, out)
}

/// The status of a call that tells of a run which ends so.
fn status_of(ending: &Ending) -> u8
    ensures { result ≡ status (Fine ending.now) }
{
    match ending {
        Ending::End => 0,
        Ending::Uncaught(_) => 10,
        Ending::Stopped => 11,
    }
}

/// Puts a line for each event of a run, with the locks that are open at it, and one for how it
/// ends. The number is the status of a call that tells so.
#[tactic(auto, using(crate::proofs::Told::said_whole, crate::proofs::Told::said_untold))]
pub fn tell_source<S: Sink>(alloc: Global, table: &Table, run: &SourceRun, out: &mut S) -> u8
    ensures said { let ran = run_of run.now in
        Said (status (Fine ran.ending)) (lines table.now ran) result (S.held out.old)
        (S.held out.new) (S.counts out.old) (S.counts out.new) }
    ensures failed_puts_are_told { IsTrue S.counts_faults_alone →
        result ≢ 6 → (S.counts out.new).faults ≡ (S.counts out.old).faults }
{
    match tell_lines(alloc, table, run, out) {
        Ok(()) => status_of(&run.ending),
        Err(untold) => untold_status(untold),
    }
}
