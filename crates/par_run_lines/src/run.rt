//! A run, told as it goes.

ghost use Rattle.std.specs.Prelude.{◌≡◌, ◌≢◌, ◌<◌, ◌≤◌, ◌+◌, IsTrue, IfOk, OnOk, IfErr};
ghost use Rattle.std.specs.Prelude.{MatchOption};
ghost use Rattle.par_io.specs.Causes.{raised, appended};
ghost use Rattle.par_io.specs.Saying.{Said};
ghost use Rattle.par_machine.specs.Machine.{steps_of};
ghost use Rattle.par_run_lines.specs.Running.{runs_of};
ghost use Rattle.par_event_lines.specs.Texts.{lines, status, event_text, line as ended};
ghost use Rattle.par_event_lines.specs.Telling.{GoesOn, ClosesBy, IsUntoldTurn, PutsAreTold};
ghost use Rattle.par_event_lines.specs.Telling.{IsTold, IsUntold};
ghost use Rattle.par_event_lines.specs.Telling.{IsCutOff, Closes};

use crate::step::{MOST_STEPS, Moved, step};
use par_event_lines::{Closing, Untold, put_closing, put_event, status_of, untold_status};
use par_io::Sink;
use par_machine::machine::Machine;
use par_values::run::{Ending, Event};
use std::alloc::Global;

/// Puts the line of an event that nobody asks for behind this.
#[inline(always)]
fn put_last<S: Sink>(
    alloc: Global,
    event: Event,
    line: &mut Vec<u8>,
    out: &mut S,
) -> Result<(), Untold>
    ensures faults_never_fall { (S.counts out.old).faults ≤ (S.counts out.new).faults }
    ensures faults_stand { IsTrue S.counts_faults_alone →
        PutsAreTold result (S.counts out.old).faults (S.counts out.new).faults }
    ensures counted { OnOk result ((S.counts out.new).puts ≡ raised (S.counts out.old).puts) }
    ensures put { OnOk result
        (S.held out.new ≡ appended (S.held out.old) (ended (event_text event))) }
    ensures untold { IfErr result (IsUntold (ended (event_text event))
        (S.held out.old) (S.held out.new) (S.counts out.old) (S.counts out.new)) }
{
    let put = put_event(alloc, &event, line, out);
    drop(event);
    put
}

/// Runs one instruction, and puts the line of its event. It gives how the run closes where it does.
#[inline(always)]
fn advance<S: Sink>(
    alloc: Global,
    machine: &mut Machine,
    line: &mut Vec<u8>,
    out: &mut S,
) -> Result<Option<Closing>, Untold>
    requires { steps_of machine.old < MOST_STEPS }
    ensures counted { steps_of machine.new ≡ steps_of machine.old + 1 }
    ensures faults_never_fall { (S.counts out.old).faults ≤ (S.counts out.new).faults }
    ensures faults_stand { IsTrue S.counts_faults_alone →
        PutsAreTold result (S.counts out.old).faults (S.counts out.new).faults }
    ensures told { IfOk result (λ closing. MatchOption closing
        (GoesOn (runs_of machine.old) (runs_of machine.new) (S.held out.old) (S.held out.new)
        (S.counts out.old) (S.counts out.new))
        (λ c. ClosesBy (runs_of machine.old) c (S.held out.old) (S.held out.new)
        (S.counts out.old) (S.counts out.new))) }
    ensures untold { IfErr result (IsUntoldTurn (runs_of machine.old)
        (S.held out.old) (S.held out.new) (S.counts out.old) (S.counts out.new)) }
{
    match step(machine)? {
        Moved::Silent => Ok(None),
        Moved::Happened(event) => {
            put_last(alloc, event, line, out)?;
            Ok(None)
        }
        Moved::Closed(closing) => Ok(Some(closing)),
    }
}

/// Runs a machine for at most so many instructions, and puts a line for each event as it happens.
#[inline(always)]
fn tell_events<S: Sink>(
    alloc: Global,
    machine: &mut Machine,
    steps: u32,
    out: &mut S,
) -> Result<Closing, Untold>
    requires { steps_of machine.old + steps ≤ MOST_STEPS }
    ensures faults_never_fall { (S.counts out.old).faults ≤ (S.counts out.new).faults }
    ensures faults_stand { IsTrue S.counts_faults_alone →
        PutsAreTold result (S.counts out.old).faults (S.counts out.new).faults }
    ensures told { IfOk result (IsTold (runs_of machine.old steps)
        (S.held out.old) (S.held out.new) (S.counts out.old) (S.counts out.new)) }
    ensures cut { IfErr result (IsCutOff (lines (runs_of machine.old steps))
        (S.held out.old) (S.held out.new) (S.counts out.old) (S.counts out.new)) }
{
    let mut line = Vec::new(alloc);
    let mut left = steps;
    while left > 0 {
        left -= 1;
        left -= machine.go_on(left);
        match advance(alloc, machine, &mut line, out) {
            Ok(None) => {}
            Ok(Some(closing)) => return Ok(closing),
            Err(untold) => return Err(untold),
        }
    }
    Ok(Closing::Ended(Ending::Stopped))
}

/// The same of a machine that nobody asks behind this.
fn tell_all<S: Sink>(
    alloc: Global,
    machine: Machine,
    steps: u32,
    out: &mut S,
) -> Result<Closing, Untold>
    requires { steps_of machine + steps ≤ MOST_STEPS }
    ensures faults_never_fall { (S.counts out.old).faults ≤ (S.counts out.new).faults }
    ensures faults_stand { IsTrue S.counts_faults_alone →
        PutsAreTold result (S.counts out.old).faults (S.counts out.new).faults }
    ensures told { IfOk result (IsTold (runs_of machine steps)
        (S.held out.old) (S.held out.new) (S.counts out.old) (S.counts out.new)) }
    ensures cut { IfErr result (IsCutOff (lines (runs_of machine steps))
        (S.held out.old) (S.held out.new) (S.counts out.old) (S.counts out.new)) }
{
    let mut machine = machine;
    let told = tell_events(alloc, &mut machine, steps, out);
    drop(machine);
    told
}

/// Puts the line of a closing, and gives the status of the call.
fn close<S: Sink>(alloc: Global, closing: &Closing, out: &mut S) -> u8
    ensures closes { Closes closing.now result (S.held out.old) (S.held out.new)
        (S.counts out.old) (S.counts out.new) }
    ensures faults_stand { IsTrue S.counts_faults_alone →
        result ≢ 6 → (S.counts out.new).faults ≡ (S.counts out.old).faults }
{
    match put_closing(alloc, closing, out) {
        Ok(()) => status_of(closing),
        Err(untold) => untold_status(untold),
    }
}

/// Runs a machine for at most so many instructions, and puts a line for each event as it happens
/// and one for how the run closes. The number is the status of a call that tells so.
pub fn tell_run<S: Sink>(alloc: Global, machine: Machine, steps: u32, out: &mut S) -> u8
    requires { steps_of machine + steps ≤ MOST_STEPS }
    ensures said { let ran = runs_of machine steps in
        Said (status ran.ending) (lines ran) result (S.held out.old) (S.held out.new)
        (S.counts out.old) (S.counts out.new) }
    ensures failed_puts_are_told { IsTrue S.counts_faults_alone →
        result ≢ 6 → (S.counts out.new).faults ≡ (S.counts out.old).faults }
{
    match tell_all(alloc, machine, steps, out) {
        Ok(closing) => {
            let status = close(alloc, &closing, out);
            drop(closing);
            status
        }
        Err(untold) => untold_status(untold),
    }
}
