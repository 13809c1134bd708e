//! Lines that are put, and what comes of one that is not.

ghost use Rattle.std.specs.Prelude.{◌≡◌, ◌≤◌, IsTrue, OnOk, IfOk, IfErr};
ghost use Rattle.par_io.specs.Causes.{raised, appended};
ghost use Rattle.par_event_lines.specs.Telling.{IsUntold, PutsAreTold, status_of_untold};
ghost use Rattle.par_event_lines.specs.Outcome.{outcome};
ghost use Rattle.par_event_lines.specs.Texts.{line, event_text, ending_text, status};
ghost use Rattle.par_event_lines.specs.declared.puts.Untold.TheVariants.{Memory};

use crate::text::{add_event_line, bad_code_line, ending_line};
use par_base::list::List;
use par_base::memory::NoMemory;
use par_base::name::Name;
use par_io::Sink;
use par_values::run::{Ending, Event};
use std::alloc::Global;

/// Why a line is not put whole.
#[derive(Clone, Copy)]
pub enum Untold {
    /// The put failed.
    Fault,
    /// Memory is wanting for the line, and nothing of it is put.
    Memory,
}

impl From<NoMemory> for Untold {
    ghost from_gives = { λ _ e. e ≡ Memory };

    fn from(_: NoMemory) -> Untold {
        Untold::Memory
    }
}

/// How a run closes.
#[derive(Drop)]
pub enum Closing {
    /// It ends, or has no instruction left.
    Ended(Ending),
    /// The instruction at an offset of a method cannot be run, for a reason by its number.
    BadCode {
        class: Name,
        method: List<u8>,
        offset: u32,
        reason: u8,
    },
}

/// The status of a call that tells of a run that closes so.
pub fn status_of(closing: &Closing) -> u8
    ensures { result ≡ status (outcome closing.now) }
{
    match closing {
        Closing::Ended(Ending::End) => 0,
        Closing::Ended(Ending::Uncaught(_)) => 10,
        Closing::Ended(Ending::Stopped) => 11,
        Closing::BadCode { .. } => 14,
    }
}

/// The status of a call that could not put a line.
pub fn untold_status(untold: Untold) -> u8
    ensures { result ≡ status_of_untold untold }
{
    match untold {
        Untold::Fault => 6,
        Untold::Memory => 7,
    }
}

/// Puts a line.
pub fn put_line<S: Sink>(line: &[u8], out: &mut S) -> Result<(), Untold>
    ensures faults_never_fall { (S.counts out.old).faults ≤ (S.counts out.new).faults }
    ensures faults_stand { IsTrue S.counts_faults_alone →
        PutsAreTold result (S.counts out.old).faults (S.counts out.new).faults }
    ensures counted { OnOk result ((S.counts out.new).puts ≡ raised (S.counts out.old).puts) }
    ensures put { OnOk result (S.held out.new ≡ appended (S.held out.old) line.now) }
    ensures untold { IfErr result (IsUntold line.now
        (S.held out.old) (S.held out.new) (S.counts out.old) (S.counts out.new)) }
{
    match out.put(line) {
        Ok(()) => Ok(()),
        Err(_) => Err(Untold::Fault),
    }
}

/// Puts the line of an event, which is made in the place of another line.
pub fn put_event<S: Sink>(
    alloc: Global,
    event: &Event,
    text: &mut Vec<u8>,
    out: &mut S,
) -> Result<(), Untold>
    ensures faults_never_fall { (S.counts out.old).faults ≤ (S.counts out.new).faults }
    ensures faults_stand { IsTrue S.counts_faults_alone →
        PutsAreTold result (S.counts out.old).faults (S.counts out.new).faults }
    ensures counted { OnOk result ((S.counts out.new).puts ≡ raised (S.counts out.old).puts) }
    ensures put { OnOk result
        (S.held out.new ≡ appended (S.held out.old) (line (event_text event.now))) }
    ensures untold { IfErr result (IsUntold (line (event_text event.now))
        (S.held out.old) (S.held out.new) (S.counts out.old) (S.counts out.new)) }
{
    text.clear();
    add_event_line(alloc, text, event)?;
    put_line(text.as_slice(), out)
}

/// The line of a closing.
fn closing_line(alloc: Global, closing: &Closing) -> Result<Vec<u8>, NoMemory>
    ensures { IfOk result (λ text. text.items ≡ line (ending_text (outcome closing.now))) }
{
    match closing {
        Closing::Ended(ending) => ending_line(alloc, ending),
        Closing::BadCode {
            class,
            method,
            offset,
            reason,
        } => bad_code_line(alloc, class, method.as_slice(), *offset, *reason),
    }
}

/// Puts the line of a closing.
pub fn put_closing<S: Sink>(alloc: Global, closing: &Closing, out: &mut S) -> Result<(), Untold>
    ensures faults_never_fall { (S.counts out.old).faults ≤ (S.counts out.new).faults }
    ensures faults_stand { IsTrue S.counts_faults_alone →
        PutsAreTold result (S.counts out.old).faults (S.counts out.new).faults }
    ensures counted { OnOk result ((S.counts out.new).puts ≡ raised (S.counts out.old).puts) }
    ensures put { OnOk result
        (S.held out.new ≡ appended (S.held out.old) (line (ending_text (outcome closing.now)))) }
    ensures untold { IfErr result (IsUntold (line (ending_text (outcome closing.now)))
        (S.held out.old) (S.held out.new) (S.counts out.old) (S.counts out.new)) }
{
    let text = closing_line(alloc, closing)?;
    put_line(text.as_slice(), out)
}
