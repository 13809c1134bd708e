//! Lines that are put one after another.

ghost use Rattle.std.specs.Prelude.{◌≡◌, ◌≢◌, IsTrue, IfErr, OnOk};
ghost use Rattle.par_io.specs.Saying.{Said};
ghost use Rattle.par_event_lines.specs.Telling.{IsCutOff, PutsAreTold};
ghost use Rattle.par_trace.specs.Puts.{ArePut};
ghost use Rattle.par_tool.specs.Lines.{texts_of};

use par_event_lines::{Untold, put_line, untold_status};
use par_io::Sink;

/// Puts lines, each by one put.
fn put_lines<S: Sink>(lines: &[Vec<u8>], out: &mut S) -> Result<(), Untold>
    ensures faults_stand { IsTrue S.counts_faults_alone →
        PutsAreTold result (S.counts out.old).faults (S.counts out.new).faults }
    ensures put { OnOk result (ArePut (texts_of lines.now)
        (S.held out.old) (S.held out.new) (S.counts out.old) (S.counts out.new)) }
    ensures untold { IfErr result (IsCutOff (texts_of lines.now)
        (S.held out.old) (S.held out.new) (S.counts out.old) (S.counts out.new)) }
{
    for line in lines {
        put_line(line.as_slice(), out)?;
    }
    Ok(())
}

/// Says lines, and gives the status of a call that says them and nothing else.
#[tactic(auto, using(par_trace::proofs::Told::said_whole, par_trace::proofs::Told::said_untold))]
pub fn tell_lines<S: Sink>(lines: &[Vec<u8>], out: &mut S) -> u8
    ensures said { Said 0 (texts_of lines.now) result
        (S.held out.old) (S.held out.new) (S.counts out.old) (S.counts out.new) }
    ensures failed_puts_are_told { IsTrue S.counts_faults_alone →
        result ≢ 6 → (S.counts out.new).faults ≡ (S.counts out.old).faults }
{
    match put_lines(lines, out) {
        Ok(()) => 0,
        Err(untold) => untold_status(untold),
    }
}

/// The same of lines that nobody asks for behind this.
pub fn tell_all<S: Sink>(lines: Vec<Vec<u8>>, out: &mut S) -> u8
    ensures said { Said 0 (texts_of lines.items) result
        (S.held out.old) (S.held out.new) (S.counts out.old) (S.counts out.new) }
    ensures failed_puts_are_told { IsTrue S.counts_faults_alone →
        result ≢ 6 → (S.counts out.new).faults ≡ (S.counts out.old).faults }
{
    let status = tell_lines(lines.as_slice(), out);
    drop(lines);
    status
}
