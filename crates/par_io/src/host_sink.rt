ghost use Rattle.std.specs.Prelude.{◌≡◌, true, None, OnOk, OnErr};
ghost use Rattle.std.specs.Io.KnownBytes.{Appends};
ghost use Rattle.par_io.specs.Causes.{untouched_sink, raised, TakesFront};
ghost use Rattle.par_io.specs.HostSink.{counts_of};

use crate::outside::{PutFailed, Sink};
use crate::whole::write_whole;
use std::io::Write;

/// An output of the system, by what writes to it. It does not tell what was put; what a put does to
/// its writer is told where that tells what it holds.
#[derive(Drop)]
pub struct HostSink<W> {
    writer: W,
    puts: u64,
    faults: u64,
}

impl<W> HostSink<W> {
    /// The output that this writes to.
    pub fn new(writer: W) -> HostSink<W>
        ensures counts { counts_of result ≡ untouched_sink }
        ensures writer { result.writer ≡ writer }
    {
        HostSink {
            writer,
            puts: 0,
            faults: 0,
        }
    }
}

impl<W: Write + Drop> Sink for HostSink<W> {
    ghost held = { λ _. None };

    ghost counts = { counts_of };

    ghost counts_faults_alone = { true };

    fn put(&mut self, bytes: &[u8]) -> Result<(), PutFailed>
        ensures written { OnOk result (Appends
            (W.contents self.old.writer) (W.contents self.new.writer) bytes.now) }
        ensures front { OnErr result (TakesFront
            (W.contents self.old.writer) (W.contents self.new.writer) bytes.now) }
        ensures counted { (counts_of self.new).puts ≡ raised (counts_of self.old).puts }
        ensures no_fault { OnOk result
            ((counts_of self.new).faults ≡ (counts_of self.old).faults) }
        ensures fault { OnErr result
            ((counts_of self.new).faults ≡ raised (counts_of self.old).faults) }
    {
        self.puts = self.puts.saturating_add(1);
        if write_whole(&mut self.writer, bytes).is_err() {
            self.faults = self.faults.saturating_add(1);
            return Err(PutFailed);
        }
        Ok(())
    }
}
