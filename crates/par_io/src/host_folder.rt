ghost use Rattle.std.specs.Prelude.{◌≡◌, ◌≤◌, ◌↔◌, true, None, IfOk, IfErr, IsErr, IsErrAnd};
ghost use Rattle.std.specs.Prelude.{IsErrOf, IsOkAnd, IfSome, MatchResult, length, ◌<◌};
ghost use Rattle.std.specs.Io.KnownBytes.{Appends};
ghost use Rattle.std.specs.IoError.{error_kind};
ghost use Rattle.par_io.specs.Causes.{untouched_folder, Makes, SameAnswers, CountsRead};
ghost use Rattle.par_io.specs.Causes.{CountsWrite};
ghost use Rattle.par_io.specs.HostFolder.{counts_of};
ghost use Rattle.par_io.specs.Opening.{IsRead, IsWritten, for_reading, for_writing};

use crate::opener::{Opener, to_read, to_write};
use crate::outside::{Folder, ReadFail, WriteFail};
use crate::whole::{read_fail, read_whole, write_fail, write_whole};
use std::alloc::Global;
use std::io;
use std::io::{ErrorKind, Read, Write};
use std::rt::Files;

/// The files of the system, under their paths. It does not tell what they hold.
#[derive(Drop)]
pub struct HostFolder<'a, R> {
    rt: &'a R,
    reads: u64,
    writes: u64,
    faults: u64,
    absents: u64,
    longs: u64,
}

impl<'a, R: Files> HostFolder<'a, R> {
    /// The files that this runtime gives.
    pub fn new(rt: &'a R) -> HostFolder<'a, R>
        ensures counts { counts_of result ≡ untouched_folder }
    {
        HostFolder {
            rt,
            reads: 0,
            writes: 0,
            faults: 0,
            absents: 0,
            longs: 0,
        }
    }
}

impl<R> HostFolder<'_, R> {
    fn count_fail(&mut self, fail: ReadFail)
        ensures calls { Makes 0 0 (counts_of self.old) (counts_of self.new) }
        ensures answers { CountsRead fail (counts_of self.old) (counts_of self.new) }
    {
        match fail {
            ReadFail::Absent => self.absents = self.absents.saturating_add(1),
            ReadFail::TooLong => self.longs = self.longs.saturating_add(1),
            ReadFail::Failed => self.faults = self.faults.saturating_add(1),
            ReadFail::Memory => {}
        }
    }
}

// Reads what was opened, all that it holds.
fn read_opened<F: Read + Drop>(
    opened: io::Result<F>,
    alloc: Global,
    limit: u64,
) -> Result<Vec<u8>, ReadFail>
    ensures short { IfOk result (λ bytes. length bytes.items ≤ limit) }
    ensures whole { IfOk opened (λ file. IfOk result (λ bytes.
        IfSome (F.remaining file) (λ told. bytes.items ≡ told))) }
    ensures long { IfOk opened (λ file. IsErrOf result ReadFail.TooLong →
        IfSome (F.remaining file) (λ told. limit < length told)) }
    ensures absent { IsErrOf result ReadFail.Absent
        ↔ IsErrAnd opened (λ error. error_kind error ≡ ErrorKind.NotFound) }
    ensures unopened { IfErr opened (λ _. IsErr result) }
{
    match opened {
        Ok(mut file) => read_whole(&mut file, alloc, limit),
        Err(error) => Err(read_fail(&error)),
    }
}

// Writes all of the bytes to what was created, and hands it back to be closed.
fn write_created<F: Write + Drop>(created: io::Result<F>, bytes: &[u8]) -> Result<F, WriteFail>
    ensures written { IfOk result (λ after. IsOkAnd created (λ file.
        Appends (F.contents file) (F.contents after) bytes.now)) }
    ensures memory { IsErrOf result WriteFail.Memory
        ↔ IsErrAnd created (λ error. error_kind error ≡ ErrorKind.OutOfMemory) }
{
    match created {
        Ok(mut file) => {
            write_whole(&mut file, bytes)?;
            Ok(file)
        }
        Err(error) => Err(write_fail(&error)),
    }
}

impl<R: Opener> Folder for HostFolder<'_, R> {
    ghost files = { λ _. None };

    ghost counts = { counts_of };

    ghost counts_faults_alone = { true };

    fn read(&mut self, alloc: Global, name: &str, limit: u64) -> Result<Vec<u8>, ReadFail>
        ensures short { IfOk result (λ bytes. length bytes.items ≤ limit) }
        ensures read { IsRead (R.gives self.old.rt.now for_reading name.now)
            (λ error. error_kind error ≡ ErrorKind.NotFound) R.File.remaining limit result }
        ensures counted { Makes 1 0 (counts_of self.old) (counts_of self.new) }
        ensures answers { MatchResult result
            (λ _. SameAnswers (counts_of self.old) (counts_of self.new))
            (λ fail. CountsRead fail (counts_of self.old) (counts_of self.new)) }
    {
        self.reads = self.reads.saturating_add(1);
        let answer = read_opened(self.rt.open(&to_read(), name), alloc, limit);
        if let Err(fail) = &answer {
            self.count_fail(*fail);
        }
        answer
    }

    fn write(&mut self, _alloc: Global, name: &str, bytes: &[u8]) -> Result<(), WriteFail>
        ensures written { IsWritten (R.gives self.old.rt.now for_writing name.now)
            (λ error. error_kind error ≡ ErrorKind.OutOfMemory) R.File.contents bytes.now result }
        ensures counted { Makes 0 1 (counts_of self.old) (counts_of self.new) }
        ensures answers { MatchResult result
            (λ _. SameAnswers (counts_of self.old) (counts_of self.new))
            (λ fail. CountsWrite fail (counts_of self.old) (counts_of self.new)) }
    {
        self.writes = self.writes.saturating_add(1);
        match write_created(self.rt.open(&to_write(), name), bytes) {
            Ok(_file) => Ok(()),
            Err(WriteFail::Failed) => {
                self.faults = self.faults.saturating_add(1);
                Err(WriteFail::Failed)
            }
            Err(WriteFail::Memory) => Err(WriteFail::Memory),
        }
    }
}
