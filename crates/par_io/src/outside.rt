ghost use Rattle.std.specs.Prelude.{◌≡◌, ℕ, ◌<◌, ◌≤◌, Bool, false, List, Option, Some, None, IfOk};
ghost use Rattle.std.specs.Prelude.{IsTrue, IsErrOf, OnOk, OnErr, length};
ghost use Rattle.par_io.specs.Causes.{FolderCounts, SinkCounts, Makes, NoneFalls, Rose, raised};
ghost use Rattle.par_io.specs.Causes.{ReadFaultsStand, WriteFaultsStand, Files, Told, ToldBoth};
ghost use Rattle.par_io.specs.Causes.{StandBut, Sets, appended, AppendsFront};
ghost use Rattle.par_io.specs.declared.outside.ReadFail.{ReadFail};
ghost use Rattle.par_io.specs.declared.outside.WriteFail.{WriteFail};

use par_base::memory::NoMemory;
use std::alloc::{AllocError, Global};

/// Why a file was not read.
#[derive(Clone, Copy, Debug, PartialEq, Eq)]
pub enum ReadFail {
    /// There is no file of that name.
    Absent,
    /// The file has more bytes than the limit.
    TooLong,
    /// The outside failed.
    Failed,
    /// Memory is lacking.
    Memory,
}

impl From<AllocError> for ReadFail {
    ghost from_gives = { λ _ fail. fail ≡ ReadFail.Memory };

    fn from(_error: AllocError) -> ReadFail {
        ReadFail::Memory
    }
}

/// Why a file was not written.
#[derive(Clone, Copy, Debug, PartialEq, Eq)]
pub enum WriteFail {
    /// The outside failed.
    Failed,
    /// Memory is lacking.
    Memory,
}

impl From<NoMemory> for WriteFail {
    ghost from_gives = { λ _ fail. fail ≡ WriteFail.Memory };

    fn from(_error: NoMemory) -> WriteFail {
        WriteFail::Memory
    }
}

/// Files by their names, read and written whole.
pub trait Folder {
    /// The files, where it tells them.
    ghost files: { Self → Option Files };

    /// How many reads and writes it was asked for, and how many answers there were of each kind.
    ghost counts: { Self → FolderCounts };

    /// Whether nothing but a fault raises the count of faults. An implementation that leaves this
    /// out promises nothing of it.
    ghost counts_faults_alone: { Bool } = { false };

    /// The bytes of a file of at most `limit` bytes.
    fn read(&mut self, alloc: Global, name: &str, limit: u64) -> Result<Vec<u8>, ReadFail>
        ensures kept { files self.new ≡ files self.old }
        ensures counted { Makes 1 0 (counts self.old) (counts self.new) }
        ensures none_falls { NoneFalls (counts self.old) (counts self.new) }
        ensures short { IfOk result (λ bytes. length bytes.items ≤ limit) }
        ensures found { IfOk result (λ bytes.
            Told (files self.old) (λ m. m name.now ≡ Some bytes.items)) }
        ensures absent_counts { IsErrOf result ReadFail.Absent →
            Rose (counts self.old).absents (counts self.new).absents }
        ensures absent { IsErrOf result ReadFail.Absent →
            Told (files self.old) (λ m. m name.now ≡ None) }
        ensures long_counts { IsErrOf result ReadFail.TooLong →
            Rose (counts self.old).longs (counts self.new).longs }
        ensures long { IsErrOf result ReadFail.TooLong →
            Told (files self.old) (λ m.
            (bytes : List ℕ) × (m name.now ≡ Some bytes) × (limit < length bytes)) }
        ensures failed { IsErrOf result ReadFail.Failed →
            Rose (counts self.old).faults (counts self.new).faults }
        ensures faults_stand { IsTrue counts_faults_alone →
            ReadFaultsStand result (counts self.old).faults (counts self.new).faults };

    /// Gives a name these bytes, in place of any that it had.
    fn write(&mut self, alloc: Global, name: &str, bytes: &[u8]) -> Result<(), WriteFail>
        ensures counted { Makes 0 1 (counts self.old) (counts self.new) }
        ensures none_falls { NoneFalls (counts self.old) (counts self.new) }
        ensures written { OnOk result
            (ToldBoth (files self.old) (files self.new) (Sets name.now bytes.now)) }
        ensures failed_counts { IsErrOf result WriteFail.Failed →
            Rose (counts self.old).faults (counts self.new).faults }
        ensures failed { IsErrOf result WriteFail.Failed →
            ToldBoth (files self.old) (files self.new) (StandBut name.now) }
        ensures faults_stand { IsTrue counts_faults_alone →
            WriteFaultsStand result (counts self.old).faults (counts self.new).faults }
        ensures memory { IsErrOf result WriteFail.Memory → files self.new ≡ files self.old };
}

/// The answer of a put that failed.
#[derive(Clone, Copy, Debug, PartialEq, Eq)]
pub struct PutFailed;

/// Bytes, put one after another.
pub trait Sink {
    /// The bytes put so far, where it tells them.
    ghost held: { Self → Option (List ℕ) };

    /// How many puts it was asked for, and how many of them failed.
    ghost counts: { Self → SinkCounts };

    /// Whether nothing but a fault raises the count of faults. An implementation that leaves this
    /// out promises nothing of it.
    ghost counts_faults_alone: { Bool } = { false };

    /// Puts these bytes behind those put so far. Where it fails, a front of them may have been put.
    fn put(&mut self, bytes: &[u8]) -> Result<(), PutFailed>
        ensures counted { (counts self.new).puts ≡ raised (counts self.old).puts }
        ensures faults_never_fall { (counts self.old).faults ≤ (counts self.new).faults }
        ensures put { OnOk result (held self.new ≡ appended (held self.old) bytes.now) }
        ensures failed_counts { OnErr result
            (Rose (counts self.old).faults (counts self.new).faults) }
        ensures faults_stand { IsTrue counts_faults_alone →
            OnOk result ((counts self.new).faults ≡ (counts self.old).faults) }
        ensures failed { OnErr result (AppendsFront (held self.old) (held self.new) bytes.now) };
}
