//! Reads of files, with why one was not had.

ghost use Rattle.std.specs.Prelude.{◌≡◌, ◌≤◌, IsTrue, IfOk, IfErr, length};
ghost use Rattle.par_io.specs.Causes.{Makes, NoneFalls};
ghost use Rattle.par_tool.specs.Outside.{WasRead, NotRead};
ghost use Rattle.par_tool.specs.Failures.{IsFailure, FaultsAreTold};
ghost use Rattle.par_tool.specs.Failures.{failure_by, failure_for, failure_in, failure_of};
ghost use Rattle.par_tool.specs.declared.reads.Failure.TheVariants.{Memory};

use crate::answer::Answer;
use par_inputs::error::BadInput;
use par_io::{Folder, ReadFail};
use par_lexer::memory::NoMemory;
use par_loader::Unloaded;
use par_words::Unread;
use std::alloc::{AllocError, Global};

/// Why a job does not come to its end.
#[derive(Drop)]
pub enum Failure {
    /// This is answered in its place.
    Answered(Answer),
    /// Memory is wanting.
    Memory,
}

impl From<NoMemory> for Failure {
    ghost from_gives = { λ _ e. e ≡ Memory };

    fn from(_: NoMemory) -> Failure {
        Failure::Memory
    }
}

impl From<AllocError> for Failure {
    ghost from_gives = { λ _ e. e ≡ Memory };

    fn from(_: AllocError) -> Failure {
        Failure::Memory
    }
}

impl From<ReadFail> for Failure {
    ghost from_gives = { λ fail e. e ≡ failure_by fail };

    fn from(fail: ReadFail) -> Failure {
        match fail {
            ReadFail::Absent => Failure::Answered(Answer::Absent),
            ReadFail::TooLong => Failure::Answered(Answer::TooLong),
            ReadFail::Failed => Failure::Answered(Answer::ReadFault),
            ReadFail::Memory => Failure::Memory,
        }
    }
}

impl From<BadInput> for Failure {
    ghost from_gives = { λ bad e. e ≡ failure_in bad };

    fn from(bad: BadInput) -> Failure {
        match bad {
            BadInput::Line(line) => Failure::Answered(Answer::BadInputs(line)),
            BadInput::Memory => Failure::Memory,
        }
    }
}

impl From<Unread> for Failure {
    ghost from_gives = { λ unread e. e ≡ failure_for unread };

    fn from(unread: Unread) -> Failure {
        match unread {
            Unread::NoForm => Failure::Answered(Answer::Usage),
            Unread::Memory => Failure::Memory,
        }
    }
}

impl From<Unloaded> for Failure {
    ghost from_gives = { λ unloaded e. e ≡ failure_of unloaded };

    fn from(unloaded: Unloaded) -> Failure {
        match unloaded {
            Unloaded::Absent => Failure::Answered(Answer::Absent),
            Unloaded::TooLong => Failure::Answered(Answer::TooLong),
            Unloaded::Failed => Failure::Answered(Answer::ReadFault),
            Unloaded::BadClass {
                class,
                number,
                value,
            } => Failure::Answered(Answer::BadClass {
                class,
                number,
                value,
            }),
            Unloaded::Memory => Failure::Memory,
        }
    }
}

/// The bytes of a file of at most `limit` bytes, or why they were not had.
pub fn read<F: Folder>(
    alloc: Global,
    folder: &mut F,
    name: &str,
    limit: u64,
) -> Result<Vec<u8>, Failure>
    ensures kept { F.files folder.new ≡ F.files folder.old }
    ensures counted { Makes 1 0 (F.counts folder.old) (F.counts folder.new) }
    ensures none_falls { NoneFalls (F.counts folder.old) (F.counts folder.new) }
    ensures faults_are_told { IsTrue F.counts_faults_alone →
        FaultsAreTold result (F.counts folder.old).faults (F.counts folder.new).faults }
    ensures short { IfOk result (λ bytes. length bytes.items ≤ limit) }
    ensures read { IfOk result (λ bytes. WasRead (F.files folder.old) limit name.now bytes.items) }
    ensures failed { IfErr result (IsFailure (NotRead (F.files folder.old)
        (F.counts folder.old) (F.counts folder.new) limit name.now)) }
{
    match folder.read(alloc, name, limit) {
        Ok(bytes) => Ok(bytes),
        Err(fail) => Err(Failure::from(fail)),
    }
}
