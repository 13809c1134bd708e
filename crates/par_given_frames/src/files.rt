//! The frames of all methods of a class file.

ghost use Rattle.std.specs.Prelude.{◌≡◌, IfOk};
ghost use Rattle.par_base.specs.Names.{IsName};
ghost use Rattle.par_single.specs.Members.{own_name};
ghost use Rattle.par_frames.specs.par_link.Conditions.{IsSmall};
ghost use Rattle.par_given_frames.specs.Named.{AreNamed};
ghost use Rattle.par_given_frames.specs.Takes.{AreCounts};
ghost use Rattle.par_given_frames.specs.Answers.{IsFirstBroken, FramesOf, told_as};

use crate::error::Unread;
use crate::methods::{has_frames, method_frames};
use crate::takes::argument_counts;
use par_base::list::List;
use par_base::memory::NoMemory;
use par_class::file::ClassFile;
use par_frames::{FrameError, MethodFrames};
use std::alloc::Global;

/// The number of a method that lacks frames, or whose frames stand where they may not.
pub const UNFRAMED: u16 = 46;

/// The place of the first method that has no frames, by how many arguments the descriptors take.
fn first_without(alloc: Global, counts: &[usize], file: &ClassFile) -> Result<Option<u32>, NoMemory>
    requires small { IsSmall file.now }
    requires counted { AreCounts file.now.pool.entries counts.now }
    ensures { IfOk result (λ method. IsFirstBroken file.now method) }
{
    let methods = file.methods.as_slice();
    for place in 0..methods.len() {
        if !has_frames(alloc, counts, file, &methods[place])? {
            return Ok(Some(place as u32));
        }
    }
    Ok(None)
}

/// The place of the first method that has no frames. None is kept, so that the work and the memory
/// grow as the file does.
pub fn first_unframed(alloc: Global, file: &ClassFile) -> Result<Option<u32>, NoMemory>
    requires { IsSmall file.now }
    ensures { IfOk result (λ method. IsFirstBroken file.now method) }
{
    let counts = argument_counts(alloc, file.pool.entries.as_slice())?;
    let first = first_without(alloc, counts.as_slice(), file);
    drop(counts);
    first
}

/// What is told of the method of this number, where this was read of it.
fn told(read: Result<MethodFrames, Unread>, method: u32) -> Result<MethodFrames, FrameError>
    ensures { result ≡ told_as method read }
{
    match read {
        Ok(frames) => Ok(frames),
        Err(Unread::Refused) => Err(FrameError::Broken {
            number: UNFRAMED,
            method,
        }),
        Err(Unread::Memory) => Err(FrameError::Memory),
    }
}

/// The frames of each method of a class file, in the order of the table.
pub fn frames_of(alloc: Global, file: &ClassFile) -> Result<List<MethodFrames>, FrameError>
    requires small { IsSmall file.now }
    requires own { IsName (own_name file.now) }
    requires named { AreNamed file.now.pool.entries }
    ensures { FramesOf file.now result }
{
    let methods = file.methods.as_slice();
    let counts = argument_counts(alloc, file.pool.entries.as_slice())?;
    let mut frames = List::new(alloc);
    for place in 0..methods.len() {
        let read = method_frames(alloc, counts.as_slice(), file, &methods[place]);
        let of_method = told(read, place as u32)?;
        frames.push(of_method)?;
    }
    Ok(frames)
}
