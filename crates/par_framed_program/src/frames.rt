//! The frames of linked class files.

ghost use Rattle.std.specs.Prelude.{IfOk};
ghost use Rattle.std.specs.List.{All};
ghost use Rattle.par_base.specs.Names.{IsName};
ghost use Rattle.par_single.specs.Members as members;
ghost use Rattle.par_link.specs.Conditions.{IsSmall};
ghost use Rattle.par_given_frames.specs.Named.{AreNamed};
ghost use Rattle.par_framed_program.specs.Framed.{AreFramesOf, Framed};

use crate::look::unframed;
use par_base::list::List;
use par_class::file::ClassFile;
use par_frames::{FrameError, MethodFrames};
use par_given_frames::frames_of;
use par_link::Linked;
use par_loader::Unloaded;
use std::alloc::Global;

/// The frames of each of some class files.
fn all_frames(alloc: Global, files: &[ClassFile]) -> Result<List<List<MethodFrames>>, Unloaded>
    requires small { All IsSmall files.now }
    requires own { All (λ file. IsName (members.own_name file)) files.now }
    requires named { All (λ file. AreNamed file.pool.entries) files.now }
    ensures { Framed (AreFramesOf files.now) files.now result }
{
    let mut frames = List::new(alloc);
    for place in 0..files.len() {
        let file = &files[place];
        match frames_of(alloc, file) {
            Ok(of_file) => frames.push(of_file)?,
            Err(FrameError::Broken { method, .. }) => return Err(unframed(alloc, file, method)),
            Err(FrameError::Memory) => return Err(Unloaded::Memory),
        }
    }
    Ok(frames)
}

/// The frames of each method of linked class files, files in their order, or the first method that
/// has none.
pub fn program_frames(alloc: Global, linked: &Linked) -> Result<List<List<MethodFrames>>, Unloaded>
    ensures { Framed (AreFramesOf linked.now) linked.now result }
{
    // What they name is there, so that it has a name of programs.
    let _ = linked.count();
    all_frames(alloc, linked.files())
}
