//! A look at the frames of linked class files.

ghost use Rattle.std.specs.Prelude.{length, IfOk};
ghost use Rattle.std.specs.List.{All};
ghost use Rattle.par_base.specs.Names.{IsName};
ghost use Rattle.par_single.specs.Members as members;
ghost use Rattle.par_link.specs.Conditions.{IsSmall};
ghost use Rattle.par_loader.specs.Ends.{IsBadAs};
ghost use Rattle.par_framed_program.specs.Framed.{AreFramed, Framed};

use par_base::name::Name;
use par_class::file::ClassFile;
use par_given_frames::{UNFRAMED, first_unframed};
use par_link::Linked;
use par_loader::Unloaded;
use par_single::member::own_name;
use std::alloc::Global;

/// What is told of a class with a method that has no frames.
pub(crate) fn unframed(alloc: Global, file: &ClassFile, method: u32) -> Unloaded
    requires { IsName (members.own_name file.now) }
    ensures { IsBadAs (members.own_name file.now) UNFRAMED method result }
{
    match Name::new(alloc, own_name(file)) {
        Ok(class) => Unloaded::BadClass {
            class,
            number: UNFRAMED,
            value: method,
        },
        Err(_) => Unloaded::Memory,
    }
}

/// Looks at the frames of each of some class files.
fn all_framed(alloc: Global, files: &[ClassFile]) -> Result<(), Unloaded>
    requires small { All IsSmall files.now }
    requires named { All (λ file. IsName (members.own_name file)) files.now }
    ensures { Framed (λ _. AreFramed files.now) files.now result }
{
    for place in 0..files.len() {
        let file = &files[place];
        if let Some(method) = first_unframed(alloc, file)? {
            return Err(unframed(alloc, file, method));
        }
    }
    Ok(())
}

/// Looks for the first method that has no frames, files in their order. No frame is kept, so that
/// the work and the memory grow as the files do.
pub fn framed(alloc: Global, linked: &Linked) -> Result<(), Unloaded>
    ensures { Framed (λ _. AreFramed linked.now) linked.now result }
{
    // Linked files are small, and their classes have names.
    let _ = linked.count();
    all_framed(alloc, linked.files())
}
