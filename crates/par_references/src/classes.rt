//! The names of the classes of some files, each found by the first file whose class has it.

ghost use Rattle.std.specs.Prelude.{◌≡◌, ◌<◌, ◌^◌, length, position, IfOk};
ghost use Rattle.par_index.specs.Firsts.{AreFirst};
ghost use Rattle.par_index.specs.Texts.{texts, same_text};
ghost use Rattle.par_single.specs.Members.{own_name, own_names};
ghost use Rattle.par_single.specs.Described.{is_taken};
ghost use Rattle.par_references.specs.Named.{class_place};
ghost use Rattle.par_references.specs.Twice.{earlier, repeated_class};

use crate::places::{first_repeated, narrow};
use par_index::Firsts;
use par_index::par_base::memory::NoMemory;
use par_single::member::{is_taken, own_name};
use par_single::par_class::file::ClassFile;
use std::alloc::Global;

/// The classes of some files.
#[derive(Drop)]
pub(crate) struct Classes<'f> {
    pub(crate) files: &'f [ClassFile],
    names: Vec<&'f [u8]>,
    firsts: Firsts<&'f [u8]>,
    ghost few: { length files.now < 2 ^ 16 },
    ghost named: { texts names.items ≡ own_names files.now },
    ghost placed: { AreFirst same_text names.items firsts },
}

/// The names of the classes of some files.
fn class_names(alloc: Global, files: &[ClassFile]) -> Result<Vec<&[u8]>, NoMemory>
    ensures { IfOk result (λ names. texts names.items ≡ own_names files.now) }
{
    let mut names = Vec::new(alloc);
    for file in files {
        names.push(own_name(file))?;
    }
    Ok(names)
}

/// The place of the first file whose class has the name of one that every program has.
fn taken_class(files: &[ClassFile]) -> Option<usize>
    ensures { result ≡ position (λ file. is_taken (own_name file)) files.now }
{
    files.iter().position(|file| is_taken(own_name(file)))
}

/// The earlier of two places.
fn earlier(place: Option<usize>, other: Option<usize>) -> Option<usize>
    ensures { result ≡ earlier place other }
{
    match (place, other) {
        (Some(place), Some(other)) => Some(place.min(other)),
        (place, None) => place,
        (None, other) => other,
    }
}

impl<'f> Classes<'f> {
    /// The classes of these files.
    pub(crate) fn of(alloc: Global, files: &'f [ClassFile]) -> Result<Classes<'f>, NoMemory>
        requires { length files.now < 2 ^ 16 }
        ensures { IfOk result (λ classes. classes.files.now ≡ files.entry.now) }
    {
        let names = class_names(alloc, files)?;
        let firsts = Firsts::of(alloc, names.as_slice())?;
        Ok(Classes {
            files,
            names,
            firsts,
        })
    }

    /// The place of the first file of a class.
    pub(crate) fn place(&self, name: &[u8]) -> Option<u16>
        ensures { result ≡ class_place self.now.files.now name.now }
    {
        narrow(self.firsts.place(&name))
    }

    /// The place of the first file whose class has a name that is taken, or that of an earlier
    /// file.
    pub(crate) fn repeated(&self) -> Option<u16>
        ensures { result ≡ repeated_class self.now.files.now }
    {
        let repeated = first_repeated(&self.firsts, self.names.as_slice());
        narrow(earlier(taken_class(self.files), repeated))
    }
}
