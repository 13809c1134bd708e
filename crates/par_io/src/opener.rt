ghost use Rattle.std.specs.Prelude.{◌≡◌, List, ℕ, Option};
ghost use Rattle.std.specs.Result.{result_ok};
ghost use Rattle.std.specs.declared.fs.options.OpenOptions.{OpenOptions};
ghost use Rattle.par_io.specs.Opening.{for_reading, for_writing};

use std::fs::OpenOptions;
use std::io;
use std::io::{Read, Write};
use std::rt::Files;

/// What opens files, by how it is asked to and by their names.
pub trait Opener {
    /// An open file.
    type File: Read + Write + Drop;

    /// What it may give, a file or none, where it is asked so for a file of this name.
    ghost gives: { Self → OpenOptions → List ℕ → Option Self.File → Type 0 };

    /// Opens a file of this name so.
    fn open(&self, how: &OpenOptions, name: &str) -> io::Result<Self::File>
        ensures { gives self.now how.now name.now (result_ok result) };
}

/// The files of a system, of which nothing can be said.
impl<R: Files> Opener for R {
    type File = R::File;

    ghost gives = { λ _ _ _ _. Unit {0} };

    fn open(&self, how: &OpenOptions, name: &str) -> io::Result<R::File> {
        how.open(self, name)
    }
}

// A file that is there, to be read.
pub(crate) fn to_read() -> OpenOptions
    ensures { result ≡ for_reading }
{
    let mut how = OpenOptions::new();
    how.read(true);
    how
}

// A file to be written, which is made, or cut off where it is there.
pub(crate) fn to_write() -> OpenOptions
    ensures { result ≡ for_writing }
{
    let mut how = OpenOptions::new();
    how.write(true).create(true).truncate(true);
    how
}
