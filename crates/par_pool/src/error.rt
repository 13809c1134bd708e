ghost use Rattle.std.specs.Prelude.{◌≡◌};
ghost use Rattle.par_pool.specs.declared.error.ClassError.TheVariants.{Memory};

use par_base::memory::NoMemory;
use std::alloc::{AllocError, AllocFailed};
use thiserror::Error;

/// Why bytes are no class file of this profile.
#[derive(Clone, Copy, Debug, PartialEq, Eq, Error)]
pub enum ClassError {
    /// The first four bytes are not those of a class file.
    #[error("no class file")]
    Magic,
    /// The major version is not one of those that are read.
    #[error("a version that is not supported")]
    Version(u16),
    /// The file, of so many bytes, ends inside an item or before one that must come.
    #[error("a class file that is cut off")]
    Cut(u32),
    /// The constant of this index is not of a known form, or refers to one of the wrong kind.
    #[error("a faulty constant")]
    Pool(u16),
    /// An index at this offset is not of the kind that its place needs.
    #[error("an index of the wrong kind")]
    Index(u32),
    /// Bytes stand behind the last attribute, from this offset on.
    #[error("bytes after the end")]
    Extra(u32),
    /// The item at this offset has not the shape that the profile asks for.
    #[error("an item of the wrong shape")]
    Shape(u32),
    #[error("out of memory")]
    Memory,
}

impl From<AllocError> for ClassError {
    ghost from_gives = { λ _ error. error ≡ Memory };

    fn from(_: AllocError) -> ClassError {
        ClassError::Memory
    }
}

impl<T: Drop> From<AllocFailed<T>> for ClassError {
    ghost from_gives = { λ _ error. error ≡ Memory };

    fn from(_: AllocFailed<T>) -> ClassError {
        ClassError::Memory
    }
}

impl From<NoMemory> for ClassError {
    ghost from_gives = { λ _ error. error ≡ Memory };

    fn from(_: NoMemory) -> ClassError {
        ClassError::Memory
    }
}
