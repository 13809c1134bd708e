ghost use Rattle.std.specs.Prelude.{◌≡◌};
ghost use Rattle.par_link.specs.declared.error.LinkError.TheVariants.{Memory};

use par_index::par_base::memory::NoMemory;
use std::alloc::{AllocError, AllocFailed};
use thiserror::Error;

/// Why class files are not linked.
#[derive(Clone, Copy, Debug, PartialEq, Eq, Error)]
pub enum LinkError {
    /// A rule is broken: its number, the place of the file in the list, and the index of what
    /// breaks it.
    #[error("a rule of linking is broken")]
    Broken { number: u16, class: u16, index: u32 },
    #[error("out of memory")]
    Memory,
}

impl From<AllocError> for LinkError {
    ghost from_gives = { λ _ error. error ≡ Memory };

    fn from(_: AllocError) -> LinkError {
        LinkError::Memory
    }
}

impl<T: Drop> From<AllocFailed<T>> for LinkError {
    ghost from_gives = { λ _ error. error ≡ Memory };

    fn from(_: AllocFailed<T>) -> LinkError {
        LinkError::Memory
    }
}

impl From<NoMemory> for LinkError {
    ghost from_gives = { λ _ error. error ≡ Memory };

    fn from(_: NoMemory) -> LinkError {
        LinkError::Memory
    }
}
