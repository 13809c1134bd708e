ghost use Rattle.std.specs.Prelude.{◌≡◌};
ghost use Rattle.par_inputs.specs.declared.error.BadInput.TheVariants.{Memory};

use par_base::memory::NoMemory;
use std::alloc::{AllocError, AllocFailed};
use thiserror::Error;

/// Why an input file is refused.
#[derive(Clone, Copy, Debug, PartialEq, Eq, Error)]
pub enum BadInput {
    /// The first wrong line, counted from 1.
    #[error("a line that is no input of a channel, or names a channel again")]
    Line(u32),
    #[error("out of memory")]
    Memory,
}

impl From<AllocError> for BadInput {
    ghost from_gives = { λ _ error. error ≡ Memory };

    fn from(_: AllocError) -> BadInput {
        BadInput::Memory
    }
}

impl<T: Drop> From<AllocFailed<T>> for BadInput {
    ghost from_gives = { λ _ error. error ≡ Memory };

    fn from(_: AllocFailed<T>) -> BadInput {
        BadInput::Memory
    }
}

impl From<NoMemory> for BadInput {
    ghost from_gives = { λ _ error. error ≡ Memory };

    fn from(_: NoMemory) -> BadInput {
        BadInput::Memory
    }
}
