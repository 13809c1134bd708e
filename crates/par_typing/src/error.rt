ghost use Rattle.std.specs.Prelude.{◌≡◌};
ghost use Rattle.par_typing.specs.declared.error.TypeError.TheVariants.{Memory};

use par_lexer::memory::NoMemory;
use par_refusals::refusal::Refusal;
use std::alloc::{AllocError, AllocFailed};
use thiserror::Error;

/// Why a program has no typed bodies.
#[derive(Clone, Copy, Debug, PartialEq, Eq, Error)]
pub enum TypeError {
    /// The first broken rule: the one at the least place, and there the least rule.
    #[error("a rule on types is broken")]
    Broken(Refusal),
    #[error("out of memory")]
    Memory,
}

impl From<NoMemory> for TypeError {
    ghost from_gives = { λ _ error. error ≡ Memory };

    fn from(_: NoMemory) -> TypeError {
        TypeError::Memory
    }
}

impl From<AllocError> for TypeError {
    ghost from_gives = { λ _ error. error ≡ Memory };

    fn from(_: AllocError) -> TypeError {
        TypeError::Memory
    }
}

impl<T: Drop> From<AllocFailed<T>> for TypeError {
    ghost from_gives = { λ _ error. error ≡ Memory };

    fn from(_: AllocFailed<T>) -> TypeError {
        TypeError::Memory
    }
}
