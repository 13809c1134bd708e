ghost use Rattle.std.specs.Prelude.{◌≡◌};
ghost use Rattle.par_reader.specs.declared.error.ParseError.TheVariants.{Memory};

use par_grammar::par_base::memory::NoMemory;
use std::alloc::{AllocError, AllocFailed};
use thiserror::Error;

/// Why tokens are no sentence. The number is that of the token at fault, counted from 0; at the end
/// of the tokens it is how many there are.
#[derive(Clone, Copy, Debug, PartialEq, Eq, Error)]
pub enum ParseError {
    /// No alternative of the grammar applies.
    #[error("a token that fits nowhere in the grammar")]
    Syntax(u32),
    /// The token nests deeper than 64.
    #[error("a token that nests deeper than 64")]
    TooDeep(u32),
    #[error("out of memory")]
    Memory,
}

impl From<NoMemory> for ParseError {
    ghost from_gives = { λ _ error. error ≡ Memory };

    fn from(_: NoMemory) -> ParseError {
        ParseError::Memory
    }
}

impl From<AllocError> for ParseError {
    ghost from_gives = { λ _ error. error ≡ Memory };

    fn from(_: AllocError) -> ParseError {
        ParseError::Memory
    }
}

impl<T: Drop> From<AllocFailed<T>> for ParseError {
    ghost from_gives = { λ _ error. error ≡ Memory };

    fn from(_: AllocFailed<T>) -> ParseError {
        ParseError::Memory
    }
}
