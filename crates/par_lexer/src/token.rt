ghost use Rattle.std.specs.Prelude.{◌≡◌};
ghost use Rattle.par_lexer.specs.declared.token.LexError.TheVariants.{Memory};

use par_base::memory::NoMemory;
use par_base::name::Name;
use std::alloc::{AllocError, AllocFailed};
use thiserror::Error;

/// What a token is.
#[derive(Drop)]
pub enum Kind {
    /// A reserved word, by its number in `word`.
    Word(u8),
    /// A name that is no reserved word.
    Name(Name),
    /// A number, at most 2147483648.
    Number(u32),
    /// An operator or a mark of punctuation, by its number in `sign`.
    Sign(u8),
}

/// A token of a source, whose text is the bytes from `from` to before `to`.
#[derive(Drop)]
pub struct Token {
    pub kind: Kind,
    pub from: u32,
    pub to: u32,
}

/// Why a source has no tokens. The number is the place of the first fault, as an offset into the
/// source, but for `SourceTooLong` the length of the source in bytes.
#[derive(Clone, Copy, Debug, PartialEq, Eq, Error)]
pub enum LexError {
    #[error("a byte that begins no token")]
    BadByte(u32),
    #[error("a number above 2147483648")]
    NumberTooLarge(u32),
    #[error("a comment without an end")]
    OpenComment(u32),
    #[error("a name of more than 64 bytes")]
    NameTooLong(u32),
    #[error("a source of more than 262144 bytes")]
    SourceTooLong(u64),
    #[error("out of memory")]
    Memory,
}

impl From<AllocError> for LexError {
    ghost from_gives = { λ _ error. error ≡ Memory };

    fn from(_: AllocError) -> LexError {
        LexError::Memory
    }
}

impl<T: Drop> From<AllocFailed<T>> for LexError {
    ghost from_gives = { λ _ error. error ≡ Memory };

    fn from(_: AllocFailed<T>) -> LexError {
        LexError::Memory
    }
}

impl From<NoMemory> for LexError {
    ghost from_gives = { λ _ error. error ≡ Memory };

    fn from(_: NoMemory) -> LexError {
        LexError::Memory
    }
}
