use crate::token::{Kind, LexError};

/// What stands at the head of the bytes that are left of a source.
#[derive(Drop)]
pub enum Piece {
    /// No byte is left.
    End,
    /// A blank or a comment, of so many bytes.
    Gap(usize),
    /// A token of this kind, of so many bytes.
    Token(Kind, usize),
    /// The first fault of the source.
    Fault(LexError),
}
