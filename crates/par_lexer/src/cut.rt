ghost use Rattle.std.specs.Prelude.{◌≡◌, ◌↔◌, ◌<◌, ◌≤◌, IfOk, IfErr, IsErrOf, length, drop};
ghost use Rattle.par_lexer.specs.Pieces.{piece_at};
ghost use Rattle.par_lexer.specs.Spans.{Reaches, IsLaid};
ghost use Rattle.par_lexer.specs.Tokens.{HasTokens, IsRefusal, IsPlaced};

use crate::piece::Piece;
use crate::scan::piece_at;
use crate::token::{LexError, Token};
use par_base::list::List;
use par_base::memory::NoMemory;
use std::alloc::Global;

/// The most bytes that a source may have.
pub const LONGEST_SOURCE: usize = 262_144;

// The piece that stands at a place of a source.
fn next_piece(alloc: Global, source: &[u8], at: u32) -> Result<Piece, NoMemory>
    requires inside { at ≤ length source.now }
    requires short { length source.now ≤ LONGEST_SOURCE }
    ensures piece { IfOk result (λ piece. piece ≡ piece_at at (drop at source.now)) }
    ensures reach { IfOk result (Reaches at (drop at source.now)) }
{
    let (_, rest) = source.split_at(at as usize);
    piece_at(alloc, at, rest)
}

/// Cuts a source into its tokens, in the order in which they stand. Blanks and comments leave
/// none, and the empty source has no token.
pub fn lex(alloc: Global, source: &[u8]) -> Result<List<Token>, LexError>
    ensures ok { IfOk result (HasTokens source.now) }
    ensures laid { IfOk result (IsLaid source.now) }
    ensures too_long { IsErrOf result (LexError.SourceTooLong (length source.now))
        ↔ (LONGEST_SOURCE < length source.now) }
    ensures refused { IfErr result (IsRefusal source.now) }
    ensures placed { IfErr result (IsPlaced source.now) }
{
    if source.len() > LONGEST_SOURCE {
        return Err(LexError::SourceTooLong(source.len() as u64));
    }
    let mut tokens = List::new(alloc);
    let mut at = 0;
    'pieces: loop {
        match next_piece(alloc, source, at)? {
            Piece::End => return Ok(tokens),
            Piece::Gap(length) => at += length as u32,
            Piece::Token(kind, length) => {
                let to = at + length as u32;
                tokens.push(Token { kind, from: at, to })?;
                at = to;
            }
            Piece::Fault(error) => return Err(error),
        }
    }
}
