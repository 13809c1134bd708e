ghost use Rattle.std.specs.Prelude.{◌≡◌, ◌+◌, ◌≤◌, IfOk, IsTrue, find, length, take, take_while};
ghost use Rattle.std.specs.Prelude.{drop};
ghost use Rattle.std.specs.List.{prefix_len};
ghost use Rattle.std.specs.Str.{bytes_eq};
ghost use Rattle.par_base.specs.Names.{IsName, is_letter, is_digit, goes_on};
ghost use Rattle.par_lexer.specs.Blanks.{first_is};
ghost use Rattle.par_lexer.specs.Tables.{words};
ghost use Rattle.par_lexer.specs.Pieces.{comment_at, through_close, named, name_at, number_at};
ghost use Rattle.par_lexer.specs.Pieces.{sign_at, longest_sign, piece_at};

use crate::bytes::{begins_gap, begins_name, begins_number};
use crate::cut::LONGEST_SOURCE;
use crate::piece::Piece;
use crate::runs::{digits_length, line_length, name_length, through_close};
use crate::table::{sign_of, word_of};
use crate::token::{Kind, LexError};
use par_base::memory::NoMemory;
use par_base::name::{LONGEST, Name};
use par_base::numbers::{has_leading_zero, value_of};
use std::alloc::Global;

// The greatest number that a source may write.
const GREATEST: u32 = 2_147_483_648;

// The comment that the bytes begin with.
fn comment_at(at: u32, bytes: &[u8]) -> Piece
    requires { 2 ≤ length bytes.now }
    ensures { result ≡ comment_at at (through_close (drop 2 bytes.now)) }
{
    let (_, rest) = bytes.split_at(2);
    match through_close(rest) {
        None => Piece::Fault(LexError::OpenComment(at)),
        Some(length) => Piece::Gap(length + 2),
    }
}

// A reserved word, or else a name.
fn kind_of(alloc: Global, text: &[u8]) -> Result<Kind, NoMemory>
    requires { IsName text.now }
    ensures { IfOk result (λ kind. kind
        ≡ named text.now (find (λ row. bytes_eq row.1 text.now) words)) }
{
    match word_of(text) {
        None => Ok(Kind::Name(Name::new(alloc, text)?)),
        Some(number) => Ok(Kind::Word(number)),
    }
}

// The name or word that the bytes begin with.
fn name_at(alloc: Global, at: u32, bytes: &[u8]) -> Result<Piece, NoMemory>
    requires { IsTrue (first_is is_letter bytes.now) }
    ensures { IfOk result (λ piece. piece ≡ name_at at (take_while goes_on bytes.now)) }
{
    let (text, _) = bytes.split_at(name_length(bytes));
    if text.len() > LONGEST {
        return Ok(Piece::Fault(LexError::NameTooLong(at)));
    }
    Ok(Piece::Token(kind_of(alloc, text)?, text.len()))
}

// The number that the bytes begin with.
fn number_at(at: u32, bytes: &[u8]) -> Piece
    requires { at + length bytes.now ≤ LONGEST_SOURCE }
    ensures { let digits = prefix_len is_digit bytes.now in
        result ≡ number_at at (take digits bytes.now) (drop digits bytes.now) }
{
    let (digits, behind) = bytes.split_at(digits_length(bytes));
    if has_leading_zero(digits) {
        return Piece::Fault(LexError::BadByte(at));
    }
    let Some(value) = value_of(digits, GREATEST) else {
        return Piece::Fault(LexError::NumberTooLarge(at));
    };
    if begins_name(behind) {
        return Piece::Fault(LexError::BadByte(at + digits.len() as u32));
    }
    Piece::Token(Kind::Number(value), digits.len())
}

// The longest sign that the bytes begin with.
fn sign_at(at: u32, bytes: &[u8]) -> Piece
    ensures { result ≡ sign_at at (longest_sign bytes.now) }
{
    match sign_of(bytes) {
        None => Piece::Fault(LexError::BadByte(at)),
        Some((number, length)) => Piece::Token(Kind::Sign(number), length),
    }
}

// What stands at the head of these bytes, the first of which is at a place of the source.
#[tactic(auto, unfolding(crate::specs::Pieces::piece_at))]
pub fn piece_at(alloc: Global, at: u32, bytes: &[u8]) -> Result<Piece, NoMemory>
    requires { at + length bytes.now ≤ LONGEST_SOURCE }
    ensures { IfOk result (λ piece. piece ≡ piece_at at bytes.now) }
{
    if bytes.is_empty() {
        Ok(Piece::End)
    } else if begins_gap(bytes) {
        Ok(Piece::Gap(1))
    } else if bytes.starts_with(b"//") {
        Ok(Piece::Gap(line_length(bytes)))
    } else if bytes.starts_with(b"/*") {
        Ok(comment_at(at, bytes))
    } else if begins_name(bytes) {
        name_at(alloc, at, bytes)
    } else if begins_number(bytes) {
        Ok(number_at(at, bytes))
    } else {
        Ok(sign_at(at, bytes))
    }
}
