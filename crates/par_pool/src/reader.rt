ghost use Rattle.std.specs.Prelude.{◌≡◌, ◌-◌, ◌&&◌, nat_lt, ◌<◌, ◌≤◌, ℕ, drop, length, IfOk, Ok};
ghost use Rattle.std.specs.Prelude.{IfSome, position, not};
ghost use Rattle.par_pool.specs.declared.constant.Constant.TheVariants.{Class, Text, Field, Method};
ghost use Rattle.par_pool.specs.declared.constant.Constant.TheVariants.{NameType};
ghost use Rattle.std.specs.List.{list_all};
ghost use Rattle.std.specs.Prelude.{List as Items};
ghost use Rattle.par_pool.specs.declared.constant.Constant.{Constant as Entry};
ghost use Rattle.par_pool.specs.declared.error.ClassError.TheVariants.{Cut};
ghost use Rattle.par_pool.specs.Spelling.{IsPoolAt};
ghost use Rattle.par_pool.specs.Reading.{Gives, both, items, u2_at};
ghost use Rattle.par_pool.specs.Constants.{text_at, integer_at, behind_tag, constant_at, pool_at};
ghost use Rattle.par_pool.specs.Constants as constants;

use crate::constant::{Constant, Pool};
use crate::error::ClassError;
use crate::item::{taken, u1, u2, u4};
use crate::kind::refers;
use byteorder::{BigEndian, ByteOrder};
use par_base::list::List;
use std::alloc::Global;

/// The most bytes that a class file may have.
pub const LONGEST_CLASS: usize = 1_048_576;

/// Whether a text has the bytes 1 to 127 alone.
fn is_plain(text: &[u8]) -> bool
    ensures { result ≡ list_all (λ byte. nat_lt 0 byte && nat_lt byte 128) text.now }
{
    text.iter().all(|byte| 0 < *byte && *byte < 128)
}

#[tactic(auto, unfolding(crate::specs::Constants::text_at))]
fn text_of(
    alloc: Global,
    short: ClassError,
    index: u16,
    bytes: &[u8],
) -> Result<(Constant, &[u8]), ClassError>
    ensures { Gives (λ x. (x.0, x.1.now)) result (text_at short index bytes.now) }
{
    let (len, rest) = u2(short, bytes)?;
    let (text, rest) = taken(short, len as usize, rest)?;
    if !is_plain(text) {
        return Err(ClassError::Pool(index));
    }
    let text = List::wrap(Vec::from_slice(alloc, text)?);
    Ok((Constant::Utf8(text), rest))
}

#[tactic(auto, unfolding(crate::specs::Constants::integer_at))]
fn integer_of(short: ClassError, bytes: &[u8]) -> Result<(Constant, &[u8]), ClassError>
    ensures { Gives (λ x. (x.0, x.1.now)) result (integer_at short bytes.now) }
{
    let (number, rest) = u4(short, bytes)?;
    Ok((Constant::Integer(number.cast_signed()), rest))
}

/// The indices of two bytes each.
fn two(short: ClassError, bytes: &[u8]) -> Result<((u16, u16), &[u8]), ClassError>
    ensures { Gives (λ x. (x.0, x.1.now)) result (both (u2_at short) (u2_at short) bytes.now) }
{
    let (first, rest) = u2(short, bytes)?;
    let (second, rest) = u2(short, rest)?;
    Ok(((first, second), rest))
}

/// The constant that stands behind a tag.
#[tactic(auto, unfolding(crate::specs::Constants::one_at, crate::specs::Constants::two_at))]
fn behind_tag(
    alloc: Global,
    short: ClassError,
    index: u16,
    tag: u8,
    bytes: &[u8],
) -> Result<(Constant, &[u8]), ClassError>
    ensures { Gives (λ x. (x.0, x.1.now)) result (behind_tag short index tag bytes.now) }
{
    match tag {
        1 => text_of(alloc, short, index, bytes),
        3 => integer_of(short, bytes),
        7 => {
            let (name, rest) = u2(short, bytes)?;
            Ok((Constant::Class(name), rest))
        }
        8 => {
            let (text, rest) = u2(short, bytes)?;
            Ok((Constant::Text(text), rest))
        }
        9 => {
            let ((class, member), rest) = two(short, bytes)?;
            Ok((Constant::Field(class, member), rest))
        }
        10 => {
            let ((class, member), rest) = two(short, bytes)?;
            Ok((Constant::Method(class, member), rest))
        }
        12 => {
            let ((name, descriptor), rest) = two(short, bytes)?;
            Ok((Constant::NameType(name, descriptor), rest))
        }
        _ => Err(ClassError::Pool(index)),
    }
}

#[tactic(auto, unfolding(crate::specs::Constants::constant_at))]
fn constant_of(
    alloc: Global,
    short: ClassError,
    index: u16,
    bytes: &[u8],
) -> Result<(Constant, &[u8]), ClassError>
    ensures { Gives (λ x. (x.0, x.1.now)) result (constant_at short index bytes.now) }
{
    let (tag, rest) = u1(short, bytes)?;
    behind_tag(alloc, short, index, tag, rest)
}

/// The constants behind their number, which is one more than there are.
fn constants_of(
    alloc: Global,
    short: ClassError,
    number: u16,
    bytes: &[u8],
) -> Result<(Vec<Constant>, &[u8]), ClassError>
    ensures read { Gives (λ x. (x.0.items, x.1.now)) result
        (items (constant_at short) (number - 1) 1 bytes.now) }
    ensures few { IfOk result (λ x. length x.0.items < 65535) }
{
    let mut constants = Vec::new(alloc);
    let mut rest = bytes;
    for index in 1..number {
        let (constant, after) = constant_of(alloc, short, index, rest)?;
        constants.push(constant)?;
        rest = after;
    }
    Ok((constants, rest))
}

/// The place of the first constant that has an index of the wrong kind.
fn first_astray(entries: &[Constant]) -> Option<usize>
    ensures first { result ≡ constants.first_astray entries.now }
    ensures place { IfSome result (λ place. place < length entries.now) }
{
    entries
        .iter()
        .position(|constant| !refers(entries, constant))
}

/// The constants of a pool at the head of some bytes, and the bytes behind it.
#[tactic(auto, unfolding(crate::specs::Constants::pool_at))]
pub fn entries_of(
    alloc: Global,
    short: ClassError,
    bytes: &[u8],
) -> Result<(Vec<Constant>, &[u8]), ClassError>
    ensures { Gives (λ x. (x.0.items, x.1.now)) result (pool_at short bytes.now) }
{
    let (number, rest) = u2(short, bytes)?;
    if number == 0 {
        return Err(ClassError::Pool(0));
    }
    let (entries, rest) = constants_of(alloc, short, number, rest)?;
    if let Some(place) = first_astray(&entries) {
        return Err(ClassError::Pool(place as u16 + 1));
    }
    Ok((entries, rest))
}

/// The pool from an offset on, with the offset behind it.
fn located(alloc: Global, bytes: &[u8], from: usize) -> Result<(Pool, usize), ClassError>
    requires placed { from ≤ length bytes.now }
    requires small { length bytes.now ≤ LONGEST_CLASS }
    ensures within { IfOk result (λ read. read.1 ≤ length bytes.now) }
    ensures exact { Gives {Y = Items Entry × Items ℕ}
        (λ read. (read.0.entries, drop read.1 bytes.now)) result
        (pool_at (Cut (length bytes.now)) (drop from bytes.now)) }
{
    let short = ClassError::Cut(bytes.len() as u32);
    let (_, behind) = bytes.split_at(from);
    let (entries, rest) = entries_of(alloc, short, behind)?;
    let pool = Pool {
        entries: List::wrap(entries),
    };
    Ok((pool, bytes.len() - rest.len()))
}

/// The pool that stands in a class file from an offset on, with the offset behind it.
///
/// A refusal is the first from the left: `Cut` with the length of the file, or `Pool` with the
/// index of a constant of another form, or of index 0 where there is no number of constants. When
/// all of them are read, `Pool` has the first index whose constant refers to a wrong kind.
pub fn read_pool(alloc: Global, bytes: &[u8], from: usize) -> Result<(Pool, usize), ClassError>
    requires placed { from ≤ length bytes.now }
    requires small { length bytes.now ≤ LONGEST_CLASS }
    ensures found { IfOk result (λ read.
        IsPoolAt (drop from bytes.now) read.0.entries (drop read.1 bytes.now)) }
    ensures within { IfOk result (λ read. read.1 ≤ length bytes.now) }
    ensures only { (entries : Items Entry) (rest : Items ℕ) →
        IsPoolAt (drop from bytes.now) entries rest →
        Gives {Y = Items Entry × Items ℕ}
        (λ read. (read.0.entries, drop read.1 bytes.now)) result
        (Ok (entries, rest)) }
    ensures exact { Gives (λ read. (read.0.entries, drop read.1 bytes.now)) result
        (pool_at (Cut (length bytes.now)) (drop from bytes.now)) }
{
    located(alloc, bytes, from)
}
