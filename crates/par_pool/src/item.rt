//! Numbers and bytes, which every item of a class file is made of.

ghost use Rattle.std.specs.Prelude.{◌≡◌, Bool, IfErr};
ghost use Rattle.par_pool.specs.Reading.{Gives, u1_at, u2_at, u4_at, bytes_at};

use crate::error::ClassError;
use byteorder::{BigEndian, ByteOrder};

/// The first byte, and the bytes behind it. Where there is none the refusal is `short`.
#[tactic(auto, unfolding(crate::specs::Reading::u1_at))]
pub fn u1(short: ClassError, bytes: &[u8]) -> Result<(u8, &[u8]), ClassError>
    ensures read { Gives (λ x. (x.0, x.1.now)) result (u1_at short bytes.now) }
    ensures fault { IfErr result (λ e. e ≡ short) }
{
    match bytes {
        [] => Err(short),
        [first, rest @ ..] => Ok((*first, rest)),
    }
}

/// The number of the first two bytes, and the bytes behind it.
#[tactic(auto, unfolding(crate::specs::Reading::number_at))]
pub fn u2(short: ClassError, bytes: &[u8]) -> Result<(u16, &[u8]), ClassError>
    ensures read { Gives (λ x. (x.0, x.1.now)) result (u2_at short bytes.now) }
    ensures fault { IfErr result (λ e. e ≡ short) }
{
    if bytes.len() < 2 {
        return Err(short);
    }
    Ok((BigEndian::read_u16(bytes), &bytes[2..]))
}

/// The number of the first four bytes, and the bytes behind it.
#[tactic(auto, unfolding(crate::specs::Reading::number_at))]
pub fn u4(short: ClassError, bytes: &[u8]) -> Result<(u32, &[u8]), ClassError>
    ensures read { Gives (λ x. (x.0, x.1.now)) result (u4_at short bytes.now) }
    ensures fault { IfErr result (λ e. e ≡ short) }
{
    if bytes.len() < 4 {
        return Err(short);
    }
    Ok((BigEndian::read_u32(bytes), &bytes[4..]))
}

/// The first `len` bytes, and the bytes behind them.
#[tactic(auto, unfolding(crate::specs::Reading::bytes_at))]
pub fn taken(short: ClassError, len: usize, bytes: &[u8]) -> Result<(&[u8], &[u8]), ClassError>
    ensures read { Gives (λ x. (x.0.now, x.1.now)) result (bytes_at short len bytes.now) }
    ensures fault { IfErr result (λ e. e ≡ short) }
{
    if bytes.len() < len {
        return Err(short);
    }
    Ok(bytes.split_at(len))
}
