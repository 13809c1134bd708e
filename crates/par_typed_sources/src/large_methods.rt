//! Bodies of the largest methods: as many nodes and as many locals as a method may have.

use std::alloc::AllocError;

const DIGITS: &[u8] = b"0123456789";

fn push_local(number: &[u8], source: &mut Vec<u8>) -> Result<(), AllocError> {
    source.extend_from_slice(b"int a")?;
    source.extend_from_slice(number)?;
    source.extend_from_slice(b" = ")?;
    source.extend_from_slice(number)?;
    source.extend_from_slice(b";\n")
}

fn push_ten(hundreds: u8, tens: u8, source: &mut Vec<u8>) -> Result<(), AllocError> {
    for ones in DIGITS {
        let number = [hundreds, tens, *ones];
        push_local(number.as_slice(), source)?;
    }
    Ok(())
}

fn push_hundred(hundreds: u8, source: &mut Vec<u8>) -> Result<(), AllocError> {
    for tens in DIGITS {
        push_ten(hundreds, *tens, source)?;
    }
    Ok(())
}

/// A part, so many times.
pub fn push_times(part: &[u8], times: u32, source: &mut Vec<u8>) -> Result<(), AllocError> {
    for _ in 0..times {
        source.extend_from_slice(part)?;
    }
    Ok(())
}

/// As many locals as a method may have, each with the number that its name has; the last is read.
pub fn push_locals(body: &mut Vec<u8>) -> Result<(), AllocError> {
    push_hundred(b'1', body)?;
    push_hundred(b'2', body)?;
    body.extend_from_slice(b"got = a299;")
}

// A declaration of 1 node, an assignment of 2, and below each some signs and a `true`.
fn push_turned(before: &[u8], signs: u32, source: &mut Vec<u8>) -> Result<(), AllocError> {
    source.extend_from_slice(before)?;
    push_times(b"!", signs, source)?;
    source.extend_from_slice(b"true;\n")
}

fn push_all_turned(statements: u32, source: &mut Vec<u8>) -> Result<(), AllocError> {
    for _ in 0..statements {
        push_turned(b"b = ", 60, source)?;
    }
    Ok(())
}

/// Of all nodes `!` has the most items, the most labels and the most frames. The nodes are 1 of the
/// body, 62, 30 times 63, and 47: 1,904 signs with 6 items and 8 bytes each, 32 numbers that are
/// stored, and a return.
pub fn push_signs(body: &mut Vec<u8>) -> Result<(), AllocError> {
    push_turned(b"boolean b = ", 60, body)?;
    push_all_turned(30, body)?;
    push_turned(b"b = ", 44, body)
}
