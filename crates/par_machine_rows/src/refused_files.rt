//! Class files that the runner refuses, with the number and the value that it tells of each.

use crate::hand_made::files_run_as;
use par_io::{MemFolder, NoMemory};
use par_row_calls::{Answer, KEY_42, SHOWS_KEY, compiled, with_body};
use par_worked::expect;
use std::alloc::{AllocError, Global};
use std::test::Fail;

/// Whether the runner has this answer to a class file of these bytes, and an empty input file.
fn is_told(
    alloc: Global,
    name: &str,
    command: &str,
    bytes: &[u8],
    answer: Answer,
) -> Result<bool, NoMemory> {
    files_run_as(alloc, &[(name, bytes)], command, answer)
}

fn is_told_of_shop(alloc: Global, bytes: &[u8], answer: Answer) -> Result<bool, NoMemory> {
    is_told(
        alloc,
        "Shop.class",
        "paragon Shop in.txt 1000",
        bytes,
        answer,
    )
}

fn is_told_of_a(alloc: Global, bytes: &[u8], answer: Answer) -> Result<bool, NoMemory> {
    is_told(alloc, "A.class", "paragon A in.txt 1000", bytes, answer)
}

/// The bytes with another one at a place.
fn with_byte(alloc: Global, bytes: &[u8], place: usize, byte: u8) -> Result<Vec<u8>, AllocError> {
    let mut changed = Vec::new(alloc);
    for (at, old) in bytes.iter().enumerate() {
        changed.push(if at == place { byte } else { *old })?;
    }
    Ok(changed)
}

/// The bytes with one more behind them.
fn with_more(alloc: Global, bytes: &[u8]) -> Result<Vec<u8>, AllocError> {
    let mut more = bytes.to_vec(alloc)?;
    more.push(0)?;
    Ok(more)
}

/// The class file that the common source has.
fn written(alloc: Global) -> Result<MemFolder, NoMemory> {
    let source = with_body(alloc, SHOWS_KEY)?;
    compiled(alloc, source.as_str(), KEY_42)
}

/// What is told of so many bytes of it.
const CUTS: &[(usize, Answer)] = &[
    (0, ("bad class Shop 32 0\n", 12)),
    (3, ("bad class Shop 32 3\n", 12)),
    (4, ("bad class Shop 32 4\n", 12)),
    (9, ("bad class Shop 32 9\n", 12)),
    (10, ("bad class Shop 32 10\n", 12)),
    (100, ("bad class Shop 32 100\n", 12)),
    (238, ("bad class Shop 32 238\n", 12)),
];

fn cut_is_told(alloc: Global, length: usize, answer: Answer) -> Result<bool, NoMemory> {
    let folder = written(alloc)?;
    let front = folder
        .get("Shop.class")
        .and_then(|bytes| bytes.get(..length));
    match front {
        Some(front) => is_told_of_shop(alloc, front, answer),
        None => Ok(false),
    }
}

#[test]
fn cut_files_are_told_with_their_length(rt: HostRuntime) -> Result<(), Fail> {
    for (length, answer) in CUTS {
        expect(cut_is_told(rt.alloc(), *length, *answer)?, answer.0)?;
    }
    Ok(())
}

fn more_is_told(alloc: Global) -> Result<bool, NoMemory> {
    let folder = written(alloc)?;
    match folder.get("Shop.class") {
        Some(bytes) => {
            let more = with_more(alloc, bytes)?;
            is_told_of_shop(alloc, more.as_slice(), ("bad class Shop 35 239\n", 12))
        }
        None => Ok(false),
    }
}

fn other_magic_is_told(alloc: Global) -> Result<bool, NoMemory> {
    let folder = written(alloc)?;
    match folder.get("Shop.class") {
        Some(bytes) => {
            let changed = with_byte(alloc, bytes, 0, 0)?;
            is_told_of_shop(alloc, changed.as_slice(), ("bad class Shop 30 0\n", 12))
        }
        None => Ok(false),
    }
}

#[test]
fn written_files_are_told_where_they_are_changed(rt: HostRuntime) -> Result<(), Fail> {
    expect(more_is_told(rt.alloc())?, "one byte more")?;
    expect(other_magic_is_told(rt.alloc())?, "its first byte is 0")
}

/// A class A without members.
const A: &[u8] = &[
    0xca, 0xfe, 0xba, 0xbe, 0, 0, 0, 0x31, 0, 5, 1, 0, 1, b'A', 7, 0, 1, 1, 0, 16, b'j', b'a',
    b'v', b'a', b'/', b'l', b'a', b'n', b'g', b'/', b'O', b'b', b'j', b'e', b'c', b't', 7, 0, 3, 0,
    0x31, 0, 2, 0, 4, 0, 0, 0, 0, 0, 0, 0, 0,
];

/// What is told of it with another byte at a place. At place 0 it is itself.
const CHANGES_OF_A: &[(usize, u8, Answer)] = &[
    (0, 0xca, ("bad class A 42 0\n", 12)),
    (42, 3, ("bad class A 34 41\n", 12)),
    (44, 2, ("bad class A 36 43\n", 12)),
    (46, 1, ("bad class A 36 45\n", 12)),
    (9, 0, ("bad class A 33 0\n", 12)),
    (10, 2, ("bad class A 33 1\n", 12)),
    (7, 52, ("bad class A 31 52\n", 12)),
];

fn change_of_a_is_told(
    alloc: Global,
    place: usize,
    byte: u8,
    answer: Answer,
) -> Result<bool, NoMemory> {
    let changed = with_byte(alloc, A, place, byte)?;
    is_told_of_a(alloc, changed.as_slice(), answer)
}

#[test]
fn files_without_members_are_told(rt: HostRuntime) -> Result<(), Fail> {
    for (place, byte, answer) in CHANGES_OF_A {
        let is_told = change_of_a_is_told(rt.alloc(), *place, *byte, *answer)?;
        expect(is_told, answer.0)?;
    }
    Ok(())
}

fn more_of_a_is_told(alloc: Global, answer: Answer) -> Result<bool, NoMemory> {
    let more = with_more(alloc, A)?;
    is_told_of_a(alloc, more.as_slice(), answer)
}

#[test]
fn a_longer_file_without_members_is_told(rt: HostRuntime) -> Result<(), Fail> {
    let is_told = more_of_a_is_told(rt.alloc(), ("bad class A 35 53\n", 12))?;
    expect(is_told, "one byte more")
}

/// A class Shop, whose `main` pushes a 0 and returns. Its last constant names the class itself.
const SHOP: &[u8] = &[
    0xca, 0xfe, 0xba, 0xbe, 0, 0, 0, 0x31, 0, 9, 1, 0, 4, b'S', b'h', b'o', b'p', 7, 0, 1, 1, 0,
    16, b'j', b'a', b'v', b'a', b'/', b'l', b'a', b'n', b'g', b'/', b'O', b'b', b'j', b'e', b'c',
    b't', 7, 0, 3, 1, 0, 4, b'm', b'a', b'i', b'n', 1, 0, 3, b'(', b')', b'V', 1, 0, 4, b'C', b'o',
    b'd', b'e', 7, 0, 1, 0, 0x31, 0, 2, 0, 4, 0, 0, 0, 0, 0, 1, 0, 9, 0, 5, 0, 6, 0, 1, 0, 7, 0, 0,
    0, 14, 0, 2, 0, 0, 0, 0, 0, 2, 3, 0xb1, 0, 0, 0, 0, 0, 0,
];

/// What is told of it with another byte at a place. At place 0 it is itself.
const CHANGES_OF_SHOP: &[(usize, u8, Answer)] = &[
    (0, 0xca, ("end\n", 0)),
    (99, 0, ("bad class Shop 20 0\n", 12)),
    (48, b'd', ("bad class Shop 42 0\n", 12)),
    (16, b'w', ("bad class Shop 40 0\n", 12)),
    (64, 5, ("bad class Shop 40 8\n", 12)),
];

fn change_of_shop_is_told(
    alloc: Global,
    place: usize,
    byte: u8,
    answer: Answer,
) -> Result<bool, NoMemory> {
    let changed = with_byte(alloc, SHOP, place, byte)?;
    is_told_of_shop(alloc, changed.as_slice(), answer)
}

#[test]
fn files_that_do_not_link_are_told(rt: HostRuntime) -> Result<(), Fail> {
    for (place, byte, answer) in CHANGES_OF_SHOP {
        let is_told = change_of_shop_is_told(rt.alloc(), *place, *byte, *answer)?;
        expect(is_told, answer.0)?;
    }
    Ok(())
}
