//! Class files that the runner takes apart, loads and links, and what it tells of them.

use crate::hand_made::files_run_as;
use par_io::{MemFolder, NoMemory};
use par_row_calls::{Answer, answers};
use par_worked::expect;
use std::alloc::{AllocError, Global};
use std::test::Fail;

/// A class Shop with the static fields `x` `I` and `x` `Z`, a `main`, an output channel `put` and a
/// method `put` `()V`. Constant 16 names the first field, 18 the channel, and 19 the class.
const SHOP: &[u8] = &[
    0xca, 0xfe, 0xba, 0xbe, 0, 0, 0, 49, 0, 20, 1, 0, 4, b'S', b'h', b'o', b'p', 7, 0, 1, 1, 0, 16,
    b'j', b'a', b'v', b'a', b'/', b'l', b'a', b'n', b'g', b'/', b'O', b'b', b'j', b'e', b'c', b't',
    7, 0, 3, 1, 0, 4, b'm', b'a', b'i', b'n', 1, 0, 3, b'(', b')', b'V', 1, 0, 4, b'C', b'o', b'd',
    b'e', 1, 0, 1, b'x', 1, 0, 3, b'p', b'u', b't', 1, 0, 1, b'I', 1, 0, 1, b'Z', 1, 0, 4, b'(',
    b'I', b')', b'V', 1, 0, 4, b'(', b'I', b')', b'I', 1, 0, 5, b'(', b'I', b'V', b')', b'V', 12,
    0, 8, 0, 10, 9, 0, 2, 0, 15, 12, 0, 9, 0, 12, 10, 0, 2, 0, 17, 7, 0, 1, 0, 49, 0, 2, 0, 4, 0,
    0, 0, 2, 0, 9, 0, 8, 0, 10, 0, 0, 0, 9, 0, 8, 0, 11, 0, 0, 0, 3, 0, 9, 0, 5, 0, 6, 0, 1, 0, 7,
    0, 0, 0, 14, 0, 2, 0, 0, 0, 0, 0, 2, 3, 0xb1, 0, 0, 0, 0, 1, 9, 0, 9, 0, 12, 0, 0, 0, 9, 0, 9,
    0, 6, 0, 1, 0, 7, 0, 0, 0, 14, 0, 2, 0, 0, 0, 0, 0, 2, 3, 0xb1, 0, 0, 0, 0, 0, 0,
];

/// A class Bank without members.
const BANK: &[u8] = &[
    0xca, 0xfe, 0xba, 0xbe, 0, 0, 0, 49, 0, 5, 1, 0, 4, b'B', b'a', b'n', b'k', 7, 0, 1, 1, 0, 16,
    b'j', b'a', b'v', b'a', b'/', b'l', b'a', b'n', b'g', b'/', b'O', b'b', b'j', b'e', b'c', b't',
    7, 0, 3, 0, 49, 0, 2, 0, 4, 0, 0, 0, 0, 0, 0, 0, 0,
];

/// Two bytes of SHOP that are others, by their places, and what is told of it.
const CHANGES: &[(&str, (usize, u8), (usize, u8), Answer)] = &[
    ("itself", (0, 0xca), (0, 0xca), ("end\n", 0)),
    (
        "two fields of one name and one descriptor",
        (148, 10),
        (0, 0xca),
        ("bad class Shop 43 1\n", 12),
    ),
    (
        "two methods of one name and one descriptor",
        (194, 12),
        (0, 0xca),
        ("bad class Shop 43 2\n", 12),
    ),
    (
        "the second field with the descriptor of a method",
        (148, 12),
        (0, 0xca),
        ("bad class Shop 44 1\n", 12),
    ),
    (
        "a method of the descriptor (IV)V",
        (194, 14),
        (0, 0xca),
        ("bad class Shop 44 2\n", 12),
    ),
    (
        "a native method (I)I",
        (186, 13),
        (0, 0xca),
        ("bad class Shop 44 1\n", 12),
    ),
    (
        "a channel that is not static",
        (182, 1),
        (0, 0xca),
        ("bad class Shop 44 1\n", 12),
    ),
    (
        "the first field with the descriptor of a method",
        (140, 12),
        (0, 0xca),
        ("bad class Shop 44 0\n", 12),
    ),
    (
        "a field that is there by its name alone",
        (106, 6),
        (0, 0xca),
        ("bad class Shop 41 16\n", 12),
    ),
    (
        "a method that is there by its name alone",
        (116, 13),
        (0, 0xca),
        ("bad class Shop 42 18\n", 12),
    ),
    (
        "a class that is no name",
        (124, 6),
        (0, 0xca),
        ("bad class Shop 40 19\n", 12),
    ),
    (
        "an absent class before an absent field",
        (124, 8),
        (106, 6),
        ("bad class Shop 40 19\n", 12),
    ),
    (
        "an absent field before an absent method",
        (106, 6),
        (116, 13),
        ("bad class Shop 41 16\n", 12),
    ),
    (
        "a field that is there twice before a wrong descriptor",
        (148, 10),
        (194, 14),
        ("bad class Shop 43 1\n", 12),
    ),
    (
        "an opcode that is not listed",
        (175, 0xc4),
        (0, 0xca),
        ("bad class Shop 20 0\n", 12),
    ),
    (
        "operands that run past the end",
        (176, 0x10),
        (0, 0xca),
        ("bad class Shop 21 1\n", 12),
    ),
    (
        "a later opcode that is not listed before operands that run past the end",
        (176, 0x10),
        (212, 0xc4),
        ("bad class Shop 20 1\n", 12),
    ),
    (
        "another class in the place of the superclass",
        (130, 2),
        (0, 0xca),
        ("bad class Shop 36 129\n", 12),
    ),
    (
        "a version that is not read",
        (7, 52),
        (0, 0xca),
        ("bad class Shop 31 52\n", 12),
    ),
];

/// The bytes with others at two places.
fn changed(
    alloc: Global,
    bytes: &[u8],
    one: (usize, u8),
    other: (usize, u8),
) -> Result<Vec<u8>, AllocError> {
    let mut changed = Vec::new(alloc);
    for (at, old) in bytes.iter().enumerate() {
        let first = if at == one.0 { one.1 } else { *old };
        changed.push(if at == other.0 { other.1 } else { first })?;
    }
    Ok(changed)
}

fn is_told(
    alloc: Global,
    one: (usize, u8),
    other: (usize, u8),
    answer: Answer,
) -> Result<bool, NoMemory> {
    let bytes = changed(alloc, SHOP, one, other)?;
    let files = [("Shop.class", bytes.as_slice())];
    files_run_as(alloc, &files, "paragon Shop in.txt 1000", answer)
}

#[test]
fn changed_files_are_told(rt: HostRuntime) -> Result<(), Fail> {
    for (name, one, other, answer) in CHANGES {
        expect(is_told(rt.alloc(), *one, *other, *answer)?, name)?;
    }
    Ok(())
}

/// SHOP, whose constant 19 names the class `Bank`: its name is a text that nothing else uses.
fn naming_bank(alloc: Global) -> Result<Vec<u8>, AllocError> {
    let mut bytes = Vec::new(alloc);
    for (at, old) in SHOP.iter().enumerate() {
        bytes.push(match at {
            90 => b'B',
            91 => b'a',
            92 => b'n',
            93 => b'k',
            124 => 13,
            _ => *old,
        })?;
    }
    Ok(bytes)
}

/// How many bytes of BANK stand in Bank.class, one of them that is another, and what is told.
const BANKS: &[(&str, usize, (usize, u8), Answer)] = &[
    ("the class that is named", 56, (0, 0xca), ("end\n", 0)),
    (
        "a file that is cut",
        30,
        (0, 0xca),
        ("bad class Bank 32 30\n", 12),
    ),
    (
        "a file without bytes",
        0,
        (0, 0xca),
        ("bad class Bank 32 0\n", 12),
    ),
    (
        "a file of another class",
        56,
        (13, b'T'),
        ("bad class Shop 40 19\n", 12),
    ),
    (
        "another magic number",
        56,
        (1, 0),
        ("bad class Bank 30 0\n", 12),
    ),
    (
        "a class that is its own superclass",
        56,
        (47, 2),
        ("bad class Bank 36 46\n", 12),
    ),
];

fn bank_is_told(
    alloc: Global,
    length: usize,
    change: (usize, u8),
    answer: Answer,
) -> Result<bool, NoMemory> {
    let mut bank = changed(alloc, BANK, change, change)?;
    bank.truncate(length);
    let shop = naming_bank(alloc)?;
    let files = [
        ("Shop.class", shop.as_slice()),
        ("Bank.class", bank.as_slice()),
    ];
    files_run_as(alloc, &files, "paragon Shop in.txt 1000", answer)
}

#[test]
fn second_classes_are_told(rt: HostRuntime) -> Result<(), Fail> {
    for (name, length, change, answer) in BANKS {
        expect(bank_is_told(rt.alloc(), *length, *change, *answer)?, name)?;
    }
    Ok(())
}

fn absent_bank_is_told(alloc: Global) -> Result<bool, NoMemory> {
    let mut folder = MemFolder::new(alloc);
    folder.add("Shop.class", naming_bank(alloc)?.as_slice())?;
    let answer = ("bad class Shop 40 19\n", 12);
    answers(alloc, "paragon Shop in.txt 1000", &mut folder, answer)
}

#[test]
fn a_second_class_that_is_absent_is_told(rt: HostRuntime) -> Result<(), Fail> {
    expect(absent_bank_is_told(rt.alloc())?, "no Bank.class")
}

/// A class C000 with a `main` that returns, which names a class C000.
const LINK_OF_CHAIN: &[u8] = &[
    0xca, 0xfe, 0xba, 0xbe, 0, 0, 0, 49, 0, 10, 1, 0, 4, b'C', 48, 48, 48, 7, 0, 1, 1, 0, 16, b'j',
    b'a', b'v', b'a', b'/', b'l', b'a', b'n', b'g', b'/', b'O', b'b', b'j', b'e', b'c', b't', 7, 0,
    3, 1, 0, 4, b'm', b'a', b'i', b'n', 1, 0, 3, b'(', b')', b'V', 1, 0, 4, b'C', b'o', b'd', b'e',
    1, 0, 4, b'C', 48, 48, 48, 7, 0, 8, 0, 49, 0, 2, 0, 4, 0, 0, 0, 0, 0, 1, 0, 9, 0, 5, 0, 6, 0,
    1, 0, 7, 0, 0, 0, 13, 0, 2, 0, 0, 0, 0, 0, 1, 0xb1, 0, 0, 0, 0, 0, 0,
];

/// A decimal digit of a number, by the place of the digit.
fn digit(number: u8, place: u8) -> u8 {
    let shifted = match place {
        0 => number / 100,
        1 => number / 10,
        _ => number,
    };
    b'0' + shifted % 10
}

/// The class of a number, which names that of another.
fn link_of_chain(alloc: Global, number: u8, next: u8) -> Result<Vec<u8>, AllocError> {
    let mut bytes = Vec::new(alloc);
    for (at, old) in LINK_OF_CHAIN.iter().enumerate() {
        bytes.push(match at {
            14 => digit(number, 0),
            15 => digit(number, 1),
            16 => digit(number, 2),
            66 => digit(next, 0),
            67 => digit(next, 1),
            68 => digit(next, 2),
            _ => *old,
        })?;
    }
    Ok(bytes)
}

/// How many classes there are, each of which names the next, and what is told of the first.
const CHAINS: &[(u8, Answer)] = &[
    (1, ("end\n", 0)),
    (128, ("end\n", 0)),
    (129, ("bad class C128 45 129\n", 12)),
    (130, ("bad class C128 45 129\n", 12)),
];

fn add_link(alloc: Global, folder: &mut MemFolder, number: u8, next: u8) -> Result<(), NoMemory> {
    let bytes = link_of_chain(alloc, number, next)?;
    let name = format!(in alloc; "C{number:03}.class")?;
    folder.add(name.as_str(), bytes.as_slice())
}

fn add_chain(alloc: Global, folder: &mut MemFolder, length: u8) -> Result<(), NoMemory> {
    for number in 0..length {
        let next = if number < length - 1 {
            number + 1
        } else {
            number
        };
        add_link(alloc, folder, number, next)?;
    }
    folder.add("in.txt", b"")
}

fn chain_is_told(alloc: Global, length: u8, answer: Answer) -> Result<bool, NoMemory> {
    let mut folder = MemFolder::new(alloc);
    add_chain(alloc, &mut folder, length)?;
    answers(alloc, "paragon C000 in.txt 1000", &mut folder, answer)
}

#[test]
fn as_many_classes_as_can_be_linked(rt: HostRuntime) -> Result<(), Fail> {
    for (length, answer) in CHAINS {
        expect(chain_is_told(rt.alloc(), *length, *answer)?, answer.0)?;
    }
    Ok(())
}
