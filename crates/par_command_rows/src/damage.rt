//! Class files that are cut at each length, lengthened, changed at each byte, or absent.

use crate::hostile_programs::{EVENTS, ONE_CLASS, RUN, TWO_CLASSES, VERIFY, class_files};
use par_io::{MemFolder, MemSink, NoMemory};
use par_row_calls::{Answer, Lines, answers, call};
use par_worked::expect;
use std::alloc::{AllocError, Global};
use std::test::Fail;

/// The bytes of a file, or none where there is no such file.
fn bytes_of(alloc: Global, folder: &MemFolder, name: &str) -> Result<Vec<u8>, AllocError> {
    match folder.get(name) {
        Some(bytes) => Vec::from_slice(alloc, bytes),
        None => Ok(Vec::new(alloc)),
    }
}

/// Whether the runner refuses a class so.
fn is_refused(
    alloc: Global,
    folder: &mut MemFolder,
    class: &str,
    number: u8,
    value: usize,
) -> Result<bool, NoMemory> {
    let line = format!(in alloc; "bad class {class} {number} {value}\n")?;
    let mut out = MemSink::new(alloc, 1000)?;
    let status = call(alloc, RUN, folder, &mut out)?;
    Ok((status, out.bytes()) == (12, line.as_bytes()))
}

/// A program, one of its class files, and the class.
struct Written {
    name: &'static str,
    lines: Lines,
    file: &'static str,
    class: &'static str,
}

const WRITTEN: &[Written] = &[
    Written {
        name: "a file alone",
        lines: ONE_CLASS,
        file: "Shop.class",
        class: "Shop",
    },
    Written {
        name: "the file of main",
        lines: TWO_CLASSES,
        file: "Shop.class",
        class: "Shop",
    },
    Written {
        name: "a file that main names",
        lines: TWO_CLASSES,
        file: "Item.class",
        class: "Item",
    },
];

/// Whether the class is refused so once its file has these bytes.
fn is_refused_as(
    alloc: Global,
    folder: &mut MemFolder,
    row: &Written,
    bytes: &[u8],
    told: (u8, usize),
) -> Result<bool, NoMemory> {
    folder.add(row.file, bytes)?;
    is_refused(alloc, folder, row.class, told.0, told.1)
}

/// Whether each beginning of the file is told to be cut off.
fn beginnings_are_told(
    alloc: Global,
    folder: &mut MemFolder,
    row: &Written,
    bytes: &[u8],
) -> Result<bool, NoMemory> {
    for length in 0..bytes.len() {
        if !is_refused_as(alloc, folder, row, &bytes[..length], (32, length))? {
            return Ok(false);
        }
    }
    Ok(bytes.len() > 100)
}

/// The bytes up to a length, filled with zeros.
fn longer_by(alloc: Global, bytes: &[u8], length: usize) -> Result<Vec<u8>, NoMemory> {
    let mut long = bytes.to_vec(alloc)?;
    long.resize(length, 0)?;
    Ok(long)
}

/// Whether a file that is filled up to a length is told with the first byte too many.
fn longer_is_told(
    alloc: Global,
    folder: &mut MemFolder,
    row: &Written,
    bytes: &[u8],
    length: usize,
) -> Result<bool, NoMemory> {
    let long = longer_by(alloc, bytes, length)?;
    is_refused_as(alloc, folder, row, long.as_slice(), (35, bytes.len()))
}

/// Whether each shorter file of a class is told with its length, and a longer one with its place.
fn lengths_are_told(
    alloc: Global,
    folder: &mut MemFolder,
    row: &Written,
    whole: &[u8],
) -> Result<bool, NoMemory> {
    let are_told = beginnings_are_told(alloc, folder, row, whole)?;
    let length = whole.len().saturating_add(1);
    Ok(are_told && longer_is_told(alloc, folder, row, whole, length)?)
}

/// As many bytes as a class file may have.
const LONGEST: usize = 1_048_576;

/// Whether a file of one byte more than may be read is told to be too long.
fn too_long_is_told(
    alloc: Global,
    folder: &mut MemFolder,
    row: &Written,
    whole: &[u8],
) -> Result<bool, NoMemory> {
    let longer = longer_by(alloc, whole, LONGEST + 1)?;
    folder.add(row.file, longer.as_slice())?;
    answers(alloc, RUN, folder, ("too long\n", 8))
}

/// Whether a file of a class that is filled up to the longest that is read is told with the first
/// byte too many, and a longer one as too long.
fn longest_are_told(
    alloc: Global,
    folder: &mut MemFolder,
    row: &Written,
    whole: &[u8],
) -> Result<bool, NoMemory> {
    let is_told = longer_is_told(alloc, folder, row, whole, LONGEST)?;
    Ok(is_told && too_long_is_told(alloc, folder, row, whole)?)
}

/// Each test asks this of a folder with the class files and of the bytes of the file.
fn row_holds(alloc: Global, row: &Written, is_longest: bool) -> Result<bool, NoMemory> {
    let mut folder = class_files(alloc, row.lines)?;
    let whole = bytes_of(alloc, &folder, row.file)?;
    if is_longest {
        longest_are_told(alloc, &mut folder, row, whole.as_slice())
    } else {
        lengths_are_told(alloc, &mut folder, row, whole.as_slice())
    }
}

#[test]
fn files_of_each_other_length_are_refused(rt: HostRuntime) -> Result<(), Fail> {
    for row in WRITTEN {
        expect(row_holds(rt.alloc(), row, false)?, row.name)?;
    }
    Ok(())
}

#[test]
fn files_of_the_longest_length_are_read(rt: HostRuntime) -> Result<(), Fail> {
    for row in WRITTEN {
        expect(row_holds(rt.alloc(), row, true)?, row.name)?;
    }
    Ok(())
}

/// The class file A without members, as par_machine_rows has it.
const A: &[u8] = b"\
    \xca\xfe\xba\xbe\0\0\01\0\x05\x01\0\x01A\x07\0\x01\x01\0\x10java/lang/Object\x07\0\x03\01\
    \0\x02\0\x04\0\0\0\0\0\0\0\0";

fn cuts_of_a_are_told(alloc: Global) -> Result<bool, NoMemory> {
    let mut folder = MemFolder::new(alloc);
    for length in 0..A.len() {
        folder.add("Shop.class", &A[..length])?;
        if !is_refused(alloc, &mut folder, "Shop", 32, length)? {
            return Ok(false);
        }
    }
    Ok(A.len() == 53)
}

#[test]
fn a_file_without_members_is_cut(rt: HostRuntime) -> Result<(), Fail> {
    expect(cuts_of_a_are_told(rt.alloc())?, "each front of it")
}

/// The last of some lines, with its end.
fn last_line(text: &[u8]) -> &[u8] {
    text.split_inclusive(|byte| *byte == b'\n')
        .last()
        .unwrap_or(text)
}

/// Whether a status has the last line that it should, of those that class files can have. All of
/// the run is shown where it ends, since the code of `main` was not changed.
fn is_named(status: u8, told: &[u8]) -> bool {
    let last = last_line(told);
    match status {
        0 => told == EVENTS.as_bytes(),
        10 => last.starts_with(b"uncaught "),
        11 => last == b"budget\n".as_slice(),
        12 => last.starts_with(b"bad class ") && last.len() == told.len(),
        14 => last.starts_with(b"bad code "),
        _ => false,
    }
}

/// The status of a run whose answer is one of the named ones.
fn status_of_run(alloc: Global, folder: &mut MemFolder) -> Result<Option<u8>, NoMemory> {
    let mut told = MemSink::new(alloc, 1000)?;
    let ran = call(alloc, RUN, folder, &mut told)?;
    Ok(is_named(ran, told.bytes()).then_some(ran))
}

fn status_of_verifier(alloc: Global, folder: &mut MemFolder) -> Result<u8, NoMemory> {
    let mut out = MemSink::new(alloc, 1000)?;
    Ok(call(alloc, VERIFY, folder, &mut out)?)
}

/// Whether the class file is told of in one of these ways, and has no bad code where both files are
/// verified.
fn is_answered(alloc: Global, folder: &mut MemFolder, item: &[u8]) -> Result<bool, NoMemory> {
    folder.add("Item.class", item)?;
    let ran = status_of_run(alloc, folder)?;
    let verified = status_of_verifier(alloc, folder)?;
    match ran {
        Some(ran) => Ok(verified == 12 || verified == 0 && ran != 12 && ran != 14),
        None => Ok(false),
    }
}

/// What a byte is changed to: 0, 255, and each of its bits turned.
fn changes(byte: u8) -> [u8; 10] {
    [
        0,
        255,
        byte ^ 1,
        byte ^ 2,
        byte ^ 4,
        byte ^ 8,
        byte ^ 16,
        byte ^ 32,
        byte ^ 64,
        byte ^ 128,
    ]
}

/// Whether each change of each byte is answered.
fn all_are_answered(
    alloc: Global,
    folder: &mut MemFolder,
    item: &mut [u8],
) -> Result<bool, NoMemory> {
    for place in 0..item.len() {
        let byte = item[place];
        for changed in changes(byte) {
            item[place] = changed;
            if !is_answered(alloc, folder, item)? {
                return Ok(false);
            }
        }
        item[place] = byte;
    }
    Ok(item.len() > 100)
}

fn changes_are_told(alloc: Global) -> Result<bool, NoMemory> {
    let mut folder = class_files(alloc, TWO_CLASSES)?;
    let mut item = bytes_of(alloc, &folder, "Item.class")?;
    all_are_answered(alloc, &mut folder, item.as_mut_slice())
}

#[test]
fn each_byte_may_be_changed(rt: HostRuntime) -> Result<(), Fail> {
    expect(changes_are_told(rt.alloc())?, "an answer of the table")
}

/// What is told of a program whose second class file is not its own. The last number is the place
/// of the constant that names the class in the first, as `javap` tells it of the file.
const NOT_ITEM: Answer = ("bad class Shop 40 17\n", 12);

/// The class file of main.
fn shop_alone(alloc: Global) -> Result<Vec<u8>, NoMemory> {
    let written = class_files(alloc, TWO_CLASSES)?;
    Ok(bytes_of(alloc, &written, "Shop.class")?)
}

/// A folder with the class file of main and none that it names.
fn folder_of_shop(alloc: Global, shop: &[u8]) -> Result<MemFolder, NoMemory> {
    let mut folder = MemFolder::new(alloc);
    folder.add("Shop.class", shop)?;
    folder.add("in.txt", b"")?;
    Ok(folder)
}

fn absent_item_is_told(alloc: Global) -> Result<bool, NoMemory> {
    let shop = shop_alone(alloc)?;
    let mut folder = folder_of_shop(alloc, shop.as_slice())?;
    answers(alloc, RUN, &mut folder, NOT_ITEM)
}

fn other_item_is_told(alloc: Global) -> Result<bool, NoMemory> {
    let shop = shop_alone(alloc)?;
    let mut folder = folder_of_shop(alloc, shop.as_slice())?;
    folder.add("Item.class", shop.as_slice())?;
    answers(alloc, RUN, &mut folder, NOT_ITEM)
}

#[test]
fn a_class_file_is_absent_or_of_another_class(rt: HostRuntime) -> Result<(), Fail> {
    expect(absent_item_is_told(rt.alloc())?, "no Item.class")?;
    expect(other_item_is_told(rt.alloc())?, "Shop.class in its place")
}
