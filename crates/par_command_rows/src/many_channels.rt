//! A class with 32,768 channels, and an input file with a line for each.

use crate::hostile_programs::RUN;
use par_io::{MemFolder, NoMemory};
use par_row_calls::{Answer, answers};
use par_worked::expect;
use std::alloc::{AllocError, Global};
use std::test::Fail;

/// The names of the channels, each of five digits behind a letter.
const NUMBERS: std::ops::Range<u16> = 10_000..42_768;

/// A class `Shop`, up to the constants of its channels. Its constants name by 2 the class, by 4
/// the one above it, by 5 to 7 `main`, its descriptor and its code, and by 8 the descriptor of an
/// input; the channels' names stand behind them.
const FRONT: &[u8] = b"\
    \xca\xfe\xba\xbe\0\0\01\x80\x09\x01\0\x04Shop\x07\0\x01\x01\0\x10java/lang/Object\x07\0\x03\
    \x01\0\x04main\x01\0\x03()V\x01\0\x04Code\x01\0\x03()I";

/// What stands between the constants and the channels: 32,769 methods, of which `main` returns.
const MAIN: &[u8] = b"\
    \01\0\x02\0\x04\0\0\0\0\x80\x01\0\x09\0\x05\0\x06\0\x01\0\x07\0\0\0\x0d\0\0\0\0\0\0\0\x01\xb1\
    \0\0\0\0";

/// Puts the constant that names a channel.
fn put_name(alloc: Global, file: &mut Vec<u8>, number: u16) -> Result<(), AllocError> {
    let name = format!(in alloc; "k{number}")?;
    file.extend_from_slice(b"\x01\0\x06")?;
    file.extend_from_slice(name.as_bytes())
}

/// Puts a channel, a native method of the name behind so many constants.
fn put_channel(file: &mut Vec<u8>, number: u16) -> Result<(), AllocError> {
    let constant = number.wrapping_sub(9_991).to_be_bytes();
    file.extend_from_slice(b"\x01\x09")?;
    file.extend_from_slice(&constant)?;
    file.extend_from_slice(b"\0\x08\0\0")
}

/// Puts all that stands behind the first constants.
fn put_channels(alloc: Global, file: &mut Vec<u8>) -> Result<(), AllocError> {
    for number in NUMBERS {
        put_name(alloc, file, number)?;
    }
    file.extend_from_slice(MAIN)?;
    for number in NUMBERS {
        put_channel(file, number)?;
    }
    file.extend_from_slice(b"\0\0")
}

fn class_file(alloc: Global) -> Result<Vec<u8>, AllocError> {
    let mut file = Vec::from_slice(alloc, FRONT)?;
    put_channels(alloc, &mut file)?;
    Ok(file)
}

fn put_line(alloc: Global, lines: &mut Vec<u8>, number: u16) -> Result<(), AllocError> {
    let line = format!(in alloc; "Shop.k{number}: {number}\n")?;
    lines.extend_from_slice(line.as_bytes())
}

fn put_lines(alloc: Global, lines: &mut Vec<u8>, more: &str) -> Result<(), AllocError> {
    for number in NUMBERS {
        put_line(alloc, lines, number)?;
    }
    lines.extend_from_slice(more.as_bytes())
}

/// A line for each channel, and one line more.
fn lines(alloc: Global, more: &str) -> Result<Vec<u8>, AllocError> {
    let mut lines = Vec::new(alloc);
    put_lines(alloc, &mut lines, more)?;
    Ok(lines)
}

fn put_files(alloc: Global, folder: &mut MemFolder, more: &str) -> Result<(), NoMemory> {
    let class = class_file(alloc)?;
    folder.add("Shop.class", class.as_slice())?;
    let inputs = lines(alloc, more)?;
    folder.add("in.txt", inputs.as_slice())
}

fn is_told(alloc: Global, more: &str, answer: Answer) -> Result<bool, NoMemory> {
    let mut folder = MemFolder::new(alloc);
    put_files(alloc, &mut folder, more)?;
    answers(alloc, RUN, &mut folder, answer)
}

#[test]
fn each_of_many_channels_has_a_line(rt: HostRuntime) -> Result<(), Fail> {
    let told = is_told(rt.alloc(), "\n", ("end\n", 0))?;
    expect(told, "an empty line more")
}

/// A line more, for a channel that has one, or for none.
const MORE: [&str; 2] = ["Shop.k10000: 1\n", "Shop.k42768: 1\n"];

#[test]
fn a_line_more_is_told(rt: HostRuntime) -> Result<(), Fail> {
    for line in MORE {
        let answer = ("bad inputs line 32769\n", 13);
        expect(is_told(rt.alloc(), line, answer)?, line)?;
    }
    Ok(())
}
