use par_base::memory::NoMemory;
use par_inputs::error::BadInput;
use par_inputs::{LONGEST_INPUTS, line_of_entry, read_inputs};
use par_values::inputs::{ChannelInput, Inputs};
use par_worked::expect;
use std::alloc::Global;
use std::test::Fail;

// A row's name, a file, and its first wrong line.
type Wrong = (&'static str, &'static [u8], u32);

const WRONG: &[Wrong] = &[
    ("above int", b"Shop.key: 2147483648\n", 1),
    ("below int", b"Shop.key: -2147483649\n", 1),
    ("a blank at the end", b"Shop.key: 1 \n", 1),
    ("two blanks", b"Shop.key:  1\n", 1),
    ("no blank", b"Shop.key:1\n", 1),
    ("zeros in front", b"Shop.key: 007\n", 1),
    ("a plus sign", b"Shop.key: +1\n", 1),
    ("a carriage return", b"Shop.key: 1\r\n", 1),
    ("a blank in the name", b"Shop. key: 1\n", 1),
    ("a digit in front", b"9x.key: 1\n", 1),
    ("no colon", b"Shop.key\n", 1),
    ("a channel twice", b"Shop.key: 1\nShop.key: 2\n", 2),
    ("no colon at last", b"\n\nShop.key: 1\n\nShop.key 2", 5),
    (
        "the first wrong line is told",
        b"Shop.key: 1\nShop.key: 2\nnothing\n",
        2,
    ),
];

// Whether this is the first wrong line.
fn is_wrong(alloc: Global, bytes: &[u8], line: u32) -> bool {
    if bytes.len() > 100 {
        return false;
    }
    match read_inputs(alloc, bytes) {
        Ok(_) => false,
        Err(error) => error == BadInput::Line(line),
    }
}

fn check_wrong(alloc: Global, rows: &[Wrong]) -> Result<(), Fail> {
    for (name, bytes, line) in rows {
        expect(is_wrong(alloc, bytes, *line), name)?;
    }
    Ok(())
}

#[test]
fn a_wrong_line_is_told(rt: HostRuntime) -> Result<(), Fail> {
    check_wrong(rt.alloc(), WRONG)
}

// A row's name, a file, and how many channels it has.
type Right = (&'static str, &'static [u8], usize);

const RIGHT: &[Right] = &[
    ("no byte", b"", 0),
    ("empty lines", b"\n\n", 0),
    ("a number", b"Shop.key: 42\n", 1),
    ("no end of the line", b"Shop.key: 42", 1),
    ("no number", b"Shop.key:\n", 1),
    ("two channels", b"Shop.key: 1\nShop.lock: 2\n", 2),
    ("reserved words", b"\nint.void: 1\n\nvoid.int: 2", 2),
];

fn has_channels(alloc: Global, bytes: &[u8], count: usize) -> Result<bool, BadInput> {
    if bytes.len() > 100 {
        return Ok(false);
    }
    let inputs = read_inputs(alloc, bytes)?;
    let many = inputs.channels.len();
    drop(inputs);
    Ok(many == count)
}

fn check_right(alloc: Global, rows: &[Right]) -> Result<(), Fail> {
    for (name, bytes, count) in rows {
        expect(has_channels(alloc, bytes, *count)?, name)?;
    }
    Ok(())
}

#[test]
fn right_lines_are_counted(rt: HostRuntime) -> Result<(), Fail> {
    check_right(rt.alloc(), RIGHT)
}

const NUMBERS: [i32; 5] = [42, 0, -2147483648, 2147483647, 0];

fn is_key(entry: &ChannelInput) -> bool {
    entry.class.bytes() == b"Shop".as_slice()
        && entry.channel.bytes() == b"key".as_slice()
        && entry.numbers.as_slice() == NUMBERS.as_slice()
}

// Whether there is one channel, the key, with these numbers.
fn has_key_alone(inputs: &Inputs) -> bool {
    match inputs.channels.as_slice() {
        [entry] => is_key(entry),
        _ => false,
    }
}

#[test]
fn a_line_gives_its_channel_and_numbers(rt: HostRuntime) -> Result<(), Fail> {
    let inputs = read_inputs(rt.alloc(), b"Shop.key: 42 -0 -2147483648 2147483647 0")?;
    let has_key = has_key_alone(&inputs);
    drop(inputs);
    expect(has_key, "the key has its numbers")
}

#[test]
fn an_entry_stands_on_its_line(_rt: HostRuntime) -> Result<(), Fail> {
    let bytes = b"\nint.void: 1\n\nvoid.int: 2";
    expect(line_of_entry(bytes, 0) == 2, "the first entry")?;
    expect(line_of_entry(bytes, 1) == 4, "the second entry")
}

// How many lines the long file has.
const LINES: usize = 100_000;

// A file of so many lines, each of a channel of its own.
fn long_file(alloc: Global) -> Result<Vec<u8>, NoMemory> {
    let mut bytes = Vec::new(alloc);
    for number in 0..LINES {
        put_line(alloc, &mut bytes, number)?;
    }
    Ok(bytes)
}

fn put_line(alloc: Global, bytes: &mut Vec<u8>, number: usize) -> Result<(), NoMemory> {
    let line = format!(in alloc; "a.x{number:05}:\n")?;
    let put = bytes.extend_from_slice(line.as_bytes());
    drop(line);
    Ok(put?)
}

// How many channels a file has that may be long, or the first wrong line.
fn count_of(alloc: Global, bytes: &[u8]) -> Result<usize, BadInput> {
    if bytes.len() > LONGEST_INPUTS {
        return Err(BadInput::Line(0));
    }
    let inputs = read_inputs(alloc, bytes)?;
    let many = inputs.channels.len();
    drop(inputs);
    Ok(many)
}

fn check_long(alloc: Global, bytes: &mut Vec<u8>) -> Result<(), Fail> {
    let all = count_of(alloc, bytes.as_slice())?;
    expect(all == LINES, "each line is an entry")?;
    bytes.extend_from_slice(b"a.x00000: 1\n")?;
    expect(
        count_of(alloc, bytes.as_slice()) == Err(BadInput::Line(100_001)),
        "the first channel once more",
    )
}

#[test]
fn a_file_may_have_100000_lines(rt: HostRuntime) -> Result<(), Fail> {
    let mut bytes = long_file(rt.alloc())?;
    let checked = check_long(rt.alloc(), &mut bytes);
    drop(bytes);
    checked
}
