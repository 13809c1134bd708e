use par_io::{
    Folder, HostFolder, HostSink, MemFolder, MemSink, NoMemory, ReadFail, Sink, WriteFail,
};
use par_worked::expect;
use std::alloc::{AllocError, Global};
use std::test::Fail;
use std::{env, fs, io, process};

// Whether a file is read so, with this limit.
fn reads<F: Folder>(alloc: Global, folder: &mut F, name: &str, limit: u64, bytes: &[u8]) -> bool {
    match folder.read(alloc, name, limit) {
        Ok(read) => {
            let are_these = read.as_slice() == bytes;
            drop(read);
            are_these
        }
        Err(_) => false,
    }
}

// Whether no file is read, by this fault.
fn fails<F: Folder>(
    alloc: Global,
    folder: &mut F,
    name: &str,
    limit: u64,
    fault: ReadFail,
) -> bool {
    match folder.read(alloc, name, limit) {
        Ok(_) => false,
        Err(error) => error == fault,
    }
}

// Whether a file is written, and the next write leaves two bytes of its own.
fn writes_once(alloc: Global, folder: &mut MemFolder) -> bool {
    folder.write(alloc, "b", b"four").is_ok()
        && folder.write(alloc, "b", b"five") == Err(WriteFail::Failed)
}

fn holds(folder: &MemFolder, name: &str, bytes: &[u8]) -> bool {
    folder.get(name) == Some(bytes)
}

// Adds a file twice, and has the fourth read and the second write fail.
fn set_up(folder: &mut MemFolder) -> Result<(), NoMemory> {
    folder.add("a", b"one")?;
    folder.add("a", b"three")?;
    folder.fail_read(4)?;
    folder.fail_write(2, 9)?;
    folder.fail_write(2, 2)?;
    Ok(())
}

fn folder_of_one(alloc: Global) -> Result<MemFolder, NoMemory> {
    let mut folder = MemFolder::new(alloc);
    set_up(&mut folder)?;
    Ok(folder)
}

// A row's name, a file, a limit, and how the read fails.
type Fault = (&'static str, &'static str, u64, ReadFail);

const FAULTS: &[Fault] = &[
    ("4 bytes", "a", 4, ReadFail::TooLong),
    ("no file", "b", 4, ReadFail::Absent),
    ("the fourth read", "a", 5, ReadFail::Failed),
];

fn check_faults(alloc: Global, folder: &mut MemFolder, rows: &[Fault]) -> Result<(), Fail> {
    for (row, name, limit, fault) in rows {
        expect(fails(alloc, folder, name, *limit, *fault), row)?;
    }
    Ok(())
}

fn check_reads(alloc: Global, folder: &mut MemFolder) -> Result<(), Fail> {
    let is_read = reads(alloc, folder, "a", 5, b"three");
    expect(is_read, "a file of 5 bytes")?;
    check_faults(alloc, folder, FAULTS)
}

fn check_writes(alloc: Global, folder: &mut MemFolder) -> Result<(), Fail> {
    expect(writes_once(alloc, folder), "the second write")?;
    expect(holds(folder, "b", b"fi"), "two bytes are left")?;
    expect(holds(folder, "a", b"three"), "the other file is kept")
}

fn check_folder(alloc: Global, folder: &mut MemFolder) -> Result<(), Fail> {
    check_reads(alloc, folder)?;
    check_writes(alloc, folder)
}

#[test]
fn a_folder_in_memory_reads_and_writes(rt: HostRuntime) -> Result<(), Fail> {
    let mut folder = folder_of_one(rt.alloc())?;
    let checked = check_folder(rt.alloc(), &mut folder);
    drop(folder);
    checked
}

fn puts(sink: &mut MemSink, bytes: &[u8], is_taken: bool, held: &[u8]) -> bool {
    let is_put = sink.put(bytes).is_ok();
    is_put == is_taken && sink.bytes() == held
}

fn check_puts(sink: &mut MemSink) -> Result<(), Fail> {
    expect(puts(sink, b"ab", true, b"ab"), "the first put")?;
    expect(puts(sink, b"cd", false, b"abc"), "the put that fails")?;
    expect(puts(sink, b"def", false, b"abcde"), "the put without room")
}

#[test]
fn a_sink_in_memory_keeps_what_fits(rt: HostRuntime) -> Result<(), Fail> {
    let mut sink = MemSink::new(rt.alloc(), 5)?;
    sink.fail_put(2, 1);
    let checked = check_puts(&mut sink);
    drop(sink);
    checked
}

// Whether no file of this name is there, and it is read once it was written.
fn keeps<F: Folder>(alloc: Global, folder: &mut F, name: &str) -> bool {
    fails(alloc, folder, name, 9, ReadFail::Absent)
        && folder.write(alloc, name, b"some text").is_ok()
        && reads(alloc, folder, name, 9, b"some text")
        && fails(alloc, folder, name, 8, ReadFail::TooLong)
}

// One line of 200,000 bytes.
fn long_line(alloc: Global) -> Result<Vec<u8>, NoMemory> {
    let mut line = vec![in alloc; b'x'; 199_999]?;
    line.push(b'\n')?;
    Ok(line)
}

// The place of a file of this process, which no other test has.
fn own_name(rt: &HostRuntime, last: &str) -> Result<String, Fail> {
    let place = env::temp_dir(rt)?;
    let name = name_in(rt.alloc(), place.as_str(), process::id(rt.process()), last);
    drop(place);
    Ok(name?)
}

fn name_in(alloc: Global, place: &str, number: u32, last: &str) -> Result<String, AllocError> {
    format!(in alloc; "{place}/par_io_{number}{last}")
}

fn check_kept(rt: &HostRuntime, name: &str) -> Result<(), Fail> {
    let mut folder = HostFolder::new(rt);
    let is_kept = keeps(rt.alloc(), &mut folder, name);
    drop(folder);
    expect(is_kept, "a file is kept")?;
    fs::remove_file(rt, name)?;
    Ok(())
}

#[test]
fn the_system_keeps_a_file(rt: HostRuntime) -> Result<(), Fail> {
    let name = own_name(&rt, "")?;
    let checked = check_kept(&rt, name.as_str());
    drop(name);
    checked
}

fn is_no_file(rt: &HostRuntime, place: &str) -> bool {
    let mut folder = HostFolder::new(rt);
    let is_none = fails(rt.alloc(), &mut folder, place, 9, ReadFail::Failed);
    drop(folder);
    is_none
}

#[test]
fn a_folder_is_no_file_of_the_system(rt: HostRuntime) -> Result<(), Fail> {
    let place = env::temp_dir(&rt)?;
    let is_none = is_no_file(&rt, place.as_str());
    drop(place);
    expect(is_none, "a folder in place of a file")
}

fn takes_long_line<S: Sink>(alloc: Global, out: &mut S) -> Result<bool, NoMemory> {
    let line = long_line(alloc)?;
    let is_taken = out.put(line.as_slice()).is_ok();
    drop(line);
    Ok(is_taken)
}

fn check_lines<S: Sink>(alloc: Global, out: &mut S) -> Result<(), Fail> {
    expect(out.put(b"a line\n").is_ok(), "a line")?;
    expect(takes_long_line(alloc, out)?, "a line of 200,000 bytes")
}

#[test]
fn the_system_takes_lines(rt: HostRuntime) -> Result<(), Fail> {
    let mut out = HostSink::new(io::writer(&rt));
    let checked = check_lines(rt.alloc(), &mut out);
    drop(out);
    checked
}

// How many bytes the long file has.
const LONG: u64 = 20_001;

// A long file, whose bytes come again after 251.
fn long_file(alloc: Global) -> Result<Vec<u8>, NoMemory> {
    let mut bytes = Vec::new(alloc);
    for place in 0..LONG {
        bytes.push((place % 251) as u8)?;
    }
    Ok(bytes)
}

// Whether a file that is written is read again as it was written, each byte and no more.
fn keeps_all<F: Folder>(alloc: Global, folder: &mut F, name: &str, bytes: &[u8]) -> bool {
    folder.write(alloc, name, bytes).is_ok() && reads(alloc, folder, name, LONG, bytes)
}

// The first bytes of a class file.
const CLASS_FILE: &[u8] = b"\xca\xfe\xba\xbe\x00\x00\x00\x34";

// A row's name, and what is written over a file.
type Written = (&'static str, &'static [u8]);

const SHORTER: &[Written] = &[
    ("a shorter one over it", CLASS_FILE),
    ("the same once more", CLASS_FILE),
    ("an empty one over it", b""),
];

fn check_written<F: Folder>(
    alloc: Global,
    folder: &mut F,
    name: &str,
    rows: &[Written],
) -> Result<(), Fail> {
    for (row, bytes) in rows {
        expect(keeps_all(alloc, folder, name, bytes), row)?;
    }
    Ok(())
}

fn check_shorter(rt: &HostRuntime, name: &str) -> Result<(), Fail> {
    let mut folder = HostFolder::new(rt);
    let checked = check_written(rt.alloc(), &mut folder, name, SHORTER);
    drop(folder);
    checked
}

fn keeps_long(rt: &HostRuntime, name: &str) -> Result<bool, NoMemory> {
    let long = long_file(rt.alloc())?;
    let mut folder = HostFolder::new(rt);
    let is_kept = keeps_all(rt.alloc(), &mut folder, name, long.as_slice());
    drop(folder);
    drop(long);
    Ok(is_kept)
}

fn check_whole(rt: &HostRuntime, name: &str) -> Result<(), Fail> {
    expect(keeps_long(rt, name)?, "a file of 20,001 bytes")?;
    check_shorter(rt, name)?;
    fs::remove_file(rt, name)?;
    Ok(())
}

#[test]
fn the_system_keeps_files_whole(rt: HostRuntime) -> Result<(), Fail> {
    let name = own_name(&rt, ".class")?;
    let checked = check_whole(&rt, name.as_str());
    drop(name);
    checked
}
