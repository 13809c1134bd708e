//! Words, absent files, and faults of the folder and the sink.

use par_io::{MemFolder, MemSink, NoMemory};
use par_row_calls::{
    ACCEPTED, Answer, COMPILED, KEY_42, SHOWS_KEY, answers, call, compiled, folder_of, with_body,
};
use par_worked::expect;
use std::alloc::Global;
use std::test::Fail;

const USAGE: Answer = ("usage\n", 2);

const ABSENT: Answer = ("absent\n", 3);

const READ_FAULT: Answer = ("read fault\n", 4);

const WRITE_FAULT: Answer = ("write fault\n", 5);

/// A folder with a source that shows the key.
fn source(alloc: Global) -> Result<MemFolder, NoMemory> {
    let source = with_body(alloc, SHOWS_KEY)?;
    folder_of(alloc, source.as_str())
}

/// The same, once it was compiled, with an input file.
fn class_file(alloc: Global) -> Result<MemFolder, NoMemory> {
    let source = with_body(alloc, SHOWS_KEY)?;
    compiled(alloc, source.as_str(), KEY_42)
}

const OTHER_WORDS: &[&str] = &[
    "paragonc",
    "paragonc --check",
    "paragonc -shop.par",
    "paragonc --check --trace a b 1",
    "paragonc --check=yes shop.par",
    "paragonc --check --check shop.par",
    "paragonc --help",
    "paragonc -h",
    "paragonc --version",
    "paragonc --check shop.par more.par",
    "paragonc --trace shop.par",
    "paragonc --audit shop.par",
    "paragonc --audit 2bob shop.par",
    "paragonc --audit --trace bob shop.par",
    "paragonc --audit --check bob shop.par",
    "paragonc --audit bob shop.par more.par",
    "paragonc --sample",
    "paragonc --sample 07",
    "paragonc --sample 18446744073709551616",
    "paragonc --sample --check 1",
    "paragonc --sample 1 2",
    "paragonc --sample shop.par",
    "paragonc -check shop.par",
    "paragonc --check -shop.par",
    "paragonc --check --check",
    "paragon --check shop.par",
    "paragon --verify",
    "paragon --verify Shop in.txt",
    "paragon --verify 2Shop",
    "paragon --verify --verify Shop",
    "paragonc --verify Shop",
    "paragon Shop in.txt",
    "paragon Shop in.txt 0",
    "paragon Shop in.txt 01",
    "paragon Shop in.txt +1",
    "paragon Shop in.txt 1000000001",
    "paragon Shop -in.txt 1",
    "paragon 2Shop in.txt 1",
    "paragon 9x in.txt 5",
];

fn is_told_the_usage(alloc: Global, command: &str) -> Result<bool, NoMemory> {
    let mut folder = source(alloc)?;
    answers(alloc, command, &mut folder, USAGE)
}

/// Words of a form, over the same source.
const FORMS: &[(&str, Answer)] = &[
    ("paragonc --check shop.par", ACCEPTED),
    ("paragonc shop.par --check", ACCEPTED),
    ("paragonc --check -- shop.par", ACCEPTED),
    ("paragonc -- -shop.par", ABSENT),
    ("paragonc -- --check", ABSENT),
    ("paragonc -", ABSENT),
    ("paragonc help", ABSENT),
    ("paragon -- Shop -in.txt 1", ABSENT),
    ("paragon --verify Shop", ABSENT),
    ("paragon Shop --verify", ABSENT),
];

fn form_is_told(alloc: Global, command: &str, answer: Answer) -> Result<bool, NoMemory> {
    let mut folder = source(alloc)?;
    answers(alloc, command, &mut folder, answer)
}

#[test]
fn words_of_a_form_are_told_what_they_ask_for(rt: HostRuntime) -> Result<(), Fail> {
    for (command, answer) in FORMS {
        expect(form_is_told(rt.alloc(), command, *answer)?, command)?;
    }
    Ok(())
}

#[test]
fn other_words_are_told_the_usage(rt: HostRuntime) -> Result<(), Fail> {
    for command in OTHER_WORDS {
        expect(is_told_the_usage(rt.alloc(), command)?, command)?;
    }
    Ok(())
}

/// A command, the read that fails, counted from 1 and 0 for none, and the answer. Where the
/// command runs a class file, the first read was that of its source.
const READS: &[(&str, u64, Answer)] = &[
    ("paragonc --check none.par", 0, ABSENT),
    ("paragonc --check shop.par", 1, READ_FAULT),
    ("paragonc --check shop.par", 2, ACCEPTED),
    ("paragonc none.par", 0, ABSENT),
    ("paragonc shop.par", 1, READ_FAULT),
    ("paragon Other in.txt 1000", 0, ABSENT),
    ("paragon Shop none.txt 1000", 0, ABSENT),
    ("paragon Shop in.txt 1000", 2, READ_FAULT),
    ("paragon Shop in.txt 1000", 3, READ_FAULT),
];

/// The folder that a command finds: the compiler the source alone, the runner its class file too.
fn folder_for(alloc: Global, command: &str) -> Result<MemFolder, NoMemory> {
    if command.starts_with("paragonc") {
        source(alloc)
    } else {
        class_file(alloc)
    }
}

fn read_holds(
    alloc: Global,
    command: &str,
    failing: u64,
    answer: Answer,
) -> Result<bool, NoMemory> {
    let mut folder = folder_for(alloc, command)?;
    folder.fail_read(failing)?;
    answers(alloc, command, &mut folder, answer)
}

#[test]
fn files_may_be_absent_or_fail(rt: HostRuntime) -> Result<(), Fail> {
    for (command, failing, answer) in READS {
        expect(read_holds(rt.alloc(), command, *failing, *answer)?, command)?;
    }
    Ok(())
}

/// The write that fails, how many bytes it leaves, and the answer.
const WRITES: &[(&str, u64, u64, Answer)] = &[
    ("the write fails at once", 1, 0, WRITE_FAULT),
    ("the write fails behind 5 bytes", 1, 5, WRITE_FAULT),
    ("no second write is made", 2, 5, COMPILED),
];

/// A file that stood there is kept but for what the failed write leaves.
fn write_holds(alloc: Global, call: u64, keep: u64, answer: Answer) -> Result<bool, NoMemory> {
    let mut folder = source(alloc)?;
    folder.add("Other.class", b"kept")?;
    folder.fail_write(call, keep)?;
    let is_told = answers(alloc, "paragonc shop.par", &mut folder, answer)?;
    Ok(is_told && leaves(&folder, call, keep))
}

/// Whether the other file is kept, and the class file has so many bytes where its write failed.
fn leaves(folder: &MemFolder, call: u64, keep: u64) -> bool {
    let Some(left) = folder.get("Shop.class") else {
        return false;
    };
    let is_kept = folder.get("Other.class") == Some(b"kept".as_slice());
    is_kept && (call == 2 || left.len() as u64 == keep)
}

#[test]
fn writes_may_fail(rt: HostRuntime) -> Result<(), Fail> {
    for (name, call, keep, answer) in WRITES {
        expect(write_holds(rt.alloc(), *call, *keep, *answer)?, name)?;
    }
    Ok(())
}

/// Each put of each form in turn, how many of its bytes are kept, and what is held then.
const PUTS: &[(&str, u64, u64, &str)] = &[
    ("paragonc --check shop.par", 1, 0, ""),
    ("paragonc --check shop.par", 1, 5, "accep"),
    ("paragonc --check shop.par", 1, 100, "accepted\n"),
    ("paragonc shop.par", 1, 0, ""),
    ("paragonc shop.par", 1, 3, "acc"),
    ("paragonc shop.par", 1, 5, "accep"),
    ("paragon Shop in.txt 1000", 1, 0, ""),
    ("paragon Shop in.txt 1000", 1, 5, "out S"),
    ("paragon Shop in.txt 1000", 2, 0, "out Shop.show 42\n"),
    ("paragon Shop in.txt 1000", 2, 2, "out Shop.show 42\nen"),
    ("paragon Shop in.txt 1000", 2, 5, "out Shop.show 42\nend\n"),
];

fn put_holds(
    alloc: Global,
    command: &str,
    failing: (u64, u64),
    held: &str,
) -> Result<bool, NoMemory> {
    let mut folder = folder_for(alloc, command)?;
    let mut out = MemSink::new(alloc, 100)?;
    out.fail_put(failing.0, failing.1);
    let status = call(alloc, command, &mut folder, &mut out)?;
    Ok((status, out.bytes()) == (6, held.as_bytes()) && leaves_a_class_file(&folder, command))
}

/// The class file is there though the line that says so is not put.
fn leaves_a_class_file(folder: &MemFolder, command: &str) -> bool {
    folder.get("Shop.class").is_some() != command.contains("--check")
}

#[test]
fn puts_may_fail(rt: HostRuntime) -> Result<(), Fail> {
    for (command, put, keep, held) in PUTS {
        expect(
            put_holds(rt.alloc(), command, (*put, *keep), held)?,
            command,
        )?;
    }
    Ok(())
}
