//! Reads and writes that fail, each in turn.

use crate::hostile_programs::{EVENTS, RUN, THREE_CLASSES, VERIFY, class_files, source};
use par_io::{MemFolder, MemSink, NoMemory};
use par_row_calls::{Answer, answers, call};
use par_worked::expect;
use std::alloc::Global;
use std::cmp::Ordering;
use std::test::Fail;

const COMPILE: &str = "paragonc shop.par";

const READ_FAULT: Answer = ("read fault\n", 4);

const WRITE_FAULT: Answer = ("write fault\n", 5);

const COMPILED: Answer = ("accepted 3\n", 0);

/// The class files, in the order in which they are written.
const FILES: [&str; 3] = ["Shop.class", "Item.class", "Bad.class"];

/// What had their names before.
const OLDER: &[u8] = b"an older file";

/// A folder with the source of three classes and older files.
fn older(alloc: Global) -> Result<MemFolder, NoMemory> {
    let mut folder = source(alloc, THREE_CLASSES)?;
    for name in FILES {
        folder.add(name, OLDER)?;
    }
    Ok(folder)
}

/// Whether each file is as before.
fn stand(folder: &MemFolder) -> bool {
    FILES.iter().all(|name| folder.get(name) == Some(OLDER))
}

/// What the compiler is asked for, and how many files it reads for that.
const READS: &[(&str, u64)] = &[
    (COMPILE, 1),
    ("paragonc --check shop.par", 1),
    ("paragonc --trace shop.par in.txt 1000", 2),
    ("paragonc --audit bob shop.par", 1),
    ("paragonc --infer shop.par", 1),
];

/// Whether a read that fails is told, and no file is written.
fn read_holds(alloc: Global, command: &str, read: u64) -> Result<bool, NoMemory> {
    let mut folder = older(alloc)?;
    folder.fail_read(read)?;
    let is_told = answers(alloc, command, &mut folder, READ_FAULT)?;
    Ok(is_told && stand(&folder))
}

#[test]
fn each_read_of_the_compiler_may_fail(rt: HostRuntime) -> Result<(), Fail> {
    for (command, reads) in READS {
        for read in 1..=*reads {
            expect(read_holds(rt.alloc(), command, read)?, command)?;
        }
    }
    Ok(())
}

/// What the runner is asked for, the read that fails, and the answer. The class `Bad` is not named.
const RUN_READS: &[(&str, u64, Answer)] = &[
    (RUN, 1, READ_FAULT),
    (RUN, 2, READ_FAULT),
    (RUN, 3, READ_FAULT),
    (RUN, 4, (EVENTS, 0)),
    (VERIFY, 1, READ_FAULT),
    (VERIFY, 2, READ_FAULT),
    (VERIFY, 3, ("verified 2\n", 0)),
];

/// Reads are counted since the folder was made, so that the source was the first.
fn run_holds(alloc: Global, command: &str, read: u64, answer: Answer) -> Result<bool, NoMemory> {
    let mut folder = class_files(alloc, THREE_CLASSES)?;
    folder.fail_read(read.saturating_add(1))?;
    answers(alloc, command, &mut folder, answer)
}

#[test]
fn each_read_of_the_runner_may_fail(rt: HostRuntime) -> Result<(), Fail> {
    for (command, read, answer) in RUN_READS {
        expect(run_holds(rt.alloc(), command, *read, *answer)?, command)?;
    }
    Ok(())
}

/// How many bytes a write that fails leaves.
const KEPT: [u64; 2] = [0, 5];

/// Whether a file, counted from 1, is whole where it comes before the write that failed, cut where
/// it is that one, and as before where it comes behind it.
fn is_left(left: &[u8], whole: &[u8], place: u64, write: u64, keep: u64) -> bool {
    match place.cmp(&write) {
        Ordering::Less => left == whole,
        Ordering::Equal => Some(left) == whole.get(..keep as usize),
        Ordering::Greater => left == OLDER,
    }
}

/// Whether all files are left so.
fn are_left(folder: &MemFolder, whole: &MemFolder, write: u64, keep: u64) -> bool {
    FILES.iter().enumerate().all(|(place, name)| {
        match (folder.get(name), whole.get(name)) {
            (Some(left), Some(whole)) => {
                is_left(left, whole, (place as u64).saturating_add(1), write, keep)
            }
            _ => false,
        }
    })
}

/// What is left where that write fails, and whether that is told so.
fn cut_off(
    alloc: Global,
    write: u64,
    keep: u64,
    answer: Answer,
) -> Result<(MemFolder, bool), NoMemory> {
    let mut folder = older(alloc)?;
    folder.fail_write(write, keep)?;
    let is_told = answers(alloc, COMPILE, &mut folder, answer)?;
    Ok((folder, is_told))
}

fn write_holds(alloc: Global, write: u64, keep: u64, answer: Answer) -> Result<bool, NoMemory> {
    let (folder, is_told) = cut_off(alloc, write, keep, answer)?;
    let whole = class_files(alloc, THREE_CLASSES)?;
    Ok(is_told && are_left(&folder, &whole, write, keep))
}

#[test]
fn each_write_may_fail(rt: HostRuntime) -> Result<(), Fail> {
    for keep in KEPT {
        for write in 1..4 {
            let holds = write_holds(rt.alloc(), write, keep, WRITE_FAULT)?;
            expect(holds, "a class file that is not written")?;
        }
        expect(write_holds(rt.alloc(), 4, keep, COMPILED)?, "no more files")?;
    }
    Ok(())
}

fn failing(alloc: Global, read: u64, write: u64) -> Result<MemFolder, NoMemory> {
    let mut folder = older(alloc)?;
    folder.fail_read(read)?;
    folder.fail_write(write, 5)?;
    Ok(folder)
}

/// The line of a fault may not be put in its turn.
fn fault_is_cut(alloc: Global, read: u64, write: u64, held: &[u8]) -> Result<bool, NoMemory> {
    let mut folder = failing(alloc, read, write)?;
    let mut out = MemSink::new(alloc, 100)?;
    out.fail_put(1, 5);
    let status = call(alloc, COMPILE, &mut folder, &mut out)?;
    Ok((status, out.bytes()) == (6, held))
}

#[test]
fn the_line_of_a_fault_may_not_be_put(rt: HostRuntime) -> Result<(), Fail> {
    expect(fault_is_cut(rt.alloc(), 1, 1, b"read ")?, "a read")?;
    expect(fault_is_cut(rt.alloc(), 2, 1, b"write")?, "a write")
}
