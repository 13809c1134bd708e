//! Sources that are compiled, the class files that come of them, and their runs.

use par_io::{MemFolder, NoMemory};
use par_row_calls::{
    Answer, COMPILED, KEY_42, Lines, Row, SHOWS_KEY, answers, check_rows, compiled, folder_of,
    last_of, with_body, with_line, with_lines,
};
use par_worked::expect;
use std::alloc::Global;
use std::test::Fail;

fn folder_with_body(alloc: Global, body: &str) -> Result<MemFolder, NoMemory> {
    let source = with_body(alloc, body)?;
    folder_of(alloc, source.as_str())
}

/// Whether an older file is replaced by one with the magic number and the version 51.0.
fn is_replaced(alloc: Global) -> Result<bool, NoMemory> {
    let mut folder = folder_with_body(alloc, SHOWS_KEY)?;
    folder.add("Shop.class", b"an older file")?;
    let is_told = answers(alloc, "paragonc shop.par", &mut folder, COMPILED)?;
    Ok(is_told && begins(&folder, b"\xCA\xFE\xBA\xBE\0\0\0\x33"))
}

fn begins(folder: &MemFolder, bytes: &[u8]) -> bool {
    match folder.get("Shop.class") {
        Some(file) => file.starts_with(bytes),
        None => false,
    }
}

#[test]
fn accepted_sources_have_a_class_file(rt: HostRuntime) -> Result<(), Fail> {
    expect(is_replaced(rt.alloc())?, "the file is written")
}

const OTHERS: &[(&str, Answer)] = &[
    ("show(key());", ("refused 403 at 8:1\n", 1)),
    ("got = key();", ("refused 401 at 8:1\n", 1)),
    (
        "if (key() > 0) { return; } show(1);",
        ("refused 404 at 8:28\n", 1),
    ),
];

fn has_none(alloc: Global, body: &str, answer: Answer) -> Result<bool, NoMemory> {
    let mut folder = folder_with_body(alloc, body)?;
    let is_told = answers(alloc, "paragonc shop.par", &mut folder, answer)?;
    Ok(is_told && folder.get("Shop.class").is_none())
}

#[test]
fn other_sources_have_none(rt: HostRuntime) -> Result<(), Fail> {
    for (body, answer) in OTHERS {
        expect(has_none(rt.alloc(), body, *answer)?, body)?;
    }
    Ok(())
}

/// Whether some bytes stand anywhere in others.
fn stands_in(text: &[u8], bytes: &[u8]) -> bool {
    for place in 0..bytes.len() {
        if bytes[place..].starts_with(text) {
            return true;
        }
    }
    false
}

/// Whether a class file spells the channel, and neither an actor nor the lock.
fn spells_the_channel_alone(file: &[u8]) -> bool {
    stands_in(b"show", file)
        && !stands_in(b"alice", file)
        && !stands_in(b"bob", file)
        && !stands_in(b"Paid", file)
}

fn is_spelled_alone(alloc: Global) -> Result<bool, NoMemory> {
    let source = with_body(alloc, SHOWS_KEY)?;
    let folder = compiled(alloc, source.as_str(), KEY_42)?;
    match folder.get("Shop.class") {
        Some(file) => Ok(spells_the_channel_alone(file)),
        None => Ok(false),
    }
}

#[test]
fn no_actor_and_no_lock_is_named(rt: HostRuntime) -> Result<(), Fail> {
    expect(is_spelled_alone(rt.alloc())?, "the channel alone is named")
}

/// Sources that differ in policies and locks alone have one class file.
fn have_one_file(alloc: Global, source: &str, other: &str) -> Result<bool, NoMemory> {
    let folder = compiled(alloc, source, KEY_42)?;
    let other = compiled(alloc, other, KEY_42)?;
    let file = folder.get("Shop.class");
    Ok(file.is_some() && file == other.get("Shop.class"))
}

/// A line of the source that shows 1, in place of one, which leaves no trace.
const TRACES: &[(&str, usize, &str)] = &[
    ("an open lock", 8, "open Paid; show(1);"),
    (
        "the policy of a channel",
        4,
        "?{alice:; bob:} input int key();",
    ),
    ("nothing: a second compile", 8, "show(1);"),
];

fn leaves_no_trace(alloc: Global, number: usize, line: &str) -> Result<bool, NoMemory> {
    let plain = with_body(alloc, "show(1);")?;
    let other = with_line(alloc, number, line)?;
    have_one_file(alloc, plain.as_str(), other.as_str())
}

#[test]
fn policies_leave_no_trace(rt: HostRuntime) -> Result<(), Fail> {
    for (name, number, line) in TRACES {
        expect(leaves_no_trace(rt.alloc(), *number, line)?, name)?;
    }
    Ok(())
}

/// Bodies of forms that are more than one statement behind another.
const FORMS: &[Row] = &[
    (
        "a branch",
        "if (1 > 0) { show(1); }",
        KEY_42,
        "paragon Shop in.txt 1000",
        ("out Shop.show 1\nend\n", 0),
    ),
    (
        "the second part of && is not evaluated",
        "open Paid; if (got > 0 && key() > 0) { } show(key());",
        "Shop.key: 5 6\n",
        "paragon Shop in.txt 1000",
        ("out Shop.show 5\nend\n", 0),
    ),
    (
        "a loop",
        "int n = 0; while (n < 3) { n = n + 1; show(n); }",
        KEY_42,
        "paragon Shop in.txt 1000",
        (
            "out Shop.show 1\nout Shop.show 2\nout Shop.show 3\nend\n",
            0,
        ),
    ),
];

#[test]
fn forms_are_compiled_and_run(rt: HostRuntime) -> Result<(), Fail> {
    check_rows(rt.alloc(), FORMS)
}

/// The second line of the common source, with a class behind it that comes before the others.
const WITH_A_BOX: &str = "lock Paid; class Box ?{alice:; bob:} { ?{alice:; bob:} int held; }";

/// Sources with more members or classes than the common one: lines in place of some of its own, how
/// the compilation is answered, the steps of the run, and what is told of it.
const SOURCES: &[(Lines, Answer, &str, Answer)] = &[
    (
        &[
            (8, "show(down(1000));"),
            (
                9,
                "} static int down(int n) { if (n == 0) { return 0; } return down(n - 1); }",
            ),
        ],
        COMPILED,
        "paragon Shop in.txt 200000",
        ("out Shop.show 0\nend\n", 0),
    ),
    (
        &[
            (2, WITH_A_BOX),
            (8, "notnull Box b = new Box(); b.held = 3; show(b.held);"),
        ],
        ("accepted 2\n", 0),
        "paragon Shop in.txt 1000",
        ("new Box#0\nput Box#0.held 3\nout Shop.show 3\nend\n", 0),
    ),
];

fn folder_of_key(alloc: Global, lines: Lines) -> Result<MemFolder, NoMemory> {
    let source = with_lines(alloc, lines)?;
    let mut folder = folder_of(alloc, source.as_str())?;
    folder.add("in.txt", KEY_42.as_bytes())?;
    Ok(folder)
}

fn runs_as(
    alloc: Global,
    lines: Lines,
    answer: Answer,
    command: &str,
    told: Answer,
) -> Result<bool, NoMemory> {
    let mut folder = folder_of_key(alloc, lines)?;
    let is_compiled = answers(alloc, "paragonc shop.par", &mut folder, answer)?;
    Ok(is_compiled && answers(alloc, command, &mut folder, told)?)
}

#[test]
fn methods_and_classes_are_compiled_and_run(rt: HostRuntime) -> Result<(), Fail> {
    for (lines, answer, command, told) in SOURCES {
        let runs = runs_as(rt.alloc(), lines, *answer, command, *told)?;
        expect(runs, last_of(lines))?;
    }
    Ok(())
}

/// The write that fails, and which of the class files stand then.
const WRITES: &[(&str, u64, bool)] = &[
    ("the first write fails", 1, false),
    ("the second write fails", 2, true),
];

fn folder_with_box(alloc: Global) -> Result<MemFolder, NoMemory> {
    let source = with_line(alloc, 2, WITH_A_BOX)?;
    folder_of(alloc, source.as_str())
}

/// Whether the class file before the one that fails is whole, and the one behind it was not made.
fn is_cut_off(alloc: Global, call: u64, first: bool) -> Result<bool, NoMemory> {
    let mut folder = folder_with_box(alloc)?;
    folder.fail_write(call, 0)?;
    let fault = ("write fault\n", 5);
    let is_told = answers(alloc, "paragonc shop.par", &mut folder, fault)?;
    let box_is_whole = match folder.get("Box.class") {
        Some(file) => !file.is_empty(),
        None => false,
    };
    let shop_is_there = folder.get("Shop.class").is_some();
    Ok(is_told && box_is_whole == first && shop_is_there == (call == 2))
}

#[test]
fn class_files_are_written_in_order(rt: HostRuntime) -> Result<(), Fail> {
    for (name, call, first) in WRITES {
        expect(is_cut_off(rt.alloc(), *call, *first)?, name)?;
    }
    Ok(())
}
