//! Puts that fail, each in turn, in each form of words and of each answer.

use crate::hostile_programs::{EVENTS, RUN, THREE_CLASSES, VERIFY, class_files, source};
use par_io::{MemFolder, MemSink, NoMemory};
use par_row_calls::{ACCEPTED, Answer, Lines, call, with_lines};
use par_worked::expect;
use std::alloc::{AllocError, Global};
use std::test::Fail;

/// A command, how many lines it puts, its answer, and whether class files are there behind it.
type Form = (&'static str, u64, Answer, bool);

/// Further sources of the folder, as lines of the common one.
const SOURCES: &[(&str, Lines)] = &[
    (
        "released.par",
        &[(8, "open Paid; show(1); show(key()); show(key() + 1);")],
    ),
    (
        "open.par",
        &[
            (
                6,
                "?_ static int one; ?_ static int two; ?_ static int three;",
            ),
            (8, "one = two; two = three; three = key();"),
        ],
    ),
    ("early.par", &[(8, "show(key());")]),
    (
        "thrown.par",
        &[
            (
                7,
                "static void main() !bottom throws ArithmeticException bottom {",
            ),
            (8, "show(2); show(1 / got);"),
        ],
    ),
];

const LOCKED_EVENTS: &str = "\
new Item#0 []
new Item#1 []
put Item#0.f 1 []
put Item#1.f 2 []
put Item#0.f 3 []
out Shop.show 3 []
end
";

const RELEASES: &str = "\
release 403 at 8:21
release 403 at 8:34
audited 2
";

const INFERRED: &str = "\
field Shop.one {alice:; bob: Paid}
field Shop.two {alice:; bob: Paid}
field Shop.three {alice:; bob: Paid}
inferred 3
";

const FORMS: &[Form] = &[
    ("paragonc shop.par", 1, ("accepted 3\n", 0), true),
    ("paragonc --check shop.par", 1, ACCEPTED, false),
    (
        "paragonc --trace shop.par in.txt 1000",
        7,
        (LOCKED_EVENTS, 0),
        false,
    ),
    ("paragonc --audit bob released.par", 3, (RELEASES, 0), false),
    ("paragonc --infer open.par", 4, (INFERRED, 0), false),
    (RUN, 7, (EVENTS, 0), true),
    (VERIFY, 1, ("verified 2\n", 0), true),
    ("paragonc early.par", 1, ("refused 403 at 8:1\n", 1), false),
    ("paragonc", 1, ("usage\n", 2), false),
    ("paragonc none.par", 1, ("absent\n", 3), false),
    (
        "paragonc --trace thrown.par in.txt 1000",
        2,
        ("out Shop.show 2 []\nuncaught ArithmeticException\n", 10),
        false,
    ),
    (
        "paragon Shop in.txt 3",
        2,
        ("new Item#0\nbudget\n", 11),
        true,
    ),
    (
        "paragon Cut in.txt 1",
        1,
        ("bad class Cut 32 3\n", 12),
        true,
    ),
    (
        "paragon Shop shop.par 1",
        1,
        ("bad inputs line 1\n", 13),
        true,
    ),
    (
        "paragonc --audit carol released.par",
        1,
        ("no actor\n", 15),
        false,
    ),
];

const SAMPLE: Form = (
    "paragonc --sample 7",
    1,
    (
        "sample 7 classes 101 methods 1001 nodes 17007 accepted 101\n",
        0,
    ),
    false,
);

fn first_folder(alloc: Global, command: &str) -> Result<MemFolder, NoMemory> {
    if command.starts_with("paragonc") {
        source(alloc, THREE_CLASSES)
    } else {
        class_files(alloc, THREE_CLASSES)
    }
}

fn add_sources(alloc: Global, folder: &mut MemFolder) -> Result<(), NoMemory> {
    for (name, lines) in SOURCES {
        let source = with_lines(alloc, lines)?;
        folder.add(name, source.as_bytes())?;
    }
    folder.add("Cut.class", b"\xca\xfe\xba")
}

/// The folder that a command finds: all sources, and for the runner class files.
fn folder_for(alloc: Global, command: &str) -> Result<MemFolder, NoMemory> {
    let mut folder = first_folder(alloc, command)?;
    add_sources(alloc, &mut folder)?;
    Ok(folder)
}

/// What is held where one put failed, counted from 0: the lines before its own, and five bytes of
/// that.
fn front(alloc: Global, text: &str, put: u64) -> Result<Vec<u8>, AllocError> {
    let mut front = Vec::new(alloc);
    for (place, line) in text.split_inclusive('\n').enumerate() {
        let bytes = line.as_bytes();
        if (place as u64) < put {
            front.extend_from_slice(bytes)?;
        } else if place as u64 == put {
            front.extend_from_slice(&bytes[..bytes.len().min(5)])?;
        }
    }
    Ok(front)
}

/// Whether a form has this status where that put is set to fail, and this is held then.
fn put_holds(
    alloc: Global,
    form: &Form,
    put: u64,
    status: u8,
    held: &[u8],
) -> Result<bool, NoMemory> {
    let mut folder = folder_for(alloc, form.0)?;
    let mut out = MemSink::new(alloc, 1000)?;
    out.fail_put(put.saturating_add(1), 5);
    let answered = call(alloc, form.0, &mut folder, &mut out)?;
    let is_told = (answered, out.bytes()) == (status, held);
    Ok(is_told && folder.get("Bad.class").is_some() == form.3)
}

/// Whether each of its puts may fail, and there is none behind its lines.
fn puts_hold(alloc: Global, form: &Form) -> Result<bool, NoMemory> {
    for put in 0..form.1 {
        let held = front(alloc, form.2.0, put)?;
        if !put_holds(alloc, form, put, 6, held.as_slice())? {
            return Ok(false);
        }
    }
    let text = form.2.0.as_bytes();
    put_holds(alloc, form, form.1, form.2.1, text)
}

#[test]
fn each_put_of_each_form_may_fail(rt: HostRuntime) -> Result<(), Fail> {
    for form in FORMS {
        expect(puts_hold(rt.alloc(), form)?, form.0)?;
    }
    Ok(())
}

#[test]
fn the_put_of_a_sample_may_fail(rt: HostRuntime) -> Result<(), Fail> {
    expect(puts_hold(rt.alloc(), &SAMPLE)?, SAMPLE.0)
}
