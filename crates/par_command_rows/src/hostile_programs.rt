//! The programs that are used hostilely.

use par_io::{MemFolder, MemSink, NoMemory};
use par_row_calls::{KEY_42, Lines, SHOWS_KEY, call, folder_of, with_lines};
use std::alloc::Global;

/// Writes two objects, one of them under two names.
const OBJECTS: (usize, &str) = (
    8,
    "notnull Item a = new Item(); notnull Item b = new Item(); notnull Item c = a; \
     a.f = 1; b.f = 2; c.f = 3; show(a.f);",
);

/// A program that asks for the key and shows it.
pub const ONE_CLASS: Lines = &[(8, SHOWS_KEY)];

/// A program of two classes.
pub const TWO_CLASSES: Lines = &[OBJECTS, (10, "}\nclass Item { int f; }")];

/// The same program with a class of exceptions. Its class files are written in the order `Shop`,
/// `Item`, `Bad`.
pub const THREE_CLASSES: Lines = &[
    OBJECTS,
    (
        10,
        "}\nclass Item { int f; }\nclass Bad extends Exception { }",
    ),
];

/// What a run of both shows.
pub const EVENTS: &str = "\
new Item#0
new Item#1
put Item#0.f 1
put Item#1.f 2
put Item#0.f 3
out Shop.show 3
end
";

/// A command that runs the class files.
pub const RUN: &str = "paragon Shop in.txt 1000";

/// A command that verifies them.
pub const VERIFY: &str = "paragon --verify Shop";

/// A folder with the common source with these lines, and an input file.
pub fn source(alloc: Global, lines: Lines) -> Result<MemFolder, NoMemory> {
    let source = with_lines(alloc, lines)?;
    let mut folder = folder_of(alloc, source.as_str())?;
    folder.add("in.txt", KEY_42.as_bytes())?;
    Ok(folder)
}

/// The same, once it was compiled.
pub fn class_files(alloc: Global, lines: Lines) -> Result<MemFolder, NoMemory> {
    let mut folder = source(alloc, lines)?;
    let mut out = MemSink::new(alloc, 100)?;
    call(alloc, "paragonc shop.par", &mut folder, &mut out)?;
    Ok(folder)
}
