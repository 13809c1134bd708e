//! Sources at a limit, and one above it.

use par_io::{MemFolder, MemSink, NoMemory};
use par_row_calls::{
    ACCEPTED, Answer, KEY_42, call, checks_as, compiled, line_checks_as, with_body, with_line,
};
use par_worked::expect;
use std::alloc::{AllocError, Global};
use std::test::Fail;

/// A line of the common source, by its number, of texts that repeat so many times. In a text a `#`
/// stands for the number of the repetition, from 0.
type Row = (&'static str, usize, &'static [(&'static str, u32)], Answer);

static ROWS: &[Row] = &[
    // the block, the parenthesis of the call, and each `+` nest one deeper
    (
        "tokens nest 64 deep",
        8,
        &[("show(1", 1), (" + 1", 62), (");", 1)],
        ACCEPTED,
    ),
    (
        "tokens nest 65 deep",
        8,
        &[("show(1", 1), (" + 1", 63), (");", 1)],
        ("refused 11 at 8:256\n", 1),
    ),
    // each statement begins a count of its own
    (
        "two statements nest 64 deep",
        8,
        &[
            ("int x = 1", 1),
            (" + 1", 63),
            ("; got = 1", 1),
            (" + 1", 63),
            (";", 1),
        ],
        ACCEPTED,
    ),
    (
        "two statements nest 65 deep",
        8,
        &[
            ("int x = 1", 1),
            (" + 1", 64),
            ("; got = 1", 1),
            (" + 1", 64),
            (";", 1),
        ],
        ("refused 11 at 8:263\n", 1),
    ),
    // an assignment of a number has 3 nodes, `open` has 1, and the block is one
    (
        "a method of 2000 nodes",
        8,
        &[("got = 1; ", 666), ("open Paid;", 1)],
        ACCEPTED,
    ),
    (
        "a method of 2001 nodes",
        8,
        &[("got = 1; ", 666), ("open Paid; open Paid;", 1)],
        ("refused 106 at 7:13 limit 9 count 2001\n", 1),
    ),
    (
        "2001 nodes with two empty blocks",
        8,
        &[("got = 1; ", 666), ("{ } { }", 1)],
        ("refused 106 at 7:13 limit 9 count 2001\n", 1),
    ),
    ("200 locals", 8, &[("int x# = 0; ", 200)], ACCEPTED),
    (
        "201 locals",
        8,
        &[("int x# = 0; ", 201)],
        ("refused 106 at 7:13 limit 12 count 201\n", 1),
    ),
    // beside the two channels
    ("256 members", 6, &[("?{} static int f#; ", 254)], ACCEPTED),
    (
        "257 members",
        6,
        &[("?{} static int f#; ", 255)],
        ("refused 106 at 6:5240 limit 7 count 257\n", 1),
    ),
    (
        "16 actors",
        1,
        &[("actor alice, bob", 1), (", a#", 14), (";", 1)],
        ACCEPTED,
    ),
    (
        "17 actors",
        1,
        &[("actor alice, bob", 1), (", a#", 15), (";", 1)],
        ("refused 106 at 1:79 limit 1 count 17\n", 1),
    ),
    (
        "256 locks",
        2,
        &[("lock Paid; ", 1), ("lock l#; ", 255)],
        ACCEPTED,
    ),
    (
        "257 locks",
        2,
        &[("lock Paid; ", 1), ("lock l#; ", 256)],
        ("refused 106 at 2:2712 limit 2 count 257\n", 1),
    ),
    // as they are written: what repeats counts each time
    (
        "a policy of 32 clauses",
        6,
        &[("?{", 1), ("alice:; ", 31), ("bob:} static int got;", 1)],
        ACCEPTED,
    ),
    (
        "a policy of 33 clauses",
        6,
        &[("?{", 1), ("alice:; ", 32), ("bob:} static int got;", 1)],
        ("refused 106 at 6:2 limit 4 count 33\n", 1),
    ),
    (
        "a clause of 16 locks",
        6,
        &[("?{bob: ", 1), ("Paid, ", 15), ("Paid} static int got;", 1)],
        ACCEPTED,
    ),
    (
        "a clause of 17 locks",
        6,
        &[("?{bob: ", 1), ("Paid, ", 16), ("Paid} static int got;", 1)],
        ("refused 106 at 6:2 limit 5 count 17\n", 1),
    ),
    (
        "a name of 64 bytes",
        6,
        &[("?{} static int ", 1), ("n", 64), (";", 1)],
        ACCEPTED,
    ),
    (
        "a name of 65 bytes",
        6,
        &[("?{} static int ", 1), ("n", 65), (";", 1)],
        ("refused 4 at 6:16\n", 1),
    ),
];

/// Puts a text, with this number in place of its `#`.
fn push_numbered(
    alloc: Global,
    line: &mut String,
    text: &str,
    number: u32,
) -> Result<(), AllocError> {
    match text.split_once('#') {
        None => line.push_str(text),
        Some((before, after)) => {
            line.push_str(before)?;
            line.push_str(number.to_string(alloc)?.as_str())?;
            line.push_str(after)
        }
    }
}

/// Puts a text this many times.
fn push_repeated(
    alloc: Global,
    line: &mut String,
    text: &str,
    times: u32,
) -> Result<(), AllocError> {
    for number in 0..times {
        push_numbered(alloc, line, text, number)?;
    }
    Ok(())
}

/// The line of texts that repeat.
fn repeated(alloc: Global, parts: &[(&str, u32)]) -> Result<String, AllocError> {
    let mut line = String::new(alloc);
    for (text, times) in parts {
        push_repeated(alloc, &mut line, text, *times)?;
    }
    Ok(line)
}

fn row_holds(alloc: Global, row: &Row) -> Result<bool, NoMemory> {
    let line = repeated(alloc, row.2)?;
    line_checks_as(alloc, row.1, line.as_str(), row.3)
}

fn check_limits(alloc: Global, rows: &[Row]) -> Result<(), Fail> {
    for row in rows {
        expect(row_holds(alloc, row)?, row.0)?;
    }
    Ok(())
}

#[test]
fn limits_are_kept(rt: HostRuntime) -> Result<(), Fail> {
    check_limits(rt.alloc(), ROWS)
}

/// Limits of nodes, classes, methods, parameters, locks and clauses.
static MORE: &[Row] = &[
    (
        "2000 nodes with an empty block",
        8,
        &[("got = 1; ", 666), ("{ }", 1)],
        ACCEPTED,
    ),
    // those that every program has do not count
    (
        "128 classes",
        2,
        &[("lock Paid; ", 1), ("class C# { } ", 127)],
        ACCEPTED,
    ),
    (
        "129 classes",
        2,
        &[("lock Paid; ", 1), ("class C# { } ", 128)],
        ("refused 106 at 3:7 limit 6 count 129\n", 1),
    ),
    (
        "128 methods",
        6,
        &[("static void m#() { } ", 127)],
        ACCEPTED,
    ),
    (
        "129 methods",
        6,
        &[("static void m#() { } ", 128)],
        ("refused 106 at 7:13 limit 8 count 129\n", 1),
    ),
    (
        "16 parameters",
        6,
        &[("static void m(int a", 1), (", int a#", 15), (") { }", 1)],
        ACCEPTED,
    ),
    (
        "17 parameters",
        6,
        &[("static void m(int a", 1), (", int a#", 16), (") { }", 1)],
        ("refused 106 at 6:13 limit 11 count 17\n", 1),
    ),
    // a block, and three for each assignment; `main` has 4
    (
        "a class of 8000 nodes",
        6,
        &[
            ("static int got; static void a() { ", 1),
            ("got = 1; ", 666),
            ("} static void b() { ", 1),
            ("got = 1; ", 666),
            ("} static void c() { ", 1),
            ("got = 1; ", 666),
            ("} static void d() { ", 1),
            ("got = 1; ", 666),
            ("}", 1),
        ],
        ACCEPTED,
    ),
    (
        "a class of 8001 nodes",
        6,
        &[
            ("static int got; static void a() { ", 1),
            ("got = 1; ", 666),
            ("} static void b() { ", 1),
            ("got = 1; ", 666),
            ("} static void c() { ", 1),
            ("got = 1; ", 666),
            ("} static void d() { ", 1),
            ("got = 1; ", 666),
            ("open Paid; }", 1),
        ],
        ("refused 106 at 3:7 limit 10 count 8001\n", 1),
    ),
    // a family of two actors for two, and one lock
    (
        "256 ground locks",
        2,
        &[("lock Paid; lock L(actor, actor); ", 1), ("lock l#; ", 251)],
        ACCEPTED,
    ),
    (
        "257 ground locks",
        2,
        &[
            ("lock Paid; ", 1),
            ("lock l#; ", 252),
            ("lock L(actor, actor);", 1),
        ],
        ("refused 106 at 2:2679 limit 2 count 257\n", 1),
    ),
    // two, four and five clauses of locks that differ
    (
        "a join of 40 clauses, of its first two 8",
        2,
        &[
            ("lock Paid; ", 1),
            ("lock l#; ", 11),
            (
                "policy P = {alice: l0; alice: l1} * {alice: l2; alice: l3; ",
                1,
            ),
            (
                "alice: l4; alice: l5} * {alice: l6; alice: l7; alice: l8; ",
                1,
            ),
            ("alice: l9; alice: l10};", 1),
        ],
        ("refused 106 at 2:123 limit 4 count 40\n", 1),
    ),
    (
        "a join of 32 clauses",
        2,
        &[
            ("lock Paid; ", 1),
            ("lock l#; ", 11),
            (
                "policy P = {alice: l0; alice: l1} * {alice: l2; alice: l3; ",
                1,
            ),
            (
                "alice: l4; alice: l5} * {alice: l6; alice: l7; alice: l8; ",
                1,
            ),
            ("alice: l9};", 1),
        ],
        ACCEPTED,
    ),
    // a policy is looked at as it is written, also beside too many actors
    (
        "17 actors behind a policy of 33 clauses",
        1,
        &[
            ("policy P = {", 1),
            ("alice:; ", 32),
            ("alice:}; actor alice, bob", 1),
            (", a#", 15),
            (";", 1),
        ],
        ("refused 106 at 1:12 limit 4 count 33\n", 1),
    ),
    // but a join is not
    (
        "17 actors behind a join of 36 clauses",
        2,
        &[
            ("lock Paid; ", 1),
            ("lock l#; ", 12),
            (
                "policy P = {alice: l0; alice: l1; alice: l2; alice: l3; ",
                1,
            ),
            (
                "alice: l4; alice: l5} * {alice: l6; alice: l7; alice: l8; ",
                1,
            ),
            ("alice: l9; alice: l10; alice: l11}; actor a", 1),
            (", a#", 14),
            (";", 1),
        ],
        ("refused 106 at 2:336 limit 1 count 17\n", 1),
    ),
];

#[test]
fn limits_of_other_sources_are_kept(rt: HostRuntime) -> Result<(), Fail> {
    check_limits(rt.alloc(), MORE)
}

/// Blocks, each `else`, and the signs, `.` and `(` of an expression nest; the main block is one.
static NESTED_BLOCKS: &[Row] = &[
    (
        "a block of 64 braces",
        8,
        &[("{ ", 63), ("} ", 63)],
        ACCEPTED,
    ),
    (
        "a block of 65 braces",
        8,
        &[("{ ", 64), ("} ", 64)],
        ("refused 11 at 8:127\n", 1),
    ),
    (
        "a chain of 62 else",
        8,
        &[("if (true) { } else ", 62), ("{ }", 1)],
        ACCEPTED,
    ),
    (
        "a chain of 63 else",
        8,
        &[("if (true) { } else ", 63), ("{ }", 1)],
        ("refused 11 at 8:1198\n", 1),
    ),
    (
        "a chain of 63 else if",
        8,
        &[("if (true) { } else ", 62), ("if (true) { }", 1)],
        ACCEPTED,
    ),
    (
        "a chain of 64 else if",
        8,
        &[("if (true) { } else ", 63), ("if (true) { }", 1)],
        ("refused 11 at 8:1208\n", 1),
    ),
    (
        "the parentheses of when count nothing",
        8,
        &[("when (Paid) { ", 62), ("} ", 62)],
        ACCEPTED,
    ),
    (
        "an else of when counts",
        8,
        &[("when (Paid) { } else { ", 31), ("} ", 31)],
        ACCEPTED,
    ),
    (
        "an else of when counts, one too many",
        8,
        &[("when (Paid) { } else { ", 32), ("} ", 32)],
        ("refused 11 at 8:735\n", 1),
    ),
];

#[test]
fn tokens_nest_up_to_64_deep(rt: HostRuntime) -> Result<(), Fail> {
    check_limits(rt.alloc(), NESTED_BLOCKS)
}

static NESTED_SIGNS: &[Row] = &[
    (
        "63 signs in a row",
        8,
        &[("int x = ", 1), ("- ", 63), ("1;", 1)],
        ACCEPTED,
    ),
    (
        "64 signs in a row",
        8,
        &[("int x = ", 1), ("- ", 64), ("1;", 1)],
        ("refused 11 at 8:135\n", 1),
    ),
    (
        "62 parentheses in a call",
        8,
        &[("show(", 1), ("(", 62), ("1", 1), (")", 63), (";", 1)],
        ACCEPTED,
    ),
    (
        "63 parentheses in a call",
        8,
        &[("show(", 1), ("(", 63), ("1", 1), (")", 64), (";", 1)],
        ("refused 11 at 8:68\n", 1),
    ),
    (
        "a target and a value of 63 together",
        8,
        &[("got", 1), (".f", 30), (" = 1", 1), (" + 1", 33), (";", 1)],
        ("refused 201 at 8:5\n", 1),
    ),
    (
        "a target and a value of 64 together",
        8,
        &[("got", 1), (".f", 30), (" = 1", 1), (" + 1", 34), (";", 1)],
        ("refused 11 at 8:201\n", 1),
    ),
];

#[test]
fn signs_nest_up_to_64_deep(rt: HostRuntime) -> Result<(), Fail> {
    check_limits(rt.alloc(), NESTED_SIGNS)
}

/// Those of a statement count together, and a test begins a count of its own.
static NESTED_TOGETHER: &[Row] = &[
    (
        "blocks, an else and parentheses, 64 together",
        8,
        &[
            ("{ ", 20),
            ("if (true) { } else { ", 1),
            ("show(", 1),
            ("(", 40),
            ("1", 1),
            (")", 41),
            ("; }", 1),
            (" }", 20),
        ],
        ACCEPTED,
    ),
    (
        "blocks, an else and parentheses, 65 together",
        8,
        &[
            ("{ ", 20),
            ("if (true) { } else { ", 1),
            ("show(", 1),
            ("(", 41),
            ("1", 1),
            (")", 42),
            ("; }", 1),
            (" }", 20),
        ],
        ("refused 11 at 8:107\n", 1),
    ),
    (
        "a test begins a count of its own",
        8,
        &[("while (1", 1), (" + 1", 63), (" > 0) { }", 1)],
        ("refused 11 at 8:262\n", 1),
    ),
    (
        "a test counts its signs",
        8,
        &[
            ("int x = 1", 1),
            (" + 1", 62),
            ("; while (1", 1),
            (" + 1", 62),
            (" > 0) { }", 1),
        ],
        ACCEPTED,
    ),
];

#[test]
fn tokens_of_a_statement_nest_together(rt: HostRuntime) -> Result<(), Fail> {
    check_limits(rt.alloc(), NESTED_TOGETHER)
}

/// Whether a source is compiled, and its class file runs to its end.
fn runs_to_its_end(alloc: Global, source: &str) -> Result<bool, NoMemory> {
    let mut folder = compiled(alloc, source, KEY_42)?;
    let mut out = MemSink::new(alloc, 20_000)?;
    let status = call(alloc, "paragon Shop in.txt 2000", &mut folder, &mut out)?;
    Ok(status == 0 && out.bytes().ends_with(b"end\n"))
}

/// Whether a row that is within the limits is compiled and run to its end.
fn row_runs(alloc: Global, row: &Row) -> Result<bool, NoMemory> {
    if row.3.1 != ACCEPTED.1 {
        return Ok(true);
    }
    let line = repeated(alloc, row.2)?;
    let source = with_line(alloc, row.1, line.as_str())?;
    runs_to_its_end(alloc, source.as_str())
}

#[test]
fn sources_at_a_limit_run(rt: HostRuntime) -> Result<(), Fail> {
    for row in ROWS {
        expect(row_runs(rt.alloc(), row)?, row.0)?;
    }
    Ok(())
}

/// Whether a source of so many numbers that need an entry of their own in the constant pool is
/// compiled, and puts them out. Behind 256 entries the longer form of the instruction is written.
fn folder_of_numbers(alloc: Global, many: u32) -> Result<MemFolder, NoMemory> {
    let body = repeated(alloc, &[("show(40000#); ", many)])?;
    let source = with_body(alloc, body.as_str())?;
    compiled(alloc, source.as_str(), KEY_42)
}

fn run_of_numbers(alloc: Global, many: u32) -> Result<(u8, MemSink), NoMemory> {
    let mut folder = folder_of_numbers(alloc, many)?;
    let mut out = MemSink::new(alloc, 20_000)?;
    let status = call(alloc, "paragon Shop in.txt 2000", &mut folder, &mut out)?;
    Ok((status, out))
}

fn shows_numbers(alloc: Global, many: u32) -> Result<bool, NoMemory> {
    let (status, out) = run_of_numbers(alloc, many)?;
    let lines = repeated(alloc, &[("out Shop.show 40000#\n", many), ("end\n", 1)])?;
    Ok((status, out.bytes()) == (0, lines.as_bytes()))
}

#[test]
fn a_constant_pool_of_more_than_256_entries(rt: HostRuntime) -> Result<(), Fail> {
    expect(shows_numbers(rt.alloc(), 300)?, "300 numbers")
}

/// The common source, with blanks behind it, as many as make it so long.
fn padded(alloc: Global, length: usize) -> Result<String, AllocError> {
    let mut source = with_body(alloc, "show(1);")?;
    for _ in source.len()..length {
        source.push_str(" ")?;
    }
    Ok(source)
}

const LENGTHS: &[(&str, usize, Answer)] = &[
    ("a source of 262144 bytes", 262_144, ACCEPTED),
    ("a source of 262145 bytes", 262_145, ("too long\n", 8)),
];

#[test]
fn sources_have_up_to_262144_bytes(rt: HostRuntime) -> Result<(), Fail> {
    for (name, length, answer) in LENGTHS {
        let source = padded(rt.alloc(), *length)?;
        expect(checks_as(rt.alloc(), source.as_str(), *answer)?, name)?;
    }
    Ok(())
}

/// The locks of a set, one bit for each, as a clause of alice names them.
fn push_locks(alloc: Global, source: &mut String, set: u32) -> Result<(), AllocError> {
    let mut before = " l";
    for lock in 0..8u32 {
        if set >> lock & 1 == 1 {
            source.push_str(before)?;
            source.push_str(lock.to_string(alloc)?.as_str())?;
            before = ", l";
        }
    }
    Ok(())
}

/// A field that alice needs the locks of a set for.
fn push_field(alloc: Global, source: &mut String, set: u32) -> Result<(), AllocError> {
    source.push_str("?{alice:")?;
    push_locks(alloc, source, set)?;
    push_numbered(alloc, source, "} static int f#;\n", set)
}

fn push_fields(alloc: Global, source: &mut String) -> Result<(), AllocError> {
    source.push_str("actor alice, bob; ")?;
    push_repeated(alloc, source, "lock l#; ", 8)?;
    source.push_str("class Shop {\n")?;
    for set in 1..256u32 {
        push_field(alloc, source, set)?;
    }
    Ok(())
}

/// A field for each set of the locks `l0` to `l7` but the empty one, and the rest of the class on
/// the line behind them.
fn with_policies(alloc: Global, rest: &str) -> Result<String, AllocError> {
    let mut source = String::new(alloc);
    push_fields(alloc, &mut source)?;
    source.push_str(rest)?;
    Ok(source)
}

/// With `bottom` these are 256 policies, and one more unless the rest repeats an earlier one.
const RESTS: &[(&str, Answer)] = &[
    (
        "?{alice:} static int f0; static void main() !bottom { } }",
        ("refused 106 at 257:2 limit 3 count 257\n", 1),
    ),
    (
        "?{alice: l0} static int f0; static void main() !bottom { } }",
        ACCEPTED,
    ),
    (
        "static void main() !bottom { when (l0) { } } }",
        ("refused 106 at 257:36 limit 3 count 257\n", 1),
    ),
    (
        "static void main() !bottom { } } class I { ?{alice: l0} int a; ?{alice: l1} int b; }",
        ("refused 106 at 257:40 limit 3 count 257\n", 1),
    ),
    (
        "static void main() !bottom { } } class I { ?{alice: l0} int a; ?{alice: l0, l1} int b; }",
        ACCEPTED,
    ),
];

#[test]
fn sources_have_up_to_256_policies(rt: HostRuntime) -> Result<(), Fail> {
    for (rest, answer) in RESTS {
        let source = with_policies(rt.alloc(), rest)?;
        expect(checks_as(rt.alloc(), source.as_str(), *answer)?, rest)?;
    }
    Ok(())
}
