//! Runs of class files that were compiled, on input files.

use crate::hand_made::files_run_as;
use par_io::{MemFolder, NoMemory};
use par_row_calls::{Answer, KEY_42, Row, SHOWS_KEY, answers, check_rows, compiled, with_line};
use par_worked::expect;
use std::alloc::Global;
use std::test::Fail;

const RUN: &str = "paragon Shop in.txt 1000";

const BAD_FIRST_LINE: Answer = ("bad inputs line 1\n", 13);

const BAD_SECOND_LINE: Answer = ("bad inputs line 2\n", 13);

const EVENTS: &[Row] = &[
    (
        "an input is put out",
        SHOWS_KEY,
        KEY_42,
        RUN,
        ("out Shop.show 42\nend\n", 0),
    ),
    (
        "a local is set again",
        "int x = key(); x = 3; show(x);",
        KEY_42,
        RUN,
        ("out Shop.show 3\nend\n", 0),
    ),
    (
        "a field is set and shown",
        "show(7); got = 2; show(got);",
        KEY_42,
        RUN,
        ("out Shop.show 7\nset Shop.got 2\nout Shop.show 2\nend\n", 0),
    ),
    (
        "a sum wraps to 32 bits",
        "show(2147483647 + 1);",
        KEY_42,
        RUN,
        ("out Shop.show -2147483648\nend\n", 0),
    ),
    (
        "the list is spent",
        "open Paid; show(key() + key() + key());",
        KEY_42,
        RUN,
        ("out Shop.show 42\nend\n", 0),
    ),
    (
        "numbers of each length",
        "show(40000); show(300); show(200);",
        KEY_42,
        RUN,
        (
            "out Shop.show 40000\nout Shop.show 300\nout Shop.show 200\nend\n",
            0,
        ),
    ),
    ("nothing is done", "", KEY_42, RUN, ("end\n", 0)),
];

#[test]
fn runs_show_their_events(rt: HostRuntime) -> Result<(), Fail> {
    check_rows(rt.alloc(), EVENTS)
}

const SETS_A_FIELD: &str =
    "actor alice, bob;\nlock Paid;\nclass Shop {\n?{alice:; bob: Paid} input int key();\n\
     ?{alice:; bob:} output void show(int v);\n?{alice:; bob: Paid} static int got;\n\
     static void main() !bottom {\ngot = key() + 1; show(7);\n}\n}\n";

fn sets_a_field(alloc: Global) -> Result<bool, NoMemory> {
    let mut folder = compiled(alloc, SETS_A_FIELD, KEY_42)?;
    let answer = ("set Shop.got 43\nout Shop.show 7\nend\n", 0);
    answers(alloc, RUN, &mut folder, answer)
}

#[test]
fn fields_are_set(rt: HostRuntime) -> Result<(), Fail> {
    expect(sets_a_field(rt.alloc())?, "a field is set")
}

const BUDGETS: &[Row] = &[
    (
        "one instruction: it reads",
        SHOWS_KEY,
        KEY_42,
        "paragon Shop in.txt 1",
        ("budget\n", 11),
    ),
    (
        "two instructions: it puts out",
        SHOWS_KEY,
        KEY_42,
        "paragon Shop in.txt 2",
        ("out Shop.show 42\nbudget\n", 11),
    ),
    (
        "three instructions: it returns",
        SHOWS_KEY,
        KEY_42,
        "paragon Shop in.txt 3",
        ("out Shop.show 42\nend\n", 0),
    ),
];

#[test]
fn budgets_end_runs(rt: HostRuntime) -> Result<(), Fail> {
    check_rows(rt.alloc(), BUDGETS)
}

const INPUTS: &[Row] = &[
    (
        "one above int",
        SHOWS_KEY,
        "Shop.key: 2147483648\n",
        RUN,
        BAD_FIRST_LINE,
    ),
    (
        "one below int",
        SHOWS_KEY,
        "Shop.key: -2147483649\n",
        RUN,
        BAD_FIRST_LINE,
    ),
    (
        "the least int",
        SHOWS_KEY,
        "Shop.key: -2147483648\n",
        RUN,
        ("out Shop.show -2147483648\nend\n", 0),
    ),
    (
        "a channel that puts out",
        SHOWS_KEY,
        "Shop.show: 1\n",
        RUN,
        BAD_FIRST_LINE,
    ),
    (
        "a channel of another class",
        SHOWS_KEY,
        "Other.key: 1\n",
        RUN,
        BAD_FIRST_LINE,
    ),
    ("no line", SHOWS_KEY, "", RUN, ("out Shop.show 0\nend\n", 0)),
    (
        "no number",
        SHOWS_KEY,
        "Shop.key:\n",
        RUN,
        ("out Shop.show 0\nend\n", 0),
    ),
    (
        "a line without an end",
        SHOWS_KEY,
        "Shop.key: 5",
        RUN,
        ("out Shop.show 5\nend\n", 0),
    ),
    (
        "a blank at the end",
        SHOWS_KEY,
        "Shop.key: 5 \n",
        RUN,
        BAD_FIRST_LINE,
    ),
    (
        "no blank before the number",
        SHOWS_KEY,
        "Shop.key:1\n",
        RUN,
        BAD_FIRST_LINE,
    ),
    (
        "zeros in front",
        SHOWS_KEY,
        "Shop.key: 007\n",
        RUN,
        BAD_FIRST_LINE,
    ),
    (
        "minus zero",
        SHOWS_KEY,
        "Shop.key: -0\n",
        RUN,
        ("out Shop.show 0\nend\n", 0),
    ),
    (
        "an empty line counts",
        SHOWS_KEY,
        "\nShop.show: 1\n",
        RUN,
        BAD_SECOND_LINE,
    ),
    (
        "a channel twice",
        SHOWS_KEY,
        "Shop.key: 1\nShop.key: 2\n",
        RUN,
        BAD_SECOND_LINE,
    ),
];

#[test]
fn input_files_are_read(rt: HostRuntime) -> Result<(), Fail> {
    check_rows(rt.alloc(), INPUTS)
}

// A class `Shop` with a static method `main` without arguments and result, with one operand and no
// local: first what stands before its two bytes of code, and then what stands behind them.
const BEFORE: &[u8] = b"\
    \xCA\xFE\xBA\xBE\0\0\0\x31\0\x08\x01\0\x04Shop\x07\0\x01\x01\0\x10java/lang/Object\x07\0\x03\
    \x01\0\x04main\x01\0\x03()V\x01\0\x04Code\
    \0\x31\0\x02\0\x04\0\0\0\0\0\x01\
    \0\x09\0\x05\0\x06\0\x01\0\x07\0\0\0\x0e\0\x01\0\0\0\0\0\x02";

const BEHIND: &[u8] = b"\0\0\0\0\0\0";

const CODES: &[(&str, &[u8], Answer)] = &[
    (
        "iadd, return",
        b"\x60\xb1",
        ("bad code Shop.main 0 1\n", 14),
    ),
    (
        "iload_0, return: there is no local",
        b"\x1a\xb1",
        ("bad code Shop.main 0 4\n", 14),
    ),
    (
        "iconst_0, iconst_0: nothing stands behind, and there is room for one operand",
        b"\x03\x03",
        ("bad code Shop.main 1 3\n", 14),
    ),
    (
        "pop: an operand is missing",
        b"\x57\xb1",
        ("bad code Shop.main 0 1\n", 14),
    ),
    ("iconst_0, return", b"\x03\xb1", ("end\n", 0)),
];

/// Whether a class file `Shop` is run with this answer.
fn runs_as(alloc: Global, file: &[u8], answer: Answer) -> Result<bool, NoMemory> {
    files_run_as(alloc, &[("Shop.class", file)], RUN, answer)
}

fn code_runs_as(alloc: Global, code: &[u8], answer: Answer) -> Result<bool, NoMemory> {
    let mut file = BEFORE.to_vec(alloc)?;
    file.extend_from_slice(code)?;
    file.extend_from_slice(BEHIND)?;
    runs_as(alloc, file.as_slice(), answer)
}

#[test]
fn bad_code_is_told(rt: HostRuntime) -> Result<(), Fail> {
    for (name, code, answer) in CODES {
        expect(code_runs_as(rt.alloc(), code, *answer)?, name)?;
    }
    Ok(())
}

/// The class file of another class.
fn other_class(alloc: Global) -> Result<MemFolder, NoMemory> {
    let source = with_line(alloc, 3, "class Store {")?;
    compiled(alloc, source.as_str(), KEY_42)
}

#[test]
fn other_class_files_are_not_run(rt: HostRuntime) -> Result<(), Fail> {
    let folder = other_class(rt.alloc())?;
    let file = folder.get("Store.class").ok_or("the file is written")?;
    let answer = ("bad class Shop 40 0\n", 12);
    expect(runs_as(rt.alloc(), file, answer)?, "another class")
}
