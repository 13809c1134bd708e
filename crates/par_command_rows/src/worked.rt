//! The rows that show what each form of words does, by both programs.

use par_row_calls::{ACCEPTED, COMPILED, KEY_42, Row, SHOWS_KEY, check_rows};
use std::test::Fail;

const ROWS: &[Row] = &[
    (
        "the key is shown once Paid is open: checked",
        SHOWS_KEY,
        KEY_42,
        "paragonc --check shop.par",
        ACCEPTED,
    ),
    (
        "the key is shown once Paid is open: compiled",
        SHOWS_KEY,
        KEY_42,
        "paragonc shop.par",
        COMPILED,
    ),
    (
        "the key is shown once Paid is open: run",
        SHOWS_KEY,
        KEY_42,
        "paragon Shop in.txt 1000",
        ("out Shop.show 42\nend\n", 0),
    ),
    (
        "the key is shown once Paid is open: run for one instruction",
        SHOWS_KEY,
        KEY_42,
        "paragon Shop in.txt 1",
        ("budget\n", 11),
    ),
    (
        "the key is shown too early",
        "show(key());",
        KEY_42,
        "paragonc --check shop.par",
        ("refused 403 at 8:1\n", 1),
    ),
    (
        "the key is kept where bob sees it",
        "got = key();",
        KEY_42,
        "paragonc --check shop.par",
        ("refused 401 at 8:1\n", 1),
    ),
    (
        "a local no longer holds the key: checked",
        "int x = key(); x = 3; show(x);",
        KEY_42,
        "paragonc --check shop.par",
        ACCEPTED,
    ),
    (
        "a local no longer holds the key: run",
        "int x = key(); x = 3; show(x);",
        KEY_42,
        "paragon Shop in.txt 1000",
        ("out Shop.show 3\nend\n", 0),
    ),
    (
        "a branch on the key",
        "if (key() > 0) { return; } show(1);",
        KEY_42,
        "paragonc --check shop.par",
        ("refused 404 at 8:28\n", 1),
    ),
    (
        "a source that is not there",
        SHOWS_KEY,
        KEY_42,
        "paragonc --check none.par",
        ("absent\n", 3),
    ),
    (
        "an input above the numbers of int",
        SHOWS_KEY,
        "Shop.key: 2147483648\n",
        "paragon Shop in.txt 1000",
        ("bad inputs line 1\n", 13),
    ),
    (
        "an input for a channel that puts out",
        SHOWS_KEY,
        "Shop.show: 1\n",
        "paragon Shop in.txt 1000",
        ("bad inputs line 1\n", 13),
    ),
    (
        "an empty input file",
        SHOWS_KEY,
        "",
        "paragon Shop in.txt 1000",
        ("out Shop.show 0\nend\n", 0),
    ),
];

#[test]
fn worked_rows(rt: HostRuntime) -> Result<(), Fail> {
    check_rows(rt.alloc(), ROWS)
}
