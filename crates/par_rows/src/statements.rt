//! Bodies of the common source, in which `open Paid` lets bob see what `key` gives.

use par_row_calls::{ACCEPTED, Answer, check_bodies};
use std::test::Fail;

const WRITES: &[(&str, Answer)] = &[
    ("open Paid; show(key());", ACCEPTED),
    ("show(key());", ("refused 403 at 8:1\n", 1)),
    ("got = key();", ("refused 401 at 8:1\n", 1)),
    ("open Paid; got = key();", ACCEPTED),
    ("show(key()); open Paid;", ("refused 403 at 8:1\n", 1)),
    ("show(1);\n  show(key());", ("refused 403 at 9:3\n", 1)),
    (
        "show(1); got = key(); show(key());",
        ("refused 401 at 8:10\n", 1),
    ),
    ("show(key()); got = key();", ("refused 403 at 8:1\n", 1)),
    ("", ACCEPTED),
];

#[test]
fn writes_are_checked_at_the_open_locks(rt: HostRuntime) -> Result<(), Fail> {
    check_bodies(rt.alloc(), WRITES)
}

const LOCALS: &[(&str, Answer)] = &[
    ("int x = key(); x = 3; show(x);", ACCEPTED),
    ("int x = key(); show(x);", ("refused 403 at 8:16\n", 1)),
    (
        "int x = 3; x = key(); show(x);",
        ("refused 403 at 8:23\n", 1),
    ),
    ("int x = key(); open Paid; show(x);", ACCEPTED),
    ("int x = 1 + key(); show(x);", ("refused 403 at 8:20\n", 1)),
    ("int x = key() + 1; show(x);", ("refused 403 at 8:20\n", 1)),
    ("int x = got + 1; show(x + got);", ACCEPTED),
    // a local hides the field of its name, and its first value does not see it
    ("int got = key(); got = 3; show(got);", ACCEPTED),
    ("int got = key(); show(got);", ("refused 403 at 8:18\n", 1)),
    ("int got = got; show(got);", ACCEPTED),
    (
        "int x = key(); int y = x; x = 1; show(y);",
        ("refused 403 at 8:34\n", 1),
    ),
];

#[test]
fn locals_have_the_policy_of_what_they_were_set_to(rt: HostRuntime) -> Result<(), Fail> {
    check_bodies(rt.alloc(), LOCALS)
}

const OTHERS: &[(&str, Answer)] = &[
    (
        "if (key() > 0) { return; } show(1);",
        ("refused 404 at 8:28\n", 1),
    ),
    ("open Gold;", ("refused 101 at 8:6\n", 1)),
    ("close Paid;", ("refused 302 at 8:1\n", 1)),
    ("show(y);", ("refused 101 at 8:6\n", 1)),
    ("show(key);", ("refused 101 at 8:6\n", 1)),
    ("show(show());", ("refused 201 at 8:6\n", 1)),
    ("show();", ("refused 202 at 8:1\n", 1)),
    ("show(1)", ("refused 10 at 9:1\n", 1)),
    ("show(1);;", ("refused 10 at 8:9\n", 1)),
    ("show(1 +);", ("refused 10 at 8:9\n", 1)),
    ("show(1 - 1);", ACCEPTED),
    ("show((1));", ACCEPTED),
    ("show(01);", ("refused 1 at 8:6\n", 1)),
    ("show(2147483648);", ("refused 208 at 8:6\n", 1)),
    ("key();", ACCEPTED),
    ("key(1);", ("refused 202 at 8:1\n", 1)),
    ("x = 1;", ("refused 101 at 8:1\n", 1)),
    ("key = 1;", ("refused 101 at 8:1\n", 1)),
    ("int x;", ("refused 10 at 8:6\n", 1)),
    ("int x = x;", ("refused 101 at 8:9\n", 1)),
    ("int x = 1; int x = 2;", ("refused 102 at 8:16\n", 1)),
    ("boolean x = true;", ACCEPTED),
    ("got = 1 got = 2;", ("refused 10 at 8:9\n", 1)),
    ("{ }", ACCEPTED),
    ("/* show(1);", ("refused 3 at 8:1\n", 1)),
    ("show(1#2);", ("refused 1 at 8:7\n", 1)),
];

#[test]
fn other_bodies_have_their_answers(rt: HostRuntime) -> Result<(), Fail> {
    check_bodies(rt.alloc(), OTHERS)
}

const BLANKS: &[(&str, Answer)] = &[
    ("// a comment\nshow(1);", ACCEPTED),
    ("/* a comment */ show(/* another */ 1);", ACCEPTED),
    ("\tshow ( 2147483647 )\r\n;", ACCEPTED),
];

#[test]
fn blanks_and_comments_stand_anywhere(rt: HostRuntime) -> Result<(), Fail> {
    check_bodies(rt.alloc(), BLANKS)
}
