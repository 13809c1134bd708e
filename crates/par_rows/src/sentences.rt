//! Sources that are no sentences, and sentences of the whole language: each with its answer.

use par_row_calls::{ACCEPTED, Answer, check_bodies, check_lines, check_sources};
use std::test::Fail;

const FORMS: &[(&str, Answer)] = &[
    ("show(2147483649);", ("refused 2 at 8:6\n", 1)),
    (
        "if (true) { show(1); } else show(0);",
        ("refused 10 at 8:29\n", 1),
    ),
    (
        "when (Paid) { } else when (Paid) { }",
        ("refused 10 at 8:22\n", 1),
    ),
    (
        "when (Paid) { show(1); } else { show(0); }",
        ("refused 404 at 8:15\n", 1),
    ),
    ("try { }", ("refused 10 at 9:1\n", 1)),
    ("try { } catch (Bad) { }", ("refused 10 at 8:19\n", 1)),
    ("throw new Bad;", ("refused 10 at 8:14\n", 1)),
    ("return", ("refused 10 at 9:1\n", 1)),
    ("a.b;", ("refused 10 at 8:4\n", 1)),
    ("this = 1;", ("refused 10 at 8:6\n", 1)),
    ("int = 1;", ("refused 10 at 8:5\n", 1)),
    ("notnull x = null;", ("refused 10 at 8:11\n", 1)),
    ("?{alice:} x;", ("refused 10 at 8:12\n", 1)),
    ("open Paid", ("refused 10 at 9:1\n", 1)),
    ("close;", ("refused 10 at 8:6\n", 1)),
    ("new Item();", ("refused 10 at 8:1\n", 1)),
    ("(got) = 1;", ("refused 10 at 8:1\n", 1)),
    ("x y;", ("refused 10 at 8:4\n", 1)),
    ("got == 1;", ("refused 10 at 8:5\n", 1)),
    ("!true;", ("refused 10 at 8:1\n", 1)),
    ("f()().g;", ("refused 10 at 8:4\n", 1)),
    ("f(1,);", ("refused 10 at 8:5\n", 1)),
    ("f(,1);", ("refused 10 at 8:3\n", 1)),
    ("f().g.h(2).i = 3;", ("refused 101 at 8:1\n", 1)),
    ("this.f = this.g().h;", ("refused 101 at 8:1\n", 1)),
    ("int x = a.b(c, d)[0];", ("refused 1 at 8:18\n", 1)),
    ("int x = new Item;", ("refused 10 at 8:17\n", 1)),
    ("int x = 1 >> > 2;", ("refused 10 at 8:14\n", 1)),
    ("int x = 1 >>> 2;", ACCEPTED),
    (
        "boolean b = !(1 < 2) == true && x || y;",
        ("refused 101 at 8:33\n", 1),
    ),
    ("while true { }", ("refused 10 at 8:7\n", 1)),
    ("for (;;) { }", ("refused 10 at 8:6\n", 1)),
    ("break; continue;", ("refused 205 at 8:1\n", 1)),
];

#[test]
fn statements_are_read(rt: HostRuntime) -> Result<(), Fail> {
    check_bodies(rt.alloc(), FORMS)
}

const DECLARED: &[(usize, &str, Answer)] = &[
    (6, "?_ static int got;", ("refused 109 at 6:15\n", 1)),
    (4, "?_ input int key();", ("refused 10 at 4:4\n", 1)),
    (6, "?_ static void f() { }", ("refused 10 at 6:11\n", 1)),
    (6, "?_ got;", ("refused 10 at 6:7\n", 1)),
    (2, "lock Paid ?bottom;", ACCEPTED),
    (2, "lock Paid(actor, actor);", ("refused 104 at 4:16\n", 1)),
    (
        2,
        "lock Paid(actor, actor, actor);",
        ("refused 10 at 2:23\n", 1),
    ),
    (2, "lock Paid ?;", ("refused 10 at 2:12\n", 1)),
    (
        2,
        "policy P = {alice:} * bottom * top;",
        ("refused 101 at 4:16\n", 1),
    ),
    (
        2,
        "policy P = {alice:} + bottom;",
        ("refused 10 at 2:21\n", 1),
    ),
    (3, "class Shop ?top {", ACCEPTED),
    (3, "class Shop ? {", ("refused 10 at 4:1\n", 1)),
    (3, "class Bad extends Exception { } class Shop {", ACCEPTED),
    (
        3,
        "class Bad extends Exception { int x; } class Shop {",
        ("refused 10 at 3:31\n", 1),
    ),
    (6, "static input int got();", ("refused 10 at 6:8\n", 1)),
    (6, "notnull Item x;", ("refused 10 at 6:1\n", 1)),
    (
        6,
        "int f(notnull Item x, ?top boolean b) ~Paid +Paid -Paid throws Bad top !top { return 1; }",
        ("refused 101 at 6:15\n", 1),
    ),
    (
        6,
        "int f() throws Bad { return 1; }",
        ("refused 10 at 6:22\n", 1),
    ),
    (
        6,
        "int f() ~Paid(alice { return 1; }",
        ("refused 10 at 6:21\n", 1),
    ),
    (6, "void f(int) { }", ("refused 10 at 6:11\n", 1)),
    (6, "output void f(boolean v);", ("refused 10 at 6:15\n", 1)),
    (1, "actor alice,;", ("refused 10 at 1:13\n", 1)),
    (1, "actor;", ("refused 10 at 1:6\n", 1)),
];

#[test]
fn declarations_of_the_whole_language_are_read(rt: HostRuntime) -> Result<(), Fail> {
    check_lines(rt.alloc(), DECLARED)
}

/// Sources that end inside each kind of bracket, and elsewhere.
const CUT: &[(&str, Answer)] = &[
    ("class", ("refused 10 at 1:6\n", 1)),
    ("class Shop {", ("refused 10 at 1:13\n", 1)),
    (
        "class Shop { static void main(",
        ("refused 10 at 1:31\n", 1),
    ),
    (
        "class Shop { static void main() {",
        ("refused 10 at 1:34\n", 1),
    ),
    ("class Shop { void f() { g(", ("refused 10 at 1:27\n", 1)),
    ("class Shop { void f() { if (", ("refused 10 at 1:29\n", 1)),
    (
        "class Shop { void f() { x = (1",
        ("refused 10 at 1:31\n", 1),
    ),
    ("lock Paid(", ("refused 10 at 1:11\n", 1)),
    ("policy P = {", ("refused 10 at 1:13\n", 1)),
    ("policy P = {alice: Paid(", ("refused 10 at 1:25\n", 1)),
    ("actor alice", ("refused 10 at 1:12\n", 1)),
    (
        "class Shop { ?{alice:} input int key(",
        ("refused 10 at 1:38\n", 1),
    ),
    ("/*", ("refused 3 at 1:1\n", 1)),
    ("actor alice; // end", ("refused 105 at 1:1\n", 1)),
    (
        "class Shop { void f() { while (true) {",
        ("refused 10 at 1:39\n", 1),
    ),
];

#[test]
fn sources_that_end_early(rt: HostRuntime) -> Result<(), Fail> {
    check_sources(rt.alloc(), CUT)
}

/// What asks whether a lock is open, of a lock that says who may ask.
const QUERIES: &[(&str, Answer)] = &[
    (
        "actor alice;\nlock Paid ?bottom;\nclass Shop {\n\
         static void main() !bottom {\nwhen (Paid) { } else { }\n}\n}\n",
        ACCEPTED,
    ),
    (
        "actor alice;\nlock Paid ?bottom;\nclass Shop {\n\
         static void main() !bottom {\nwhen (Paid) { } else when (Paid) { }\n}\n}\n",
        ("refused 10 at 5:22\n", 1),
    ),
];

#[test]
fn queries_are_read(rt: HostRuntime) -> Result<(), Fail> {
    check_sources(rt.alloc(), QUERIES)
}
