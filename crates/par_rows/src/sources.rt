//! The common source with one line changed: near misses of each condition.

use par_row_calls::{ACCEPTED, Answer, check_lines, check_sources, checks_as};
use par_worked::expect;
use std::alloc::Global;
use std::test::Fail;

const DECLARATIONS: &[(usize, &str, Answer)] = &[
    (1, "actor alice;", ("refused 103 at 4:11\n", 1)),
    (1, "actor alice, bob, alice;", ("refused 102 at 1:19\n", 1)),
    (1, "actor alice bob;", ("refused 10 at 1:13\n", 1)),
    (1, "", ("refused 103 at 4:3\n", 1)),
    (2, "lock Paid, Gold;", ("refused 10 at 2:10\n", 1)),
    (2, "lock Paid; lock Paid;", ("refused 102 at 2:17\n", 1)),
    (2, "lock Paid; lock Gold;", ACCEPTED),
    (2, "lock Paid(actor);", ("refused 104 at 4:16\n", 1)),
    (2, "lock Gold;", ("refused 101 at 4:16\n", 1)),
    // names of different kinds may be the same
    (2, "lock Paid; lock alice;", ACCEPTED),
    (3, "class alice {", ACCEPTED),
    (
        3,
        "class ArithmeticException {",
        ("refused 102 at 3:7\n", 1),
    ),
    (
        3,
        "class NullPointerException {",
        ("refused 102 at 3:7\n", 1),
    ),
    (3, "class Exception {", ("refused 10 at 3:7\n", 1)),
    (3, "class Shop ?top {", ACCEPTED),
    (
        7,
        "static void other() !bottom {",
        ("refused 105 at 1:1\n", 1),
    ),
    (7, "static void main() {", ACCEPTED),
    (
        7,
        "static int main() !bottom {",
        ("refused 105 at 7:12\n", 1),
    ),
    (
        7,
        "static void main(int x) !bottom {",
        ("refused 105 at 7:13\n", 1),
    ),
    (7, "static void main() !top {", ("refused 404 at 8:1\n", 1)),
    (10, "", ("refused 10 at 11:1\n", 1)),
    (10, "} }", ("refused 10 at 10:3\n", 1)),
    (10, "} class Other { }", ACCEPTED),
    (10, "} // the end", ACCEPTED),
    (10, "} /* the end", ("refused 3 at 10:3\n", 1)),
];

#[test]
fn declarations_are_read(rt: HostRuntime) -> Result<(), Fail> {
    check_lines(rt.alloc(), DECLARATIONS)
}

const MEMBERS: &[(usize, &str, Answer)] = &[
    (
        4,
        "?{alice:; bob: Gold} input int key();",
        ("refused 101 at 4:16\n", 1),
    ),
    (4, "?{carol:} input int key();", ("refused 103 at 4:3\n", 1)),
    (
        4,
        "?{alice:;} input int key();",
        ("refused 10 at 4:10\n", 1),
    ),
    (
        4,
        "?{alice: Paid,} input int key();",
        ("refused 10 at 4:15\n", 1),
    ),
    (
        4,
        "?{alice bob:} input int key();",
        ("refused 10 at 4:9\n", 1),
    ),
    (4, "?{alice: Paid, Paid} input int key();", ACCEPTED),
    (4, "?{} input int key();", ACCEPTED),
    (4, "?bottom input int key();", ACCEPTED),
    (4, "input int key();", ACCEPTED),
    (
        4,
        "?{alice:} input int show();",
        ("refused 102 at 5:29\n", 1),
    ),
    (
        4,
        "?{alice:} input int main();",
        ("refused 102 at 7:13\n", 1),
    ),
    (
        4,
        "?{alice:} input void key();",
        ("refused 10 at 4:17\n", 1),
    ),
    (
        4,
        "?{alice:} input int key(int v);",
        ("refused 10 at 4:25\n", 1),
    ),
    (
        5,
        "?{alice:; bob:} output int show(int v);",
        ("refused 10 at 5:24\n", 1),
    ),
    (
        5,
        "?{alice:; bob:} output void show();",
        ("refused 10 at 5:34\n", 1),
    ),
    (5, "?{alice:; bob:} output void show(int show);", ACCEPTED),
    (
        6,
        "?{alice:} static int got; ?{bob:} static int got;",
        ("refused 102 at 6:46\n", 1),
    ),
    (
        6,
        "?{alice:} static int got; ?{bob:} static int more;",
        ACCEPTED,
    ),
    (6, "?{alice:} static int show;", ACCEPTED),
    (6, "?{alice:} static boolean got;", ACCEPTED),
    (6, "?{alice:} int got;", ACCEPTED),
    (6, "", ACCEPTED),
];

#[test]
fn members_are_read(rt: HostRuntime) -> Result<(), Fail> {
    check_lines(rt.alloc(), MEMBERS)
}

const WITHOUT_A_CLASS: &[(&str, Answer)] = &[
    ("", ("refused 105 at 1:1\n", 1)),
    ("// nothing\n", ("refused 105 at 1:1\n", 1)),
    ("actor alice;", ("refused 105 at 1:1\n", 1)),
    ("#", ("refused 1 at 1:1\n", 1)),
    ("show(1);", ("refused 10 at 1:1\n", 1)),
];

#[test]
fn sources_without_tokens_or_class(rt: HostRuntime) -> Result<(), Fail> {
    check_sources(rt.alloc(), WITHOUT_A_CLASS)
}

/// The policy of a channel on which what `key` gives is put out.
const POLICIES: &[(&str, Answer)] = &[
    ("?{alice:; bob: Paid}", ACCEPTED),
    ("?{bob: Paid; alice:}", ACCEPTED),
    ("?{bob: Gold, Paid}", ACCEPTED),
    ("?{}", ACCEPTED),
    ("?{bob:}", ("refused 403 at 8:1\n", 1)),
    ("?{bob: Gold}", ("refused 403 at 8:1\n", 1)),
    (
        "?{alice:; bob: Paid; bob: Gold}",
        ("refused 403 at 8:1\n", 1),
    ),
];

fn channel_checks_as(alloc: Global, policy: &str, answer: Answer) -> Result<bool, Fail> {
    let source = format!(in alloc;
        "actor alice, bob; lock Paid; lock Gold; class Shop {{\n\
         ?{{alice:; bob: Paid}} input int key();\n{policy} output void show(int v);\n\n\n\n\
         static void main() !bottom {{\nshow(key()); }} }}"
    )?;
    Ok(checks_as(alloc, source.as_str(), answer)?)
}

#[test]
fn policies_are_ordered_by_who_sees_them(rt: HostRuntime) -> Result<(), Fail> {
    for (policy, answer) in POLICIES {
        expect(channel_checks_as(rt.alloc(), policy, *answer)?, policy)?;
    }
    Ok(())
}
