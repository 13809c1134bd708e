//! What the rules on locks and flows say of the common source with other lines, and what the
//! sources that they let pass do.

use par_io::NoMemory;
use par_row_calls::{ACCEPTED, Answer, Lines, check_all, last_of, traces_as, with_lines};
use par_worked::expect;
use std::alloc::Global;
use std::test::Fail;

/// The method closes Paid.
const CLOSES: (usize, &str) = (7, "static void main() !bottom -Paid {");

/// A class of exceptions behind the common source.
const BAD: (usize, &str) = (10, "}\nclass Bad extends Exception { }");

/// The lock has a policy that all see.
const ASKED: (usize, &str) = (2, "lock Paid ?bottom;");

const BRANCHES: &[(Lines, Answer)] = &[
    (
        &[(8, "if (key() > 0) { return; } show(1);")],
        ("refused 404 at 8:28\n", 1),
    ),
    (
        &[
            CLOSES,
            (
                8,
                "int h = key(); open Paid; if (h > 0) { got = 1; } if (got == 1) { close Paid; \
                 show(5); } else { got = 1; close Paid; show(6); }",
            ),
        ],
        ("refused 404 at 8:40\n", 1),
    ),
    (
        &[
            CLOSES,
            (
                8,
                "open Paid; got = key(); close Paid; if (got > 0) { show(1); }",
            ),
        ],
        ACCEPTED,
    ),
    (&[(8, "while (key() > 0) { } show(1);")], ACCEPTED),
    (
        &[(
            8,
            "int a = 0; int b = 0; while (a < 3) { a = b; b = key(); } show(a);",
        )],
        ("refused 403 at 8:59\n", 1),
    ),
    (&[(8, "int x = key(); x = 3; show(x);")], ACCEPTED),
    (
        &[(8, "show(-2147483648 / -1); show(-7 % 3); show(1 << 33);")],
        ACCEPTED,
    ),
    (&[(8, "while (true) { }")], ACCEPTED),
    (
        &[(8, "while (true) { } show(1);")],
        ("refused 204 at 8:18\n", 1),
    ),
];

#[test]
fn branches_and_loops(rt: HostRuntime) -> Result<(), Fail> {
    check_all(rt.alloc(), BRANCHES)
}

const EXCEPTIONS: &[(Lines, Answer)] = &[
    (
        &[
            BAD,
            (
                8,
                "try { if (key() > 0) { throw new Bad(); } } catch (Bad e) { } show(1);",
            ),
        ],
        ACCEPTED,
    ),
    (
        &[
            BAD,
            (
                7,
                "static void main() !bottom throws Bad {alice:; bob: Paid} {",
            ),
            (8, "if (key() > 0) { throw new Bad(); } show(1);"),
        ],
        ("refused 404 at 8:37\n", 1),
    ),
    (
        &[BAD, (8, "if (key() > 0) { throw new Bad(); } show(1);")],
        ("refused 501 at 7:13\n", 1),
    ),
    (
        &[
            (
                7,
                "static void main() !bottom throws ArithmeticException bottom {",
            ),
            (8, "show(1 / got);"),
        ],
        ACCEPTED,
    ),
];

#[test]
fn exceptions(rt: HostRuntime) -> Result<(), Fail> {
    check_all(rt.alloc(), EXCEPTIONS)
}

const CLOSED_LOCKS: &[(Lines, Answer)] = &[
    (
        &[
            CLOSES,
            (8, "open Paid; shut(); show(key());"),
            (9, "}\nstatic void shut() -Paid { close Paid; }"),
        ],
        ("refused 403 at 8:20\n", 1),
    ),
    (
        &[
            CLOSES,
            (8, "open Paid; shut(); show(key());"),
            (9, "}\nstatic void shut() { close Paid; }"),
        ],
        ("refused 302 at 10:22\n", 1),
    ),
    (
        &[
            CLOSES,
            (
                8,
                "open Paid; try { hit(); return; } catch (Bad e) { } show(key());",
            ),
            (
                9,
                "}\nstatic void hit() -Paid throws Bad bottom { close Paid; throw new Bad(); }",
            ),
            BAD,
        ],
        ("refused 403 at 8:53\n", 1),
    ),
];

#[test]
fn closed_locks(rt: HostRuntime) -> Result<(), Fail> {
    check_all(rt.alloc(), CLOSED_LOCKS)
}

const ASKS_TWICE: (usize, &str) = (
    8,
    "when (Paid) { show(key()); } else { show(0); } open Paid; when (Paid) { show(key()); }",
);

const OPENS_IN_BRANCH: (usize, &str) = (
    8,
    "if (key() > 0) { open Paid; } when (Paid) { show(1); }",
);

const QUERIES: &[(Lines, Answer)] = &[
    (&[ASKED, ASKS_TWICE], ACCEPTED),
    (&[ASKS_TWICE], ("refused 404 at 8:15\n", 1)),
    (&[ASKED, OPENS_IN_BRANCH], ("refused 411 at 8:18\n", 1)),
    (&[OPENS_IN_BRANCH], ("refused 404 at 8:45\n", 1)),
    (
        &[(6, "?_ static int got;"), (8, "show(1);")],
        ("refused 109 at 6:15\n", 1),
    ),
];

#[test]
fn lock_queries(rt: HostRuntime) -> Result<(), Fail> {
    check_all(rt.alloc(), QUERIES)
}

const TRACES: &[(Lines, &str, &str, Answer)] = &[
    (
        &[(8, "open Paid; show(key());")],
        "Shop.key: 42\n",
        "paragonc --trace shop.par in.txt 1000",
        ("out Shop.show 42 [Paid]\nend\n", 0),
    ),
    (
        &[(8, "open Paid; show(key());")],
        "Shop.key: 42\n",
        "paragonc --trace shop.par in.txt 1",
        ("budget\n", 11),
    ),
    (
        &[
            CLOSES,
            (
                8,
                "open Paid; got = key(); close Paid; if (got > 0) { show(1); }",
            ),
        ],
        "Shop.key: 42\n",
        "paragonc --trace shop.par in.txt 1000",
        ("set Shop.got 42 [Paid]\nout Shop.show 1 []\nend\n", 0),
    ),
    (
        &[(8, "show(-2147483648 / -1); show(-7 % 3); show(1 << 33);")],
        "",
        "paragonc --trace shop.par in.txt 1000",
        (
            "out Shop.show -2147483648 []\nout Shop.show -1 []\nout Shop.show 2 []\nend\n",
            0,
        ),
    ),
    (
        &[
            (
                7,
                "static void main() !bottom throws ArithmeticException bottom {",
            ),
            (8, "show(1 / got);"),
        ],
        "",
        "paragonc --trace shop.par in.txt 1000",
        ("uncaught ArithmeticException\n", 10),
    ),
    (
        &[(8, "while (key() > 0) { } show(1);")],
        "Shop.key: 1 1\n",
        "paragonc --trace shop.par in.txt 1000",
        ("out Shop.show 1 []\nend\n", 0),
    ),
    (
        &[ASKED, ASKS_TWICE],
        "Shop.key: 42\n",
        "paragonc --trace shop.par in.txt 1000",
        ("out Shop.show 0 []\nout Shop.show 42 [Paid]\nend\n", 0),
    ),
    (
        &[(8, "show(key());")],
        "Shop.key: 42\n",
        "paragonc --trace shop.par in.txt 1000",
        ("refused 403 at 8:1\n", 1),
    ),
    (
        &[(8, "show(1);")],
        "Shop.show: 42\n",
        "paragonc --trace shop.par in.txt 1000",
        ("bad inputs line 1\n", 13),
    ),
];

fn is_told(
    alloc: Global,
    lines: Lines,
    inputs: &str,
    command: &str,
    answer: Answer,
) -> Result<bool, NoMemory> {
    let source = with_lines(alloc, lines)?;
    traces_as(alloc, source.as_str(), inputs, command, answer)
}

#[test]
fn runs_of_sources_are_told(rt: HostRuntime) -> Result<(), Fail> {
    for (lines, inputs, command, answer) in TRACES {
        expect(
            is_told(rt.alloc(), lines, inputs, command, *answer)?,
            last_of(lines),
        )?;
    }
    Ok(())
}
