//! Each rule on names, once for each place where a name can stand.

use par_row_calls::{Answer, check_lines};
use std::test::Fail;

/// No such class, wherever the name of a class can stand.
const CLASSES: &[(usize, &str, Answer)] = &[
    (
        10,
        "}\nclass Item { Gone f; }",
        ("refused 101 at 11:14\n", 1),
    ),
    (6, "static void m(Gone x) { }", ("refused 101 at 6:15\n", 1)),
    (
        6,
        "static Gone m() { return null; }",
        ("refused 101 at 6:8\n", 1),
    ),
    (8, "notnull Gone x = null;", ("refused 101 at 8:9\n", 1)),
    (8, "show(new Gone().f);", ("refused 101 at 8:10\n", 1)),
    (
        8,
        "try { } catch (Gone e) { }",
        ("refused 101 at 8:16\n", 1),
    ),
    (
        7,
        "static void main() throws Gone bottom {",
        ("refused 101 at 7:27\n", 1),
    ),
    (8, "show(Gone.f);", ("refused 101 at 8:6\n", 1)),
    (8, "Gone.f = 1;", ("refused 101 at 8:1\n", 1)),
    (8, "Gone.m();", ("refused 101 at 8:1\n", 1)),
];

#[test]
fn classes_are_declared(rt: HostRuntime) -> Result<(), Fail> {
    check_lines(rt.alloc(), CLASSES)
}

/// No such lock, wherever the name of a lock can stand.
const LOCKS: &[(usize, &str, Answer)] = &[
    (2, "lock Paid ?{alice: Gone};", ("refused 101 at 2:20\n", 1)),
    (
        2,
        "lock Paid; policy P = {alice: Gone};",
        ("refused 101 at 2:31\n", 1),
    ),
    (
        3,
        "class Shop ?{alice: Gone} {",
        ("refused 101 at 3:21\n", 1),
    ),
    (
        6,
        "?{alice: Gone} static int got;",
        ("refused 101 at 6:10\n", 1),
    ),
    (
        6,
        "static void m(?{alice: Gone} int x) { }",
        ("refused 101 at 6:24\n", 1),
    ),
    (
        6,
        "?{alice: Gone} static int m() { return 1; }",
        ("refused 101 at 6:10\n", 1),
    ),
    (6, "static void m() ~Gone { }", ("refused 101 at 6:18\n", 1)),
    (
        7,
        "static void main() !{alice: Gone} {",
        ("refused 101 at 7:29\n", 1),
    ),
    (
        7,
        "static void main() +Gone {",
        ("refused 101 at 7:21\n", 1),
    ),
    (
        7,
        "static void main() -Gone {",
        ("refused 101 at 7:21\n", 1),
    ),
    (
        7,
        "static void main() throws ArithmeticException {alice: Gone} {",
        ("refused 101 at 7:55\n", 1),
    ),
    (8, "?{alice: Gone} int x = 1;", ("refused 101 at 8:10\n", 1)),
    (8, "open Gone;", ("refused 101 at 8:6\n", 1)),
];

#[test]
fn locks_are_declared(rt: HostRuntime) -> Result<(), Fail> {
    check_lines(rt.alloc(), LOCKS)
}

/// No such policy before its use, wherever the name of a policy can stand.
const POLICIES: &[(usize, &str, Answer)] = &[
    (2, "lock Paid ?gone;", ("refused 101 at 2:12\n", 1)),
    (
        2,
        "lock Paid; policy P = bottom * gone;",
        ("refused 101 at 2:32\n", 1),
    ),
    (3, "class Shop ?gone {", ("refused 101 at 3:13\n", 1)),
    (4, "?gone input int key();", ("refused 101 at 4:2\n", 1)),
    (
        5,
        "?gone output void show(int v);",
        ("refused 101 at 5:2\n", 1),
    ),
    (6, "?gone static int got;", ("refused 101 at 6:2\n", 1)),
    (
        6,
        "static void m(?gone int x) { }",
        ("refused 101 at 6:16\n", 1),
    ),
    (
        6,
        "?gone static int m() { return 1; }",
        ("refused 101 at 6:2\n", 1),
    ),
    (
        7,
        "static void main() !gone {",
        ("refused 101 at 7:21\n", 1),
    ),
    (
        7,
        "static void main() throws ArithmeticException gone {",
        ("refused 101 at 7:47\n", 1),
    ),
    (
        10,
        "}\nclass Item ?P { } policy P = top;",
        ("refused 101 at 11:13\n", 1),
    ),
];

#[test]
fn policies_are_declared_before(rt: HostRuntime) -> Result<(), Fail> {
    check_lines(rt.alloc(), POLICIES)
}

/// No such actor, wherever the name of an actor can stand.
const ACTORS: &[(usize, &str, Answer)] = &[
    (2, "lock Paid ?{carol:};", ("refused 103 at 2:13\n", 1)),
    (
        2,
        "lock Paid; policy P = {alice:; carol:};",
        ("refused 103 at 2:32\n", 1),
    ),
    (
        2,
        "lock Paid; lock Owns(actor); policy P = {alice: Owns(carol)};",
        ("refused 103 at 2:54\n", 1),
    ),
    (3, "class Shop ?{carol:} {", ("refused 103 at 3:14\n", 1)),
    (
        6,
        "static void m(?{carol:} int x) { }",
        ("refused 103 at 6:17\n", 1),
    ),
    (
        7,
        "static void main() !{carol:} {",
        ("refused 103 at 7:22\n", 1),
    ),
    (
        7,
        "static void main() throws ArithmeticException {carol:} {",
        ("refused 103 at 7:48\n", 1),
    ),
    (
        3,
        "lock Owns(actor); class Shop { static void m() ~Owns(carol) { }",
        ("refused 103 at 3:54\n", 1),
    ),
    (
        3,
        "lock Owns(actor); class Shop { static void m() +Owns(carol) { }",
        ("refused 103 at 3:54\n", 1),
    ),
    (
        3,
        "lock Owns(actor); class Shop { static void m() -Owns(carol) { }",
        ("refused 103 at 3:54\n", 1),
    ),
    (
        3,
        "lock Owns(actor); class Shop { static void m() { open Owns(carol); }",
        ("refused 103 at 3:60\n", 1),
    ),
    (
        3,
        "lock Owns(actor); class Shop { static void m() { close Owns(carol); }",
        ("refused 103 at 3:61\n", 1),
    ),
    (
        3,
        "lock Owns(actor); class Shop { static void m() { when (Owns(carol)) { } }",
        ("refused 103 at 3:61\n", 1),
    ),
];

#[test]
fn actors_are_declared(rt: HostRuntime) -> Result<(), Fail> {
    check_lines(rt.alloc(), ACTORS)
}

/// A lock with another number of actors than it has, wherever a lock can stand.
const ARITIES: &[(usize, &str, Answer)] = &[
    (
        2,
        "lock Paid ?{alice: Paid(alice)};",
        ("refused 104 at 2:20\n", 1),
    ),
    (
        6,
        "?{alice: Paid(alice)} static int got;",
        ("refused 104 at 6:10\n", 1),
    ),
    (
        6,
        "static void m() ~Paid(alice) { }",
        ("refused 104 at 6:18\n", 1),
    ),
    (
        6,
        "static void m() +Paid(alice) { }",
        ("refused 104 at 6:18\n", 1),
    ),
    (
        6,
        "static void m() -Paid(alice) { }",
        ("refused 104 at 6:18\n", 1),
    ),
    (8, "open Paid(alice);", ("refused 104 at 8:6\n", 1)),
    (8, "close Paid(alice, bob);", ("refused 104 at 8:7\n", 1)),
    (
        3,
        "lock Both(actor, actor); class Shop { static void m() { open Both(alice); }",
        ("refused 104 at 3:62\n", 1),
    ),
];

#[test]
fn locks_have_their_actors(rt: HostRuntime) -> Result<(), Fail> {
    check_lines(rt.alloc(), ARITIES)
}

/// A second declaration of a name.
const SECONDS: &[(usize, &str, Answer)] = &[
    (
        2,
        "lock Paid; policy P = top; policy P = top;",
        ("refused 102 at 2:35\n", 1),
    ),
    (10, "}\nclass Shop { }", ("refused 102 at 11:7\n", 1)),
    (
        10,
        "}\nclass ArithmeticException extends Exception { }",
        ("refused 102 at 11:7\n", 1),
    ),
    (
        6,
        "static void m() { } static void m() { }",
        ("refused 102 at 6:33\n", 1),
    ),
    (
        6,
        "static int got; ?{alice:} int got;",
        ("refused 102 at 6:31\n", 1),
    ),
    (
        6,
        "static void m(int a, int a) { }",
        ("refused 102 at 6:26\n", 1),
    ),
    (
        6,
        "static void m(int a) { int a = 1; }",
        ("refused 102 at 6:28\n", 1),
    ),
    (
        6,
        "static void m(int a) { { int a = 1; } }",
        ("refused 102 at 6:30\n", 1),
    ),
    (
        6,
        "static void m(int a) { try { } catch (ArithmeticException a) { } }",
        ("refused 102 at 6:59\n", 1),
    ),
    (
        7,
        "static void main() !bottom !bottom {",
        ("refused 102 at 7:29\n", 1),
    ),
    (
        7,
        "static void main() throws ArithmeticException bottom throws ArithmeticException bottom {",
        ("refused 102 at 7:61\n", 1),
    ),
];

#[test]
fn names_are_declared_once(rt: HostRuntime) -> Result<(), Fail> {
    check_lines(rt.alloc(), SECONDS)
}

/// No such member without a receiver, or of a class.
const MEMBERS: &[(usize, &str, Answer)] = &[
    (8, "gone = 1;", ("refused 101 at 8:1\n", 1)),
    (8, "show(gone());", ("refused 101 at 8:6\n", 1)),
    (8, "Shop.gone = 1;", ("refused 101 at 8:6\n", 1)),
    (8, "Shop.gone();", ("refused 101 at 8:6\n", 1)),
    (
        6,
        "int f; static void m() { show(f); }",
        ("refused 101 at 6:31\n", 1),
    ),
    (
        6,
        "int f; static void m() { f = 1; }",
        ("refused 101 at 6:26\n", 1),
    ),
    (
        6,
        "int f; static void m() { show(Shop.f); }",
        ("refused 101 at 6:36\n", 1),
    ),
    (
        6,
        "void i() { } static void m() { i(); }",
        ("refused 101 at 6:32\n", 1),
    ),
    (
        6,
        "void i() { } static void m() { Shop.i(); }",
        ("refused 101 at 6:37\n", 1),
    ),
    (
        6,
        "int f; static void m() { this.f = 1; }",
        ("refused 101 at 6:26\n", 1),
    ),
];

#[test]
fn members_are_found(rt: HostRuntime) -> Result<(), Fail> {
    check_lines(rt.alloc(), MEMBERS)
}

/// Methods named `main` that are not the one to begin with.
const MAINS: &[(usize, &str, Answer)] = &[
    (7, "void main() {", ("refused 105 at 7:6\n", 1)),
    (
        7,
        "static void main() ~Paid {",
        ("refused 105 at 7:13\n", 1),
    ),
    (
        10,
        "}\nclass Other { static void main() { } }",
        ("refused 105 at 11:27\n", 1),
    ),
];

#[test]
fn one_main_begins(rt: HostRuntime) -> Result<(), Fail> {
    check_lines(rt.alloc(), MAINS)
}
