//! Each rule on types, once for each form that can break it.

use par_row_calls::{ACCEPTED, Answer, check_lines};
use std::test::Fail;

/// A value that does not fit: 201 at that value.
const VALUES: &[(usize, &str, Answer)] = &[
    (8, "if (1) { }", ("refused 201 at 8:5\n", 1)),
    (8, "while (1) { }", ("refused 201 at 8:8\n", 1)),
    (8, "if (!1) { }", ("refused 201 at 8:6\n", 1)),
    (8, "if (1 && true) { }", ("refused 201 at 8:5\n", 1)),
    (8, "if (true || 1) { }", ("refused 201 at 8:13\n", 1)),
    (8, "show(true + 1);", ("refused 201 at 8:6\n", 1)),
    (8, "show(1 << true);", ("refused 201 at 8:11\n", 1)),
    (8, "show(-true);", ("refused 201 at 8:7\n", 1)),
    (8, "if (true < 1) { }", ("refused 201 at 8:5\n", 1)),
    (8, "show(1 & true);", ("refused 201 at 8:10\n", 1)),
    (8, "int x = true;", ("refused 201 at 8:9\n", 1)),
    (8, "boolean x = 1;", ("refused 201 at 8:13\n", 1)),
    (8, "got = true;", ("refused 201 at 8:7\n", 1)),
    (8, "show(true);", ("refused 201 at 8:6\n", 1)),
    (8, "Shop o = 1;", ("refused 201 at 8:10\n", 1)),
    (
        6,
        "static int m() { return true; }",
        ("refused 201 at 6:25\n", 1),
    ),
    (
        6,
        "static void m(boolean b) { } static void n() { m(1); }",
        ("refused 201 at 6:50\n", 1),
    ),
    (8, "boolean x = 1 < 2; x = !x && true;", ACCEPTED),
];

#[test]
fn values_have_their_types(rt: HostRuntime) -> Result<(), Fail> {
    check_lines(rt.alloc(), VALUES)
}

/// Equality of what has no common type: 201 at the operator.
const OPERATORS: &[(usize, &str, Answer)] = &[
    (8, "if (1 == true) { }", ("refused 201 at 8:7\n", 1)),
    (8, "if (null != 1) { }", ("refused 201 at 8:10\n", 1)),
    (8, "if (null == null) { }", ACCEPTED),
    (8, "if (true != false) { }", ACCEPTED),
    (8, "Shop o = null; if (o == null) { }", ACCEPTED),
];

#[test]
fn equals_have_a_common_type(rt: HostRuntime) -> Result<(), Fail> {
    check_lines(rt.alloc(), OPERATORS)
}

/// Members of objects, and exception classes as types: 201 at the name.
const MEMBERS: &[(usize, &str, Answer)] = &[
    (
        6,
        "static Shop o; static void m() { show(o.gone); }",
        ("refused 201 at 6:41\n", 1),
    ),
    (
        6,
        "static Shop o; static int s; static void m() { show(o.s); }",
        ("refused 201 at 6:55\n", 1),
    ),
    (
        6,
        "static Shop o; static void m() { o.gone(); }",
        ("refused 201 at 6:36\n", 1),
    ),
    (
        6,
        "static Shop o; static void m() { o.m(); }",
        ("refused 201 at 6:36\n", 1),
    ),
    (
        6,
        "static void m(int a) { show(a.f); }",
        ("refused 201 at 6:31\n", 1),
    ),
    (
        6,
        "static Shop o; int f; static void m() { show(o.f); }",
        ("refused 501 at 6:35\n", 1),
    ),
    (
        6,
        "static ArithmeticException e;",
        ("refused 201 at 6:8\n", 1),
    ),
    (
        6,
        "static void m(ArithmeticException e) { }",
        ("refused 201 at 6:15\n", 1),
    ),
    (
        6,
        "static ArithmeticException m() { return null; }",
        ("refused 201 at 6:8\n", 1),
    ),
    (
        8,
        "ArithmeticException e = null;",
        ("refused 201 at 8:1\n", 1),
    ),
    (
        8,
        "if (new ArithmeticException() == null) { }",
        ("refused 201 at 8:9\n", 1),
    ),
    (
        6,
        "static void v() { } static void m() { int x = v(); }",
        ("refused 201 at 6:47\n", 1),
    ),
    (8, "int x = show(1);", ("refused 201 at 8:9\n", 1)),
    (
        6,
        "static void m() { return 1; }",
        ("refused 201 at 6:19\n", 1),
    ),
    (
        6,
        "static int m() { return; }",
        ("refused 201 at 6:18\n", 1),
    ),
];

#[test]
fn members_are_those_of_the_class(rt: HostRuntime) -> Result<(), Fail> {
    check_lines(rt.alloc(), MEMBERS)
}

/// Another number of arguments: 202 at the name of what is called.
const ARGUMENTS: &[(usize, &str, Answer)] = &[
    (8, "show();", ("refused 202 at 8:1\n", 1)),
    (8, "show(1, 2);", ("refused 202 at 8:1\n", 1)),
    (8, "got = key(1);", ("refused 202 at 8:7\n", 1)),
    (
        6,
        "static void m(int a) { } static void n() { m(); }",
        ("refused 202 at 6:44\n", 1),
    ),
    (
        6,
        "static Shop o; void m(int a) { } static void n() { o.m(1, 2); }",
        ("refused 202 at 6:54\n", 1),
    ),
];

#[test]
fn calls_have_their_arguments(rt: HostRuntime) -> Result<(), Fail> {
    check_lines(rt.alloc(), ARGUMENTS)
}

/// A method with a result whose body may come to its end: 203 at its name.
const ENDS: &[(usize, &str, Answer)] = &[
    (6, "static int m() { }", ("refused 203 at 6:12\n", 1)),
    (
        6,
        "static int m() { if (true) { return 1; } }",
        ("refused 203 at 6:12\n", 1),
    ),
    (
        6,
        "static int m() { while (true) { break; } }",
        ("refused 203 at 6:12\n", 1),
    ),
    (
        6,
        "static int m() { while (1 < 2) { } }",
        ("refused 203 at 6:12\n", 1),
    ),
    (
        6,
        "static int m() { try { return 1; } catch (ArithmeticException e) { } }",
        ("refused 203 at 6:12\n", 1),
    ),
    (
        6,
        "static int m() { when (Paid) { return 1; } }",
        ("refused 203 at 6:12\n", 1),
    ),
    (
        6,
        "static int m() { show(1); show(2); }",
        ("refused 203 at 6:12\n", 1),
    ),
    (
        6,
        "static int m() { when (Paid) { return 1; } else { return 2; } }",
        ("refused 406 at 6:32\n", 1),
    ),
    (
        6,
        "static int m() { while (true) { while (true) { break; } } }",
        ACCEPTED,
    ),
    (
        6,
        "static int m() { throw new ArithmeticException(); }",
        ("refused 501 at 6:12\n", 1),
    ),
];

#[test]
fn results_are_given(rt: HostRuntime) -> Result<(), Fail> {
    check_lines(rt.alloc(), ENDS)
}

/// Statements that control does not come to: 204; `break` outside a loop: 205.
const UNREACHED: &[(usize, &str, Answer)] = &[
    (8, "while (true) { } show(1);", ("refused 204 at 8:18\n", 1)),
    (8, "return; show(1);", ("refused 204 at 8:9\n", 1)),
    (
        8,
        "while (true) { break; show(1); }",
        ("refused 204 at 8:23\n", 1),
    ),
    (
        8,
        "while (true) { while (true) { break; } } show(1);",
        ("refused 204 at 8:42\n", 1),
    ),
    (
        8,
        "if (true) { return; } else { return; } show(1);",
        ("refused 204 at 8:40\n", 1),
    ),
    (
        8,
        "throw new ArithmeticException(); show(1);",
        ("refused 204 at 8:34\n", 1),
    ),
    (
        8,
        "while ((true)) { } show(1);",
        ("refused 204 at 8:20\n", 1),
    ),
    (8, "while (1 < 2) { } show(1);", ACCEPTED),
    (8, "if (true) { return; } show(1);", ACCEPTED),
    (8, "while (true) { break; } show(1);", ACCEPTED),
    (8, "break;", ("refused 205 at 8:1\n", 1)),
    (8, "continue;", ("refused 205 at 8:1\n", 1)),
    (8, "if (true) { break; }", ("refused 205 at 8:13\n", 1)),
    (8, "while (true) { if (true) { break; } }", ACCEPTED),
];

#[test]
fn statements_are_reached(rt: HostRuntime) -> Result<(), Fail> {
    check_lines(rt.alloc(), UNREACHED)
}

/// What may be null, where it must not be: 206 at the value.
const NULLS: &[(usize, &str, Answer)] = &[
    (8, "notnull int x = 1;", ("refused 206 at 8:17\n", 1)),
    (8, "notnull Shop o = null;", ("refused 206 at 8:18\n", 1)),
    (
        8,
        "Shop p = new Shop(); notnull Shop o = p;",
        ("refused 206 at 8:39\n", 1),
    ),
    (
        8,
        "notnull Shop o = new Shop(); o = null;",
        ("refused 206 at 8:34\n", 1),
    ),
    (
        6,
        "static void m(notnull Shop o) { } static void n() { m(null); }",
        ("refused 206 at 6:55\n", 1),
    ),
    (
        6,
        "static void m(notnull Shop o) { o = null; }",
        ("refused 206 at 6:37\n", 1),
    ),
    (
        6,
        "static void m(notnull Shop o) { notnull Shop p = o; }",
        ACCEPTED,
    ),
    (6, "void m() { notnull Shop p = this; }", ACCEPTED),
];

#[test]
fn what_may_be_null_is_told(rt: HostRuntime) -> Result<(), Fail> {
    check_lines(rt.alloc(), NULLS)
}

/// Classes that are no exceptions: 207. Literals: 208.
const CLASSES: &[(usize, &str, Answer)] = &[
    (8, "throw new Shop();", ("refused 207 at 8:11\n", 1)),
    (
        8,
        "try { } catch (Shop e) { }",
        ("refused 207 at 8:16\n", 1),
    ),
    (
        7,
        "static void main() throws Shop bottom {",
        ("refused 207 at 7:27\n", 1),
    ),
    (8, "show(2147483648);", ("refused 208 at 8:6\n", 1)),
    (8, "show(1 - 2147483648);", ("refused 208 at 8:10\n", 1)),
    (8, "show(-2147483648);", ACCEPTED),
    (8, "show(-(2147483648));", ACCEPTED),
];

#[test]
fn exceptions_and_literals(rt: HostRuntime) -> Result<(), Fail> {
    check_lines(rt.alloc(), CLASSES)
}

/// Several rules: names before types, then the least place, there the least rule; then inferred
/// fields.
const ORDER: &[(usize, &str, Answer)] = &[
    (8, "show(true); show(y);", ("refused 101 at 8:18\n", 1)),
    (8, "notnull Shop o = 1;", ("refused 201 at 8:18\n", 1)),
    (
        8,
        "show(true); show(2147483648);",
        ("refused 201 at 8:6\n", 1),
    ),
    (
        8,
        "show(1 + 2147483648 + true);",
        ("refused 208 at 8:10\n", 1),
    ),
    (6, "?_ static int got;", ("refused 109 at 6:15\n", 1)),
    (
        6,
        "?_ static int got; static void m() { show(true); }",
        ("refused 201 at 6:43\n", 1),
    ),
    (
        6,
        "?_ static int got; ?_ static int more;",
        ("refused 109 at 6:15\n", 1),
    ),
];

#[test]
fn rules_of_types_come_in_order(rt: HostRuntime) -> Result<(), Fail> {
    check_lines(rt.alloc(), ORDER)
}
