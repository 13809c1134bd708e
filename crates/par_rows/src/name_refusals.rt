//! The refusals of names and limits, as docs/REFUSALS.md shows them, each with its mend, and others
//! beside them.

use par_row_calls::{ACCEPTED, Answer, check_bodies, check_lines, check_sources};
use std::test::Fail;

const UNKNOWN: &str = "\
actor alice;
class Gift {
  ?{alice:} output void show(int v);
  static void main() !bottom {
    show(gift);
  }
}
";

const UNKNOWN_MENDED: &str = "\
actor alice;
class Gift {
  ?{alice:} output void show(int v);
  static void main() !bottom {
    int gift = 1;
    show(gift);
  }
}
";

const TWICE: &str = "\
actor alice;
class Gift {
  ?{alice:} output void show(int v);
  static void main() !bottom {
    int gift = 1;
    int gift = 2;
    show(gift);
  }
}
";

const TWICE_MENDED: &str = "\
actor alice;
class Gift {
  ?{alice:} output void show(int v);
  static void main() !bottom {
    int gift = 1;
    gift = 2;
    show(gift);
  }
}
";

const ACTOR: &str = "\
actor alice;
class Gift {
  ?{alice:; bob:} output void show(int v);
  static void main() !bottom {
    show(1);
  }
}
";

const ACTOR_MENDED: &str = "\
actor alice, bob;
class Gift {
  ?{alice:; bob:} output void show(int v);
  static void main() !bottom {
    show(1);
  }
}
";

const ARITY: &str = "\
actor alice;
lock Paid(actor);
class Gift {
  ?{alice: Paid} output void show(int v);
  static void main() !bottom {
    show(1);
  }
}
";

const ARITY_MENDED: &str = "\
actor alice;
lock Paid;
class Gift {
  ?{alice: Paid} output void show(int v);
  static void main() !bottom {
    show(1);
  }
}
";

const MAIN: &str = "\
actor alice;
class Gift {
  ?{alice:} output void show(int v);
  static void start() !bottom {
    show(1);
  }
}
";

const MAIN_MENDED: &str = "\
actor alice;
class Gift {
  ?{alice:} output void show(int v);
  static void main() !bottom {
    show(1);
  }
}
";

const LIMIT: &str = "\
actor a1, a2, a3, a4, a5, a6, a7, a8, a9, a10, a11, a12, a13, a14, a15, a16, a17;
class Gift {
  ?{a1:} output void show(int v);
  static void main() !bottom {
    show(1);
  }
}
";

const LIMIT_MENDED: &str = "\
actor a1, a2, a3, a4, a5, a6, a7, a8, a9, a10, a11, a12, a13, a14, a15, a16;
class Gift {
  ?{a1:} output void show(int v);
  static void main() !bottom {
    show(1);
  }
}
";

const ABOVE: &str = "\
actor alice;
class Box ?top {
  ?{alice:} int v;
}
class Gift {
  ?{alice:} output void show(int v);
  static void main() !bottom {
    show(1);
  }
}
";

const ABOVE_MENDED: &str = "\
actor alice;
class Box ?{alice:} {
  ?{alice:} int v;
}
class Gift {
  ?{alice:} output void show(int v);
  static void main() !bottom {
    show(1);
  }
}
";

const BIRTH: &str = "\
actor alice;
class Box {
  ?_ int v;
}
class Gift {
  ?{alice:} output void show(int v);
  static void main() !bottom {
    show(1);
  }
}
";

const BIRTH_MENDED: &str = "\
actor alice;
class Box ?bottom {
  ?_ int v;
}
class Gift {
  ?{alice:} output void show(int v);
  static void main() !bottom {
    show(1);
  }
}
";

const ROWS: &[(&str, Answer)] = &[
    (UNKNOWN, ("refused 101 at 5:10\n", 1)),
    (UNKNOWN_MENDED, ACCEPTED),
    (TWICE, ("refused 102 at 6:9\n", 1)),
    (TWICE_MENDED, ACCEPTED),
    (ACTOR, ("refused 103 at 3:13\n", 1)),
    (ACTOR_MENDED, ACCEPTED),
    (ARITY, ("refused 104 at 4:12\n", 1)),
    (ARITY_MENDED, ACCEPTED),
    (MAIN, ("refused 105 at 1:1\n", 1)),
    (MAIN_MENDED, ACCEPTED),
    (LIMIT, ("refused 106 at 1:78 limit 1 count 17\n", 1)),
    (LIMIT_MENDED, ACCEPTED),
    (ABOVE, ("refused 107 at 2:7\n", 1)),
    (ABOVE_MENDED, ACCEPTED),
    (BIRTH, ("refused 108 at 3:10\n", 1)),
    (BIRTH_MENDED, ("refused 109 at 3:10\n", 1)),
];

const BODIES: &[(&str, Answer)] = &[
    ("show(this.got);", ("refused 101 at 8:6\n", 1)),
    ("show(Shop.got);", ACCEPTED),
    ("show(Shop.key());", ("refused 403 at 8:1\n", 1)),
    ("show(Shop);", ("refused 101 at 8:6\n", 1)),
    ("show(Shop.gone);", ("refused 101 at 8:11\n", 1)),
    ("gone();", ("refused 101 at 8:1\n", 1)),
    ("{ int a = 1; } show(a);", ("refused 101 at 8:21\n", 1)),
    ("int a = 1; { int a = 2; }", ("refused 102 at 8:18\n", 1)),
    ("{ int a = 1; } { int a = 2; }", ACCEPTED),
    (
        "try { show(1); } catch (ArithmeticException e) { show(e); }",
        ("refused 101 at 8:55\n", 1),
    ),
    (
        "int e = 1; try { } catch (NullPointerException e) { }",
        ("refused 102 at 8:48\n", 1),
    ),
    (
        "try { } catch (NullPointerException e) { } catch (NullPointerException f) { }",
        ("refused 102 at 8:51\n", 1),
    ),
    ("throw new Bad();", ("refused 101 at 8:11\n", 1)),
    ("when (Gold) { }", ("refused 101 at 8:7\n", 1)),
    ("when (Paid(alice)) { }", ("refused 104 at 8:7\n", 1)),
    ("close Gold;", ("refused 101 at 8:7\n", 1)),
    ("?{carol:} int a = 1;", ("refused 103 at 8:3\n", 1)),
    ("?secret int a = 1;", ("refused 101 at 8:2\n", 1)),
    ("Gold a = null;", ("refused 101 at 8:1\n", 1)),
    ("while (a < 1) { int a = 2; }", ("refused 101 at 8:8\n", 1)),
];

/// Other lines of the common source. Where several rules are broken, the least place is told.
const LINES: &[(usize, &str, Answer)] = &[
    (
        10,
        "}\nclass Box ?top { ?{alice:} int v; }",
        ("refused 107 at 11:7\n", 1),
    ),
    (10, "}\nclass Box ?bottom { ?{alice:} int v; }", ACCEPTED),
    (
        10,
        "}\nclass Item { ?_ int f; }",
        ("refused 108 at 11:21\n", 1),
    ),
    (
        7,
        "static void start() !gone {",
        ("refused 105 at 1:1\n", 1),
    ),
    (
        8,
        "show(y); } static void m() { } static void m() { ",
        ("refused 101 at 8:6\n", 1),
    ),
    (2, "policy P = P; lock Paid;", ("refused 101 at 2:12\n", 1)),
    (
        2,
        "policy P = Q; policy Q = bottom; lock Paid;",
        ("refused 101 at 2:12\n", 1),
    ),
    (2, "policy P = bottom; policy Q = P; lock Paid;", ACCEPTED),
    (2, "lock Paid(actor, actor);", ("refused 104 at 4:16\n", 1)),
];

#[test]
fn rules_are_broken_at_the_least_place(rt: HostRuntime) -> Result<(), Fail> {
    check_lines(rt.alloc(), LINES)
}

#[test]
fn names_in_bodies_are_in_scope(rt: HostRuntime) -> Result<(), Fail> {
    check_bodies(rt.alloc(), BODIES)
}

#[test]
fn each_refusal_of_a_tree_has_its_mend(rt: HostRuntime) -> Result<(), Fail> {
    check_sources(rt.alloc(), ROWS)
}
