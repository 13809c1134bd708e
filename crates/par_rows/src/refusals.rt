//! The refusals of sources without tokens and of those that are no sentences, as docs/REFUSALS.md
//! shows them, each with its mend.

use par_row_calls::{ACCEPTED, Answer, check_sources};
use std::test::Fail;

const BYTE: &str = "\
actor alice;
class Gift {
  ?{alice:} output void show(int v);
  static void main() !bottom {
    show(01);
  }
}
";

const BYTE_MENDED: &str = "\
actor alice;
class Gift {
  ?{alice:} output void show(int v);
  static void main() !bottom {
    show(1);
  }
}
";

const NUMBER: &str = "\
actor alice;
class Gift {
  ?{alice:} output void show(int v);
  static void main() !bottom {
    show(4294967296);
  }
}
";

const NUMBER_MENDED: &str = "\
actor alice;
class Gift {
  ?{alice:} output void show(int v);
  static void main() !bottom {
    show(2147483647);
  }
}
";

const COMMENT: &str = "\
actor alice;
class Gift {
  ?{alice:} output void show(int v);
  static void main() !bottom {
    /* show what is given
    show(1);
  }
}
";

const COMMENT_MENDED: &str = "\
actor alice;
class Gift {
  ?{alice:} output void show(int v);
  static void main() !bottom {
    /* show what is given */
    show(1);
  }
}
";

const NAME: &str = "\
actor alice;
class Gift {
  ?{alice:} output void showTheNumberThatWasGivenToAliceByWhoeverRunsThisProgramInTheEndOfIt(int v);
  static void main() !bottom { }
}
";

const NAME_MENDED: &str = "\
actor alice;
class Gift {
  ?{alice:} output void showTheNumber(int v);
  static void main() !bottom { }
}
";

const SENTENCE: &str = "\
actor alice;
class Gift {
  ?{alice:} output void show(int v);
  static void main() !bottom {
    show(1)
  }
}
";

const SENTENCE_MENDED: &str = "\
actor alice;
class Gift {
  ?{alice:} output void show(int v);
  static void main() !bottom {
    show(1);
  }
}
";

const NESTING: &str = "\
actor alice;
class Gift {
  ?{alice:} output void show(int v);
  static void main() !bottom {
    int a = 1+1+1+1+1+1+1+1+1+1+1+1+1+1+1+1+1+1+1+1+1+1+1+1+1+1+1+1+1+1+1+1
      +1+1+1+1+1+1+1+1+1+1+1+1+1+1+1+1+1+1+1+1+1+1+1+1+1+1+1+1+1+1+1+1+1;
    show(a);
  }
}
";

const NESTING_MENDED: &str = "\
actor alice;
class Gift {
  ?{alice:} output void show(int v);
  static void main() !bottom {
    int a = 1+1+1+1+1+1+1+1+1+1+1+1+1+1+1+1+1+1+1+1+1+1+1+1+1+1+1+1+1+1+1+1;
    a = a+1+1+1+1+1+1+1+1+1+1+1+1+1+1+1+1+1+1+1+1+1+1+1+1+1+1+1+1+1+1+1+1+1;
    show(a);
  }
}
";

const ROWS: &[(&str, Answer)] = &[
    (BYTE, ("refused 1 at 5:10\n", 1)),
    (BYTE_MENDED, ACCEPTED),
    (NUMBER, ("refused 2 at 5:10\n", 1)),
    (NUMBER_MENDED, ACCEPTED),
    (COMMENT, ("refused 3 at 5:5\n", 1)),
    (COMMENT_MENDED, ACCEPTED),
    (NAME, ("refused 4 at 3:25\n", 1)),
    (NAME_MENDED, ACCEPTED),
    (SENTENCE, ("refused 10 at 6:3\n", 1)),
    (SENTENCE_MENDED, ACCEPTED),
    (NESTING, ("refused 11 at 6:71\n", 1)),
    (NESTING_MENDED, ACCEPTED),
];

#[test]
fn each_refusal_has_its_mend(rt: HostRuntime) -> Result<(), Fail> {
    check_sources(rt.alloc(), ROWS)
}
