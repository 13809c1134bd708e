//! The refusals of types, as docs/REFUSALS.md shows them, each with its mend.

use par_row_calls::{ACCEPTED, Answer, check_sources};
use std::test::Fail;

const TYPE: &str = "\
actor alice;
class Gift {
  ?{alice:} output void show(int v);
  static void main() !bottom {
    int gift = true;
    show(gift);
  }
}
";

const TYPE_MENDED: &str = "\
actor alice;
class Gift {
  ?{alice:} output void show(int v);
  static void main() !bottom {
    int gift = 1;
    show(gift);
  }
}
";

const ARGUMENTS: &str = "\
actor alice;
class Gift {
  ?{alice:} output void show(int v);
  static void main() !bottom {
    show(1, 2);
  }
}
";

const ARGUMENTS_MENDED: &str = "\
actor alice;
class Gift {
  ?{alice:} output void show(int v);
  static void main() !bottom {
    show(1);
    show(2);
  }
}
";

const RESULT: &str = "\
actor alice;
class Gift {
  ?{alice:} output void show(int v);
  static int gift(boolean more) !bottom {
    if (more) {
      return 2;
    }
  }
  static void main() !bottom {
    show(gift(true));
  }
}
";

const RESULT_MENDED: &str = "\
actor alice;
class Gift {
  ?{alice:} output void show(int v);
  static int gift(boolean more) !bottom {
    if (more) {
      return 2;
    }
    return 1;
  }
  static void main() !bottom {
    show(gift(true));
  }
}
";

const UNREACHED: &str = "\
actor alice;
class Gift {
  ?{alice:} output void show(int v);
  static void main() !bottom {
    return;
    show(1);
  }
}
";

const UNREACHED_MENDED: &str = "\
actor alice;
class Gift {
  ?{alice:} output void show(int v);
  static void main() !bottom {
    show(1);
    return;
  }
}
";

const BREAK: &str = "\
actor alice;
class Gift {
  ?{alice:} output void show(int v);
  static void main() !bottom {
    show(1);
    break;
  }
}
";

const BREAK_MENDED: &str = "\
actor alice;
class Gift {
  ?{alice:} output void show(int v);
  static void main() !bottom {
    while (true) {
      show(1);
      break;
    }
  }
}
";

const NULL: &str = "\
actor alice;
class Gift {
  ?{alice:} output void show(int v);
  static void main() !bottom {
    notnull Gift gift = null;
    show(1);
  }
}
";

const NULL_MENDED: &str = "\
actor alice;
class Gift {
  ?{alice:} output void show(int v);
  static void main() !bottom {
    notnull Gift gift = new Gift();
    show(1);
  }
}
";

const EXCEPTION: &str = "\
actor alice;
class Gift {
  ?{alice:} output void show(int v);
  static void main() !bottom {
    throw new Gift();
  }
}
";

const EXCEPTION_MENDED: &str = "\
actor alice;
class Lost extends Exception { }
class Gift {
  ?{alice:} output void show(int v);
  static void main() !bottom throws Lost bottom {
    throw new Lost();
  }
}
";

const GREAT: &str = "\
actor alice;
class Gift {
  ?{alice:} output void show(int v);
  static void main() !bottom {
    show(2147483648);
  }
}
";

const GREAT_MENDED: &str = "\
actor alice;
class Gift {
  ?{alice:} output void show(int v);
  static void main() !bottom {
    show(-2147483648);
  }
}
";

const OPEN: &str = "\
actor alice;
class Gift {
  ?{alice:} output void show(int v);
  ?_ static int gift;
  static void main() !bottom {
    show(1);
  }
}
";

const OPEN_MENDED: &str = "\
actor alice;
class Gift {
  ?{alice:} output void show(int v);
  ?{alice:} static int gift;
  static void main() !bottom {
    show(1);
  }
}
";

const ROWS: &[(&str, Answer)] = &[
    (TYPE, ("refused 201 at 5:16\n", 1)),
    (TYPE_MENDED, ACCEPTED),
    (ARGUMENTS, ("refused 202 at 5:5\n", 1)),
    (ARGUMENTS_MENDED, ACCEPTED),
    (RESULT, ("refused 203 at 4:14\n", 1)),
    (RESULT_MENDED, ACCEPTED),
    (UNREACHED, ("refused 204 at 6:5\n", 1)),
    (UNREACHED_MENDED, ACCEPTED),
    (BREAK, ("refused 205 at 6:5\n", 1)),
    (BREAK_MENDED, ACCEPTED),
    (NULL, ("refused 206 at 5:25\n", 1)),
    (NULL_MENDED, ACCEPTED),
    (EXCEPTION, ("refused 207 at 5:15\n", 1)),
    (EXCEPTION_MENDED, ACCEPTED),
    (GREAT, ("refused 208 at 5:10\n", 1)),
    (GREAT_MENDED, ACCEPTED),
    (OPEN, ("refused 109 at 4:17\n", 1)),
    (OPEN_MENDED, ACCEPTED),
];

#[test]
fn each_refusal_of_types_has_its_mend(rt: HostRuntime) -> Result<(), Fail> {
    check_sources(rt.alloc(), ROWS)
}
