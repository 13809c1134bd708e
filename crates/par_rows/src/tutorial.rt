//! The steps of docs/TUTORIAL.md: each program that is refused, and its mend.

use par_row_calls::{ACCEPTED, Answer, check_sources};
use std::test::Fail;

const ONLY_A_MAIN: &str = "\
class Auction {
  static void main() {
  }
}
";

const BID_UNDECLARED: &str = "\
actor alice, bob;
class Auction {
  output void announce(int price);
  static void main() {
    announce(aliceBids());
  }
}
";

const BID_DECLARED: &str = "\
actor alice, bob;
class Auction {
  input int aliceBids();
  output void announce(int price);
  static void main() {
    announce(aliceBids());
  }
}
";

const BID_FOR_ALICE: &str = "\
actor alice, bob;
class Auction {
  ?{alice:} input int aliceBids();
  output void announce(int price);
  static void main() {
    announce(aliceBids());
  }
}
";

const BID_BEHIND_DONE: &str = "\
actor alice, bob;
lock Done;
class Auction {
  ?{alice:; bob: Done} input int aliceBids();
  output void announce(int price);
  static void main() {
    open Done;
    announce(aliceBids());
  }
}
";

const BID_BEFORE_THE_OTHER: &str = "\
actor alice, bob;
lock Done;
policy AliceBid = {alice:; bob: Done};
policy BobBid = {bob:; alice: Done};
class Auction {
  ?AliceBid input int aliceBids();
  ?BobBid input int bobBids();
  output void announce(int price);
  static void main() {
    int a = aliceBids();
    announce(a);
    int b = bobBids();
    open Done;
    announce(b);
  }
}
";

const BOTH_BIDS_FIRST: &str = "\
actor alice, bob;
lock Done;
policy AliceBid = {alice:; bob: Done};
policy BobBid = {bob:; alice: Done};
class Auction {
  ?AliceBid input int aliceBids();
  ?BobBid input int bobBids();
  output void announce(int price);
  static void main() {
    int a = aliceBids();
    int b = bobBids();
    open Done;
    announce(a);
    announce(b);
  }
}
";

const HIGHER_IN_BRANCH: &str = "\
actor alice, bob;
lock Done;
policy AliceBid = {alice:; bob: Done};
policy BobBid = {bob:; alice: Done};
class Auction {
  ?AliceBid input int aliceBids();
  ?BobBid input int bobBids();
  output void announce(int price);
  static void main() {
    int a = aliceBids();
    int b = bobBids();
    open Done;
    if (a > b) {
      announce(a);
    } else {
      announce(b);
    }
  }
}
";

const HIGHER_AS_VALUE: &str = "\
actor alice, bob;
lock Done;
policy AliceBid = {alice:; bob: Done};
policy BobBid = {bob:; alice: Done};
class Auction {
  ?AliceBid input int aliceBids();
  ?BobBid input int bobBids();
  output void announce(int price);
  static void main() {
    int price = bobBids();
    int a = aliceBids();
    if (a > price) {
      price = a;
    }
    open Done;
    announce(price);
  }
}
";

const PARAMETERS_FOR_ALL: &str = "\
actor alice, bob;
lock Done;
policy AliceBid = {alice:; bob: Done};
policy BobBid = {bob:; alice: Done};
class Auction {
  ?AliceBid input int aliceBids();
  ?BobBid input int bobBids();
  output void announce(int price);
  static void main() {
    int price = larger(aliceBids(), bobBids());
    open Done;
    announce(price);
  }
  static int larger(int x, int y) {
    if (x > y) {
      return x;
    }
    return y;
  }
}
";

const PARAMETERS_WITH_POLICY: &str = "\
actor alice, bob;
lock Done;
policy AliceBid = {alice:; bob: Done};
policy BobBid = {bob:; alice: Done};
class Auction {
  ?AliceBid input int aliceBids();
  ?BobBid input int bobBids();
  output void announce(int price);
  static void main() {
    int price = larger(aliceBids(), bobBids());
    open Done;
    announce(price);
  }
  ?AliceBid * BobBid static int larger(?AliceBid int x, ?BobBid int y) {
    if (x > y) {
      return x;
    }
    return y;
  }
}
";

const RESULT_FOR_ALICE: &str = "\
actor alice, bob;
lock Done;
policy AliceBid = {alice:; bob: Done};
policy BobBid = {bob:; alice: Done};
class Auction {
  ?AliceBid input int aliceBids();
  ?BobBid input int bobBids();
  output void announce(int price);
  static void main() {
    int price = larger(aliceBids(), bobBids());
    open Done;
    announce(price);
  }
  ?AliceBid static int larger(?AliceBid int x, ?BobBid int y) {
    if (x > y) {
      return x;
    }
    return y;
  }
}
";

const RESERVE_UNCAUGHT: &str = "\
actor alice, bob;
lock Done;
policy AliceBid = {alice:; bob: Done};
policy BobBid = {bob:; alice: Done};
class NoSale extends Exception { }
class Auction {
  ?AliceBid input int aliceBids();
  ?BobBid input int bobBids();
  input int reserve();
  output void announce(int price);
  static void main() {
    start();
    int price = larger(aliceBids(), bobBids());
    open Done;
    announce(price);
  }
  static void start() throws NoSale bottom {
    if (reserve() <= 0) {
      throw new NoSale();
    }
  }
  ?AliceBid * BobBid static int larger(?AliceBid int x, ?BobBid int y) {
    if (x > y) {
      return x;
    }
    return y;
  }
}
";

const RESERVE_CAUGHT: &str = "\
actor alice, bob;
lock Done;
policy AliceBid = {alice:; bob: Done};
policy BobBid = {bob:; alice: Done};
class NoSale extends Exception { }
class Auction {
  ?AliceBid input int aliceBids();
  ?BobBid input int bobBids();
  input int reserve();
  output void announce(int price);
  static void main() {
    try {
      start();
      int price = larger(aliceBids(), bobBids());
      open Done;
      announce(price);
    } catch (NoSale e) {
      announce(0);
    }
  }
  static void start() throws NoSale bottom {
    if (reserve() <= 0) {
      throw new NoSale();
    }
  }
  ?AliceBid * BobBid static int larger(?AliceBid int x, ?BobBid int y) {
    if (x > y) {
      return x;
    }
    return y;
  }
}
";

const SALE_FOR_ALL: &str = "\
actor alice, bob;
lock Done;
policy AliceBid = {alice:; bob: Done};
policy BobBid = {bob:; alice: Done};
class NoSale extends Exception { }
class Auction {
  ?AliceBid input int aliceBids();
  ?BobBid input int bobBids();
  input int reserve();
  output void announce(int price);
  static void main() {
    int price = larger(aliceBids(), bobBids());
    try {
      test(price);
    } catch (NoSale e) {
      price = 0;
    }
    open Done;
    announce(price);
  }
  static void test(?AliceBid * BobBid int price) throws NoSale bottom {
    if (price < reserve()) {
      throw new NoSale();
    }
  }
  ?AliceBid * BobBid static int larger(?AliceBid int x, ?BobBid int y) {
    if (x > y) {
      return x;
    }
    return y;
  }
}
";

const SALE_WITH_POLICY: &str = "\
actor alice, bob;
lock Done;
policy AliceBid = {alice:; bob: Done};
policy BobBid = {bob:; alice: Done};
class NoSale extends Exception { }
class Auction {
  ?AliceBid input int aliceBids();
  ?BobBid input int bobBids();
  input int reserve();
  output void announce(int price);
  static void main() {
    int price = larger(aliceBids(), bobBids());
    try {
      test(price);
    } catch (NoSale e) {
      price = 0;
    }
    open Done;
    announce(price);
  }
  static void test(?AliceBid * BobBid int price) throws NoSale AliceBid * BobBid {
    if (price < reserve()) {
      throw new NoSale();
    }
  }
  ?AliceBid * BobBid static int larger(?AliceBid int x, ?BobBid int y) {
    if (x > y) {
      return x;
    }
    return y;
  }
}
";

const FAILURE_IN_CATCH: &str = "\
actor alice, bob;
lock Done;
policy AliceBid = {alice:; bob: Done};
policy BobBid = {bob:; alice: Done};
class NoSale extends Exception { }
class Auction {
  ?AliceBid input int aliceBids();
  ?BobBid input int bobBids();
  input int reserve();
  output void announce(int price);
  output void failed(int yes);
  static void main() {
    int price = larger(aliceBids(), bobBids());
    try {
      test(price);
    } catch (NoSale e) {
      price = 0;
      failed(1);
    }
    open Done;
    announce(price);
  }
  static void test(?AliceBid * BobBid int price) throws NoSale AliceBid * BobBid {
    if (price < reserve()) {
      throw new NoSale();
    }
  }
  ?AliceBid * BobBid static int larger(?AliceBid int x, ?BobBid int y) {
    if (x > y) {
      return x;
    }
    return y;
  }
}
";

const FAILURE_AS_VALUE: &str = "\
actor alice, bob;
lock Done;
policy AliceBid = {alice:; bob: Done};
policy BobBid = {bob:; alice: Done};
class NoSale extends Exception { }
class Auction {
  ?AliceBid input int aliceBids();
  ?BobBid input int bobBids();
  input int reserve();
  output void announce(int price);
  output void failed(int yes);
  static void main() {
    int none = 0;
    int price = larger(aliceBids(), bobBids());
    try {
      test(price);
    } catch (NoSale e) {
      price = 0;
      none = 1;
    }
    open Done;
    failed(none);
    announce(price);
  }
  static void test(?AliceBid * BobBid int price) throws NoSale AliceBid * BobBid {
    if (price < reserve()) {
      throw new NoSale();
    }
  }
  ?AliceBid * BobBid static int larger(?AliceBid int x, ?BobBid int y) {
    if (x > y) {
      return x;
    }
    return y;
  }
}
";

const FIRST_STEPS: &[(&str, Answer)] = &[
    (ONLY_A_MAIN, ACCEPTED),
    (BID_UNDECLARED, ("refused 101 at 5:14\n", 1)),
    (BID_DECLARED, ACCEPTED),
    (BID_FOR_ALICE, ("refused 403 at 6:5\n", 1)),
    (BID_BEHIND_DONE, ACCEPTED),
    (BID_BEFORE_THE_OTHER, ("refused 403 at 11:5\n", 1)),
    (BOTH_BIDS_FIRST, ACCEPTED),
    (HIGHER_IN_BRANCH, ("refused 404 at 14:7\n", 1)),
    (HIGHER_AS_VALUE, ACCEPTED),
];

#[test]
fn first_steps(rt: HostRuntime) -> Result<(), Fail> {
    check_sources(rt.alloc(), FIRST_STEPS)
}

const LATER_STEPS: &[(&str, Answer)] = &[
    (PARAMETERS_FOR_ALL, ("refused 405 at 10:24\n", 1)),
    (PARAMETERS_WITH_POLICY, ACCEPTED),
    (RESULT_FOR_ALICE, ("refused 406 at 16:7\n", 1)),
    (PARAMETERS_WITH_POLICY, ACCEPTED),
    (RESERVE_UNCAUGHT, ("refused 501 at 11:15\n", 1)),
    (RESERVE_CAUGHT, ACCEPTED),
    (SALE_FOR_ALL, ("refused 502 at 21:15\n", 1)),
    (SALE_WITH_POLICY, ACCEPTED),
    (FAILURE_IN_CATCH, ("refused 404 at 18:7\n", 1)),
    (FAILURE_AS_VALUE, ACCEPTED),
];

#[test]
fn later_steps(rt: HostRuntime) -> Result<(), Fail> {
    check_sources(rt.alloc(), LATER_STEPS)
}
