//! The refusals by rules on locks and flows, as docs/REFUSALS.md shows them, each with its mends.

use par_row_calls::{ACCEPTED, Answer, check_sources};
use std::test::Fail;

const LOCK_NOT_OPEN: &str = "\
actor alice, bob;
lock Paid;
class Shop {
  ?{alice:; bob: Paid} input int key();
  output void show(int v);
  static void main() {
    tell();
    open Paid;
  }
  static void tell() ~Paid {
    show(key());
  }
}
";

const LOCK_OPENED: &str = "\
actor alice, bob;
lock Paid;
class Shop {
  ?{alice:; bob: Paid} input int key();
  output void show(int v);
  static void main() {
    open Paid;
    tell();
  }
  static void tell() ~Paid {
    show(key());
  }
}
";

const CLOSE_UNTOLD: &str = "\
actor alice, bob;
lock Paid;
class Shop {
  ?{alice:; bob: Paid} input int key();
  output void show(int v);
  static void main() {
    open Paid;
    show(key());
    close Paid;
  }
}
";

const CLOSE_TOLD: &str = "\
actor alice, bob;
lock Paid;
class Shop {
  ?{alice:; bob: Paid} input int key();
  output void show(int v);
  static void main() -Paid {
    open Paid;
    show(key());
    close Paid;
  }
}
";

const OPENED_ON_ONE_WAY: &str = "\
actor alice, bob;
lock Paid;
class Shop {
  input int money();
  ?{alice:; bob: Paid} input int key();
  output void show(int v);
  static void main() {
    pay();
    show(key());
  }
  static void pay() +Paid {
    if (money() > 0) {
      open Paid;
    }
  }
}
";

const OPENED_ON_EACH_WAY: &str = "\
actor alice, bob;
lock Paid;
class Unpaid extends Exception { }
class Shop {
  input int money();
  ?{alice:; bob: Paid} input int key();
  output void show(int v);
  static void main() throws Unpaid bottom {
    pay();
    show(key());
  }
  static void pay() +Paid throws Unpaid bottom {
    if (money() <= 0) {
      throw new Unpaid();
    }
    open Paid;
  }
}
";

const KEY_TO_ALL: &str = "\
actor alice, bob;
lock Paid;
class Shop {
  ?{alice:; bob: Paid} input int key();
  ?{alice:; bob:} static int got;
  static void main() !bottom {
    got = key();
  }
}
";

const KEY_BEHIND_PAID: &str = "\
actor alice, bob;
lock Paid;
class Shop {
  ?{alice:; bob: Paid} input int key();
  ?{alice:; bob:} static int got;
  static void main() !bottom {
    open Paid;
    got = key();
  }
}
";

const KEY_KEPT: &str = "\
actor alice, bob;
lock Paid;
class Shop {
  ?{alice:; bob: Paid} input int key();
  ?{alice:; bob: Paid} static int got;
  static void main() !bottom {
    got = key();
  }
}
";

const KEY_IN_OBJECT: &str = "\
actor alice, bob;
lock Paid;
class Order {
  int number;
}
class Shop {
  ?{alice:; bob: Paid} input int key();
  static void main() {
    notnull Order order = new Order();
    order.number = key();
  }
}
";

const KEY_IN_ITS_OBJECT: &str = "\
actor alice, bob;
lock Paid;
class Order {
  ?{alice:; bob: Paid} int number;
}
class Shop {
  ?{alice:; bob: Paid} input int key();
  static void main() {
    notnull Order order = new Order();
    order.number = key();
  }
}
";

const SUM_TOO_EARLY: &str = "\
actor alice, bob;
lock Done;
class Auction {
  ?{alice:; bob: Done} input int aliceBids();
  ?{bob:; alice: Done} input int bobBids();
  ?{alice:; bob:} output void announce(int bid);
  static void main() !bottom {
    int sum = aliceBids() + bobBids();
    announce(sum);
    open Done;
  }
}
";

const SUM_BEHIND_DONE: &str = "\
actor alice, bob;
lock Done;
class Auction {
  ?{alice:; bob: Done} input int aliceBids();
  ?{bob:; alice: Done} input int bobBids();
  ?{alice:; bob:} output void announce(int bid);
  static void main() !bottom {
    int sum = aliceBids() + bobBids();
    open Done;
    announce(sum);
  }
}
";

const BID_FORGOTTEN: &str = "\
actor alice, bob;
lock Done;
class Auction {
  ?{alice:; bob: Done} input int aliceBids();
  ?{alice:; bob:} output void announce(int bid);
  static void main() !bottom {
    int bid = aliceBids();
    bid = 0;
    announce(bid);
  }
}
";

const OUTPUT_IN_BRANCH: &str = "\
actor alice, bob;
lock Paid;
class Shop {
  ?{alice:; bob: Paid} input int key();
  output void show(int v);
  static void main() {
    open Paid;
    if (key() > 0) {
      show(1);
    }
  }
}
";

const OUTPUT_BEHIND_BRANCH: &str = "\
actor alice, bob;
lock Paid;
class Shop {
  ?{alice:; bob: Paid} input int key();
  output void show(int v);
  static void main() {
    int above = 0;
    if (key() > 0) {
      above = 1;
    }
    open Paid;
    show(above);
  }
}
";

const KEY_TO_PARAMETER: &str = "\
actor alice, bob;
lock Paid;
class Shop {
  ?{alice:; bob: Paid} input int key();
  static int got;
  static void main() {
    keep(key());
  }
  static void keep(int v) {
    got = v;
  }
}
";

const KEY_TO_ITS_PARAMETER: &str = "\
actor alice, bob;
lock Paid;
class Shop {
  ?{alice:; bob: Paid} input int key();
  static int got;
  static void main() {
    open Paid;
    keep(key());
  }
  static void keep(?{alice:; bob: Paid} int v) ~Paid {
    got = v;
  }
}
";

const RESULT_OF_BRANCH: &str = "\
actor alice, bob;
lock Paid;
class Shop {
  ?{alice:; bob: Paid} input int key();
  ?{alice:; bob: Paid} static int got;
  static void main() {
    got = sign();
  }
  static int sign() {
    if (key() > 0) {
      return 1;
    }
    return 0;
  }
}
";

const RESULT_WITH_POLICY: &str = "\
actor alice, bob;
lock Paid;
class Shop {
  ?{alice:; bob: Paid} input int key();
  ?{alice:; bob: Paid} static int got;
  static void main() {
    got = sign();
  }
  ?{alice:; bob: Paid} static int sign() {
    if (key() > 0) {
      return 1;
    }
    return 0;
  }
}
";

const CALL_IN_BRANCH: &str = "\
actor alice, bob;
lock Paid;
class Shop {
  ?{alice:; bob: Paid} input int key();
  ?{alice:; bob: Paid} static int sum;
  static void main() {
    if (key() > 0) {
      count();
    }
  }
  static void count() {
    sum = sum + 1;
  }
}
";

const CALL_WITH_EFFECT: &str = "\
actor alice, bob;
lock Paid;
class Shop {
  ?{alice:; bob: Paid} input int key();
  ?{alice:; bob: Paid} static int sum;
  static void main() {
    if (key() > 0) {
      count();
    }
  }
  static void count() !{alice:; bob: Paid} {
    sum = sum + 1;
  }
}
";

const CHOSEN_MAY_BE_NULL: &str = "\
actor alice, bob;
lock Paid;
class Item {
  int mark;
}
class Shop {
  ?{alice:; bob: Paid} input int key();
  static void main() {
    notnull Item one = new Item();
    notnull Item other = new Item();
    Item chosen = one;
    if (key() > 0) {
      chosen = other;
    }
    try {
      chosen.mark = 1;
    } catch (NullPointerException e) {
    }
  }
}
";

const CHOSEN_OBJECT: &str = "\
actor alice, bob;
lock Paid;
class Item {
  int mark;
}
class Shop {
  ?{alice:; bob: Paid} input int key();
  static void main() {
    notnull Item one = new Item();
    notnull Item other = new Item();
    notnull Item chosen = one;
    if (key() > 0) {
      chosen = other;
    }
    chosen.mark = 1;
  }
}
";

const CHOSEN_OBJECT_WITH_POLICY: &str = "\
actor alice, bob;
lock Paid;
class Item ?bottom {
  ?{alice:; bob: Paid} int mark;
}
class Shop {
  ?{alice:; bob: Paid} input int key();
  static void main() {
    notnull Item one = new Item();
    notnull Item other = new Item();
    notnull Item chosen = one;
    if (key() > 0) {
      chosen = other;
    }
    chosen.mark = 1;
  }
}
";

const BIRTH_IN_BRANCH: &str = "\
actor alice, bob;
lock Paid;
class Item {
  int mark;
}
class Shop {
  ?{alice:; bob: Paid} input int key();
  static void main() {
    Item item = null;
    if (key() > 0) {
      item = new Item();
    }
  }
}
";

const BIRTH_WITH_POLICY: &str = "\
actor alice, bob;
lock Paid;
class Item {
  ?{alice:; bob: Paid} int mark;
}
class Shop {
  ?{alice:; bob: Paid} input int key();
  static void main() {
    Item item = null;
    if (key() > 0) {
      item = new Item();
    }
  }
}
";

const LOCAL_WITH_POLICY: &str = "\
actor alice, bob;
lock Paid;
class Shop {
  ?{alice:; bob: Paid} input int key();
  output void show(int v);
  static void main() {
    ?bottom int v = 0;
    v = key();
    show(0);
  }
}
";

const LOCAL_WITH_ITS_POLICY: &str = "\
actor alice, bob;
lock Paid;
class Shop {
  ?{alice:; bob: Paid} input int key();
  output void show(int v);
  static void main() {
    ?{alice:; bob: Paid} int v = 0;
    v = key();
    show(0);
  }
}
";

const LOCK_OPENED_IN_BRANCH: &str = "\
actor alice, bob;
lock Paid ?bottom;
class Shop {
  ?{alice:; bob: Paid} input int key();
  output void show(int v);
  static void main() {
    if (key() > 0) {
      open Paid;
    }
    when (Paid) {
      show(1);
    }
  }
}
";

const LOCK_WITH_ITS_POLICY: &str = "\
actor alice, bob;
lock Paid ?{alice:; bob: Paid};
class Shop {
  ?{alice:; bob: Paid} input int key();
  ?{alice:; bob: Paid} output void tell(int v);
  static void main() {
    if (key() > 0) {
      open Paid;
    }
    when (Paid) {
      tell(1);
    }
  }
}
";

const THROWS_UNDECLARED: &str = "\
actor alice;
class Shop {
  input int money();
  output void show(int v);
  static void main() {
    show(100 / money());
  }
}
";

const THROWS_DECLARED: &str = "\
actor alice;
class Shop {
  input int money();
  output void show(int v);
  static void main() throws ArithmeticException bottom {
    show(100 / money());
  }
}
";

const THROWS_FOR_ALL: &str = "\
actor alice, bob;
lock Paid;
class Odd extends Exception { }
class Shop {
  ?{alice:; bob: Paid} input int key();
  static void main() {
    try {
      test();
    } catch (Odd e) {
    }
  }
  static void test() throws Odd bottom {
    if (key() % 2 != 0) {
      throw new Odd();
    }
  }
}
";

const THROWS_WITH_POLICY: &str = "\
actor alice, bob;
lock Paid;
class Odd extends Exception { }
class Shop {
  ?{alice:; bob: Paid} input int key();
  static void main() {
    try {
      test();
    } catch (Odd e) {
    }
  }
  static void test() throws Odd {alice:; bob: Paid} {
    if (key() % 2 != 0) {
      throw new Odd();
    }
  }
}
";

const ACCOUNT_TO_PARAMETER: &str = "\
actor alice, bob;
class Account {
  ?{alice:} int balance;
}
class Bank {
  static void main() {
    notnull Account a = new Account();
    notnull Account b = new Account();
    transfer(a, b);
  }
  static void transfer(notnull Account from, notnull Account to) !{alice:} {
    to.balance = to.balance + from.balance;
    from.balance = 0;
  }
}
";

const ACCOUNT_TO_ITS_PARAMETER: &str = "\
actor alice, bob;
class Account {
  ?{alice:} int balance;
}
class Bank {
  static void main() {
    notnull Account a = new Account();
    notnull Account b = new Account();
    transfer(a, b);
  }
  static void transfer(?{alice:} notnull Account from, ?{alice:} notnull Account to) !{alice:} {
    to.balance = to.balance + from.balance;
    from.balance = 0;
  }
}
";

const ACCOUNT_FOR_ALL: &str = "\
actor alice, bob;
class Account ?bottom {
  ?{alice:} int balance;
}
class Bank {
  static void main() {
    notnull Account a = new Account();
    notnull Account b = new Account();
    transfer(a, b);
  }
  static void transfer(notnull Account from, notnull Account to) !{alice:} {
    to.balance = to.balance + from.balance;
    from.balance = 0;
  }
}
";

const DEPOSIT_FOR_ALL: &str = "\
actor alice, bob;
class Account {
  ?{alice:} int balance;
  void deposit(int v) {
    balance = balance + v;
  }
}
class Bank {
  static void main() {
    notnull Account a = new Account();
    a.deposit(3);
  }
}
";

const DEPOSIT_WITH_EFFECT: &str = "\
actor alice, bob;
class Account {
  ?{alice:} int balance;
  void deposit(int v) !{alice:} {
    balance = balance + v;
  }
}
class Bank {
  static void main() {
    notnull Account a = new Account();
    a.deposit(3);
  }
}
";

const DEPOSIT_TO_ACCOUNT_FOR_ALL: &str = "\
actor alice, bob;
class Account ?bottom {
  ?{alice:} int balance;
  void deposit(int v) {
    balance = balance + v;
  }
}
class Bank {
  static void main() {
    notnull Account a = new Account();
    a.deposit(3);
  }
}
";

const LOCKS_AND_VALUES: &[(&str, Answer)] = &[
    (LOCK_NOT_OPEN, ("refused 301 at 7:5\n", 1)),
    (LOCK_OPENED, ACCEPTED),
    (CLOSE_UNTOLD, ("refused 302 at 9:5\n", 1)),
    (CLOSE_TOLD, ACCEPTED),
    (OPENED_ON_ONE_WAY, ("refused 303 at 11:15\n", 1)),
    (OPENED_ON_EACH_WAY, ACCEPTED),
    (KEY_TO_ALL, ("refused 401 at 7:5\n", 1)),
    (KEY_BEHIND_PAID, ACCEPTED),
    (KEY_KEPT, ACCEPTED),
    (KEY_IN_OBJECT, ("refused 402 at 10:11\n", 1)),
    (KEY_IN_ITS_OBJECT, ACCEPTED),
    (SUM_TOO_EARLY, ("refused 403 at 9:5\n", 1)),
    (SUM_BEHIND_DONE, ACCEPTED),
    (BID_FORGOTTEN, ACCEPTED),
    (OUTPUT_IN_BRANCH, ("refused 404 at 9:7\n", 1)),
    (OUTPUT_BEHIND_BRANCH, ACCEPTED),
];

#[test]
fn locks_and_values(rt: HostRuntime) -> Result<(), Fail> {
    check_sources(rt.alloc(), LOCKS_AND_VALUES)
}

const CALLS_AND_OBJECTS: &[(&str, Answer)] = &[
    (KEY_TO_PARAMETER, ("refused 405 at 7:10\n", 1)),
    (KEY_TO_ITS_PARAMETER, ACCEPTED),
    (RESULT_OF_BRANCH, ("refused 406 at 11:7\n", 1)),
    (RESULT_WITH_POLICY, ACCEPTED),
    (CALL_IN_BRANCH, ("refused 407 at 8:7\n", 1)),
    (CALL_WITH_EFFECT, ACCEPTED),
    (CHOSEN_MAY_BE_NULL, ("refused 404 at 16:14\n", 1)),
    (CHOSEN_OBJECT, ("refused 408 at 15:12\n", 1)),
    (CHOSEN_OBJECT_WITH_POLICY, ACCEPTED),
    (BIRTH_IN_BRANCH, ("refused 409 at 11:14\n", 1)),
    (BIRTH_WITH_POLICY, ACCEPTED),
];

#[test]
fn calls_and_objects(rt: HostRuntime) -> Result<(), Fail> {
    check_sources(rt.alloc(), CALLS_AND_OBJECTS)
}

/// Objects are worth their birth policy, which comes from the fields where it is not written.
const ACCOUNTS: &[(&str, Answer)] = &[
    (ACCOUNT_TO_PARAMETER, ("refused 405 at 9:14\n", 1)),
    (ACCOUNT_TO_ITS_PARAMETER, ACCEPTED),
    (ACCOUNT_FOR_ALL, ACCEPTED),
    (DEPOSIT_FOR_ALL, ("refused 407 at 11:7\n", 1)),
    (DEPOSIT_WITH_EFFECT, ACCEPTED),
    (DEPOSIT_TO_ACCOUNT_FOR_ALL, ACCEPTED),
];

#[test]
fn accounts_are_worth_their_births(rt: HostRuntime) -> Result<(), Fail> {
    check_sources(rt.alloc(), ACCOUNTS)
}

const LOCALS_LOCKS_AND_EXCEPTIONS: &[(&str, Answer)] = &[
    (LOCAL_WITH_POLICY, ("refused 410 at 8:5\n", 1)),
    (LOCAL_WITH_ITS_POLICY, ACCEPTED),
    (LOCK_OPENED_IN_BRANCH, ("refused 411 at 8:7\n", 1)),
    (LOCK_WITH_ITS_POLICY, ACCEPTED),
    (THROWS_UNDECLARED, ("refused 501 at 5:15\n", 1)),
    (THROWS_DECLARED, ACCEPTED),
    (THROWS_FOR_ALL, ("refused 502 at 12:15\n", 1)),
    (THROWS_WITH_POLICY, ACCEPTED),
];

#[test]
fn locals_locks_and_exceptions(rt: HostRuntime) -> Result<(), Fail> {
    check_sources(rt.alloc(), LOCALS_LOCKS_AND_EXCEPTIONS)
}
