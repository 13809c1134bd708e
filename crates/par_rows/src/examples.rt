//! The examples of the repository, and the sources that its pages show.
//!
//! A test reads no file, so each text stands here and in `examples/`, `README.md` or `docs/`. They
//! are kept equal, and `bench/same_examples.sh` compares them.

use par_io::NoMemory;
use par_row_calls::{
    ACCEPTED, Answer, COMPILED, answers, check_sources, folder_of, runs_as, traces_as,
};
use par_worked::expect;
use std::alloc::Global;
use std::test::Fail;

const SHOP_IN_BRIEF: &str = "\
actor alice, bob;
lock Paid;
class Shop {
  ?{alice:; bob: Paid} input int key();
  ?{alice:; bob:} output void show(int v);
  static void main() !bottom {
    open Paid;
    show(key());
  }
}
";

const SHOP: &str = "\
// A shop sells a key. alice, who runs it, may see the key at any time. bob may see it once he
// has paid.
actor alice, bob;

// Open once bob has paid.
lock Paid;

class Shop {
  ?{alice:; bob: Paid} input int key();
  ?{alice:; bob:} output void show(int v);
  ?{alice:; bob:} static int got;

  static void main() !bottom {
    open Paid;
    show(key());
  }
}
";

const AUCTION: &str = "\
// Two sealed bids. Neither bidder may see the other's bid before the auction is done.
actor alice, bob;

// Open once both bids are in.
lock Done;

class Auction {
  ?{alice:; bob: Done} input int aliceBids();
  ?{bob:; alice: Done} input int bobBids();
  ?{alice:; bob:} output void announce(int bid);
  ?{alice:; bob:} static int total;

  static void main() !bottom {
    int a = aliceBids();
    int b = bobBids();
    open Done;
    announce(a);
    announce(b);
    total = a + b;
  }
}
";

const PAID_CONTENT: &str = "\
// A writer sells a story. Everyone may read its title, and the reader may read the story itself
// once it is paid for.
actor writer, reader;

// Open once the reader has paid.
lock Paid;

class Story {
  ?{writer:; reader:} input int title();
  ?{writer:; reader: Paid} input int chapter();
  ?{writer:; reader: Paid} static int draft;
  ?{writer:; reader:} output void show(int v);

  static void main() !bottom {
    int text = chapter();
    draft = text;
    show(title());
    open Paid;
    show(text);
    show(chapter());
  }
}
";

const KEY_TO_ALL: &str = "\
actor alice, bob;
lock Paid;
class Shop {
  ?{alice:; bob: Paid} input int key();
  ?{alice:; bob:} static int got;
  static void main() !bottom {
    got = key();
  }
}
";

const KEY_BEHIND_PAID: &str = "\
actor alice, bob;
lock Paid;
class Shop {
  ?{alice:; bob: Paid} input int key();
  ?{alice:; bob:} static int got;
  static void main() !bottom {
    open Paid;
    got = key();
  }
}
";

const KEY_KEPT: &str = "\
actor alice, bob;
lock Paid;
class Shop {
  ?{alice:; bob: Paid} input int key();
  ?{alice:; bob: Paid} static int got;
  static void main() !bottom {
    got = key();
  }
}
";

const SUM_TOO_EARLY: &str = "\
actor alice, bob;
lock Done;
class Auction {
  ?{alice:; bob: Done} input int aliceBids();
  ?{bob:; alice: Done} input int bobBids();
  ?{alice:; bob:} output void announce(int bid);
  static void main() !bottom {
    int sum = aliceBids() + bobBids();
    announce(sum);
    open Done;
  }
}
";

const SUM_BEHIND_DONE: &str = "\
actor alice, bob;
lock Done;
class Auction {
  ?{alice:; bob: Done} input int aliceBids();
  ?{bob:; alice: Done} input int bobBids();
  ?{alice:; bob:} output void announce(int bid);
  static void main() !bottom {
    int sum = aliceBids() + bobBids();
    open Done;
    announce(sum);
  }
}
";

const BID_FORGOTTEN: &str = "\
actor alice, bob;
lock Done;
class Auction {
  ?{alice:; bob: Done} input int aliceBids();
  ?{alice:; bob:} output void announce(int bid);
  static void main() !bottom {
    int bid = aliceBids();
    bid = 0;
    announce(bid);
  }
}
";

const GIFT_WITH_TEST: &str = "\
actor alice;
class Gift {
  ?{alice:} output void show(int v);
  static void main() !bottom {
    if (1 > 0) { show(1); }
  }
}
";

const GIFT: &str = "\
actor alice;
class Gift {
  ?{alice:} output void show(int v);
  static void main() !bottom {
    show(1);
  }
}
";

const SEALED_BIDS: &str = "\
// A sealed-bid auction. Neither bidder learns anything of the other's bid before both are in, and
// then everyone learns the price alone.
actor alice, bob;

// Open once both bids are in.
lock Done;

policy AliceBid = {alice:; bob: Done};
policy BobBid = {bob:; alice: Done};

class Auction {
  ?AliceBid input int aliceBids();
  ?BobBid input int bobBids();
  output void announce(int price);
  ?bottom static int price;

  static void main() {
    int a = aliceBids();
    int b = bobBids();
    open Done;
    price = larger(a, b);
    announce(price);
  }

  // The larger of two bids. Who may see the result is who may see both; and a branch on the bids
  // is taken here, so that no one else may be told of what happens inside: the effect is top.
  ?AliceBid * BobBid static int larger(?AliceBid int x, ?BobBid int y) !top {
    if (x > y) {
      return x;
    }
    return y;
  }
}
";

const PAID_ARTICLE: &str = "\
// A writer sells an article to a reader, whose bank may refuse to pay. A guest looks on, and
// learns neither the article nor whether it was paid for.
actor writer, reader, guest;

// Open once the reader has paid.
lock Paid;

policy Deal = {writer:; reader:};
policy Article = {writer:; reader: Paid};

class Refused extends Exception { }

class Shop {
  // What the bank says: a number above 0 where it pays.
  ?Deal input int bank();
  ?Article input int article();
  ?Deal output void show(int v);
  output void greet(int v);

  static void main() {
    try {
      pay();
      open Paid;
      show(article());
    } catch (Refused e) {
      show(0);
    }
    greet(1);
  }

  // Goes on where the bank pays. Only writer and reader may learn whether it threw.
  static void pay() throws Refused Deal {
    if (bank() <= 0) {
      throw new Refused();
    }
  }
}
";

const SURVEY: &str = "\
// A survey of yes and no. Nobody learns of an answer, nor of how many there are so far, before the
// survey is over; then everyone learns the two counts.
actor host, voter;

// Open once the last answer is in.
lock Over;

policy Sealed = {host: Over; voter: Over};

class Survey {
  // 1 for yes, 2 for no, and 0 behind the last answer.
  ?Sealed input int answers();
  ?Sealed static int yes;
  ?Sealed static int no;
  output void tell(int count);

  static void main() {
    int next = answers();
    while (next > 0) {
      if (next == 1) {
        yes = yes + 1;
      } else {
        no = no + 1;
      }
      next = answers();
    }
    open Over;
    tell(yes);
    tell(no);
  }
}
";

const PASSWORD: &str = "\
// A door that opens to a password. The guest learns one bit, on purpose: whether the guess was
// right. The lock is open for that one output alone.
actor owner, guest;

lock Checked;

policy Secret = {owner:; guest: Checked};

class Door {
  ?Secret input int password();
  ?bottom input int guess();
  ?bottom output void answer(int right);
  ?Secret static int tries;

  static void main() -Checked {
    int right = 0;
    if (password() == guess()) {
      right = 1;
    }
    open Checked;
    answer(right);
    close Checked;
    tries = tries + 1;
  }
}
";

const KEY_BEHIND_A_QUERY: &str = "\
actor alice, bob;
lock Paid ?bottom;
class Shop {
  ?{alice:; bob: Paid} input int key();
  output void show(int v);
  static void main() {
    when (Paid) {
      show(key());
    } else {
      show(0);
    }
    open Paid;
  }
}
";

const EXAMPLES: &[(&str, Answer)] = &[
    (SHOP_IN_BRIEF, ACCEPTED),
    (KEY_BEHIND_A_QUERY, ACCEPTED),
    (SHOP, ACCEPTED),
    (AUCTION, ACCEPTED),
    (PAID_CONTENT, ACCEPTED),
    (SEALED_BIDS, ACCEPTED),
    (PAID_ARTICLE, ACCEPTED),
    (SURVEY, ACCEPTED),
    (PASSWORD, ACCEPTED),
];

#[test]
fn examples_are_accepted(rt: HostRuntime) -> Result<(), Fail> {
    check_sources(rt.alloc(), EXAMPLES)
}

/// A source, the command that audits it, and what is told. Who may never see what is bought, as the
/// guest of the article, and who may see it at any time have no release.
const AUDITS: &[(&str, &str, Answer)] = &[
    (
        SEALED_BIDS,
        "paragonc --audit alice shop.par",
        ("release 401 at 21:5\naudited 1\n", 0),
    ),
    (
        SEALED_BIDS,
        "paragonc --audit bob shop.par",
        ("release 401 at 21:5\naudited 1\n", 0),
    ),
    (SHOP, "paragonc --audit alice shop.par", ("audited 0\n", 0)),
    (
        SHOP,
        "paragonc --audit bob shop.par",
        ("release 403 at 15:5\naudited 1\n", 0),
    ),
    (
        PAID_ARTICLE,
        "paragonc --audit reader shop.par",
        ("release 403 at 24:7\naudited 1\n", 0),
    ),
    (
        PAID_ARTICLE,
        "paragonc --audit guest shop.par",
        ("audited 0\n", 0),
    ),
];

#[test]
fn examples_are_audited(rt: HostRuntime) -> Result<(), Fail> {
    for (source, command, answer) in AUDITS {
        let mut folder = folder_of(rt.alloc(), source)?;
        expect(answers(rt.alloc(), command, &mut folder, *answer)?, command)?;
    }
    Ok(())
}

/// A source, its input file, and what is told of its run.
const TRACES: &[(&str, &str, Answer)] = &[
    (
        SEALED_BIDS,
        "Auction.aliceBids: 30\nAuction.bobBids: 45\n",
        (
            "set Auction.price 45 [Done]\nout Auction.announce 45 [Done]\nend\n",
            0,
        ),
    ),
    (
        PAID_ARTICLE,
        "Shop.bank: 1\nShop.article: 77\n",
        ("out Shop.show 77 [Paid]\nout Shop.greet 1 [Paid]\nend\n", 0),
    ),
    (
        SURVEY,
        "Survey.answers: 1 2 1 1 2 1\n",
        (
            "set Survey.yes 1 []\nset Survey.no 1 []\nset Survey.yes 2 []\nset Survey.yes 3 []\n\
             set Survey.no 2 []\nset Survey.yes 4 []\nout Survey.tell 4 [Over]\n\
             out Survey.tell 2 [Over]\nend\n",
            0,
        ),
    ),
    (
        PASSWORD,
        "Door.password: 4711\nDoor.guess: 4711\n",
        ("out Door.answer 1 [Checked]\nset Door.tries 1 []\nend\n", 0),
    ),
];

const TRACE: &str = "paragonc --trace shop.par in.txt 1000";

#[test]
fn runs_of_examples_are_told(rt: HostRuntime) -> Result<(), Fail> {
    for (source, inputs, answer) in TRACES {
        let told = traces_as(rt.alloc(), source, inputs, TRACE, *answer)?;
        expect(told, source)?;
    }
    Ok(())
}

/// A source, its input file, how its compilation is answered, the command that runs its class
/// files, and what is told of the run.
const RUNS: &[(&str, &str, Answer, &str, Answer)] = &[
    (
        SHOP,
        "Shop.key: 42\n",
        COMPILED,
        "paragon Shop in.txt 1000",
        ("out Shop.show 42\nend\n", 0),
    ),
    (
        AUCTION,
        "Auction.aliceBids: 40\nAuction.bobBids: 35\n",
        COMPILED,
        "paragon Auction in.txt 1000",
        (
            "out Auction.announce 40\nout Auction.announce 35\nset Auction.total 75\nend\n",
            0,
        ),
    ),
    (
        PAID_CONTENT,
        "Story.title: 7\nStory.chapter: 101 102\n",
        COMPILED,
        "paragon Story in.txt 1000",
        (
            "set Story.draft 101\nout Story.show 7\nout Story.show 101\nout Story.show 102\nend\n",
            0,
        ),
    ),
    (
        SEALED_BIDS,
        "Auction.aliceBids: 30\nAuction.bobBids: 45\n",
        COMPILED,
        "paragon Auction in.txt 1000",
        ("set Auction.price 45\nout Auction.announce 45\nend\n", 0),
    ),
    (
        PAID_ARTICLE,
        "Shop.bank: 1\nShop.article: 77\n",
        ("accepted 2\n", 0),
        "paragon Shop in.txt 1000",
        ("out Shop.show 77\nout Shop.greet 1\nend\n", 0),
    ),
    (
        PAID_ARTICLE,
        "Shop.bank: 0\nShop.article: 77\n",
        ("accepted 2\n", 0),
        "paragon Shop in.txt 1000",
        ("out Shop.show 0\nout Shop.greet 1\nend\n", 0),
    ),
    (
        SURVEY,
        "Survey.answers: 1 2 1 1 2 1\n",
        COMPILED,
        "paragon Survey in.txt 1000",
        (
            "set Survey.yes 1\nset Survey.no 1\nset Survey.yes 2\nset Survey.yes 3\n\
             set Survey.no 2\nset Survey.yes 4\nout Survey.tell 4\nout Survey.tell 2\nend\n",
            0,
        ),
    ),
    (
        PASSWORD,
        "Door.password: 4711\nDoor.guess: 4711\n",
        COMPILED,
        "paragon Door in.txt 1000",
        ("out Door.answer 1\nset Door.tries 1\nend\n", 0),
    ),
];

#[test]
fn examples_are_compiled_and_run(rt: HostRuntime) -> Result<(), Fail> {
    for run in RUNS {
        expect(runs_as(rt.alloc(), run)?, run.0)?;
    }
    Ok(())
}

/// Sealed bids, what is told of the run of the source with the locks that are open, and what is
/// told of the run of its class files. Of the first two a third actor, who may see neither bid,
/// is shown the same. Of the first and the third alice, who may see her own bid alone before Done
/// is open, is shown nothing that differs before it is.
const BIDS: &[(&str, &str, &str)] = &[
    (
        "Auction.aliceBids: 30\nAuction.bobBids: 45\n",
        "set Auction.price 45 [Done]\nout Auction.announce 45 [Done]\nend\n",
        "set Auction.price 45\nout Auction.announce 45\nend\n",
    ),
    (
        "Auction.aliceBids: 44\nAuction.bobBids: 45\n",
        "set Auction.price 45 [Done]\nout Auction.announce 45 [Done]\nend\n",
        "set Auction.price 45\nout Auction.announce 45\nend\n",
    ),
    (
        "Auction.aliceBids: 30\nAuction.bobBids: 40\n",
        "set Auction.price 40 [Done]\nout Auction.announce 40 [Done]\nend\n",
        "set Auction.price 40\nout Auction.announce 40\nend\n",
    ),
];

fn bids_are_told(
    alloc: Global,
    bids: &(&'static str, &'static str, &'static str),
) -> Result<bool, NoMemory> {
    let is_traced = traces_as(alloc, SEALED_BIDS, bids.0, TRACE, (bids.1, 0))?;
    Ok(is_traced && bids_are_run(alloc, bids.0, (bids.2, 0))?)
}

fn bids_are_run(alloc: Global, inputs: &'static str, answer: Answer) -> Result<bool, NoMemory> {
    let run = "paragon Auction in.txt 1000";
    runs_as(alloc, &(SEALED_BIDS, inputs, COMPILED, run, answer))
}

#[test]
fn sealed_bids_stay_sealed(rt: HostRuntime) -> Result<(), Fail> {
    for bids in BIDS {
        expect(bids_are_told(rt.alloc(), bids)?, bids.0)?;
    }
    Ok(())
}

const REFUSALS_AND_THEIR_MENDS: &[(&str, Answer)] = &[
    (KEY_TO_ALL, ("refused 401 at 7:5\n", 1)),
    (KEY_BEHIND_PAID, ACCEPTED),
    (KEY_KEPT, ACCEPTED),
    (SUM_TOO_EARLY, ("refused 403 at 9:5\n", 1)),
    (SUM_BEHIND_DONE, ACCEPTED),
    (BID_FORGOTTEN, ACCEPTED),
    (GIFT_WITH_TEST, ACCEPTED),
    (GIFT, ACCEPTED),
];

#[test]
fn refusals_and_their_mends(rt: HostRuntime) -> Result<(), Fail> {
    check_sources(rt.alloc(), REFUSALS_AND_THEIR_MENDS)
}
