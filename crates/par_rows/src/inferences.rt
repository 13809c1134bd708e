//! Which policies are inferred for fields that leave theirs open, and what is accepted once they
//! are written out.

use par_io::NoMemory;
use par_row_calls::{ACCEPTED, Answer, answers, folder_of, with_lines};
use par_worked::expect;
use std::alloc::Global;
use std::rt::HostRuntime;
use std::test::Fail;

const INFER: &str = "paragonc --infer shop.par";

const CHECK: &str = "paragonc --check shop.par";

const OPEN: &str = "?_ static int got;";

const KEPT: &str = "?{alice:; bob: Paid} static int got;";

const KEY: Answer = ("field Shop.got {alice:; bob: Paid}\ninferred 1\n", 0);

const CHAIN: Answer = (
    "field Shop.one {alice:; bob: Paid}
field Shop.two {alice:; bob: Paid}
field Shop.three {alice:; bob: Paid}
inferred 3
",
    0,
);

const CYCLE: Answer = (
    "field Shop.one {alice:; bob: Paid}
field Shop.two {alice:; bob: Paid}
inferred 2
",
    0,
);

/// An auction that leaves two policies open.
const AUCTION: &str = "\
actor alice, bob;
lock Done;
policy AliceBid = {alice:; bob: Done};
policy BobBid = {bob:; alice: Done};
class Auction {
  ?AliceBid input int aliceBids();
  ?BobBid input int bobBids();
  output void announce(int price);
  ?_ static int first;
  ?_ static int price;
  static void main() {
    first = aliceBids();
    price = larger(first, bobBids());
    open Done;
    announce(price);
  }
  ?AliceBid * BobBid static int larger(?AliceBid int x, ?BobBid int y) !top {
    if (x > y) {
      return x;
    }
    return y;
  }
}
";

/// The same with the policies that are inferred.
const AUCTION_WRITTEN: &str = "\
actor alice, bob;
lock Done;
policy AliceBid = {alice:; bob: Done};
policy BobBid = {bob:; alice: Done};
class Auction {
  ?AliceBid input int aliceBids();
  ?BobBid input int bobBids();
  output void announce(int price);
  ?{alice:; bob: Done} static int first;
  ?{alice: Done; bob: Done} static int price;
  static void main() {
    first = aliceBids();
    price = larger(first, bobBids());
    open Done;
    announce(price);
  }
  ?AliceBid * BobBid static int larger(?AliceBid int x, ?BobBid int y) !top {
    if (x > y) {
      return x;
    }
    return y;
  }
}
";

/// The price is told too early.
const AUCTION_EARLY: &str = "\
actor alice, bob;
lock Done;
policy AliceBid = {alice:; bob: Done};
policy BobBid = {bob:; alice: Done};
class Auction {
  ?AliceBid input int aliceBids();
  ?BobBid input int bobBids();
  output void announce(int price);
  ?_ static int first;
  ?_ static int price;
  static void main() {
    first = aliceBids();
    price = larger(first, bobBids());
    announce(price);
    open Done;
  }
  ?AliceBid * BobBid static int larger(?AliceBid int x, ?BobBid int y) !top {
    if (x > y) {
      return x;
    }
    return y;
  }
}
";

const PRICE: Answer = (
    "field Auction.first {alice:; bob: Done}
field Auction.price {alice: Done; bob: Done}
inferred 2
",
    0,
);

/// A command over an auction.
const AUCTIONS: &[(&str, &str, Answer)] = &[
    (AUCTION, INFER, PRICE),
    (AUCTION, CHECK, ("refused 109 at 9:17\n", 1)),
    (AUCTION_WRITTEN, CHECK, ACCEPTED),
    (AUCTION_WRITTEN, INFER, ("inferred 0\n", 0)),
    (AUCTION_EARLY, INFER, ("refused 403 at 14:5\n", 1)),
];

/// The common source whose field leaves its policy open, with a body; a command.
const BODIES: &[(&str, &str, Answer)] = &[
    ("got = key(); show(1);", INFER, KEY),
    ("open Paid; got = key(); show(got);", INFER, KEY),
    (
        "got = key(); show(got);",
        INFER,
        ("refused 403 at 8:14\n", 1),
    ),
    (
        "show(1);",
        INFER,
        ("field Shop.got bottom\ninferred 1\n", 0),
    ),
    ("show(1);", CHECK, ("refused 109 at 6:15\n", 1)),
    (
        "got = 1;",
        INFER,
        ("field Shop.got {alice:; bob:}\ninferred 1\n", 0),
    ),
    ("got = key(); got = 1;", "paragonc shop.par --infer", KEY),
    ("got = nothing;", INFER, ("refused 101 at 8:7\n", 1)),
    ("got = true;", INFER, ("refused 201 at 8:7\n", 1)),
    ("show(1);", "paragonc --infer none.par", ("absent\n", 3)),
    (
        "show(1);",
        "paragonc --infer --check shop.par",
        ("usage\n", 2),
    ),
    ("show(1);", "paragonc --infer shop.par more", ("usage\n", 2)),
];

/// Further lines of the common source; an answer to its inference.
const LINES: &[(&[(usize, &str)], Answer)] = &[
    (&[], ("inferred 0\n", 0)),
    (&[(8, "show(key());")], ("refused 403 at 8:1\n", 1)),
    (
        &[(6, OPEN), (10, "}\nclass Item { ?_ int f; }")],
        ("refused 108 at 11:21\n", 1),
    ),
    // a chain that is written from its end on
    (
        &[
            (
                6,
                "?_ static int one; ?_ static int two; ?_ static int three;",
            ),
            (8, "one = two; two = three; three = key();"),
        ],
        CHAIN,
    ),
    // a cycle
    (
        &[
            (6, "?_ static int one; ?_ static int two;"),
            (8, "one = two; two = one; one = key();"),
        ],
        CYCLE,
    ),
    // two policies of which none is below the other
    (
        &[
            (5, "?{bob:} input int other();"),
            (6, OPEN),
            (8, "got = key() + other();"),
        ],
        (
            "field Shop.got {alice:; bob: Paid} * {bob:}\ninferred 1\n",
            0,
        ),
    ),
    // the birth policy, the context and the write effect
    (
        &[(6, OPEN), (10, "}\nclass Item ?{alice:} { ?_ int f; }")],
        (
            "field Shop.got bottom\nfield Item.f {alice:}\ninferred 2\n",
            0,
        ),
    ),
    (&[(6, OPEN), (8, "if (key() > 0) { got = 1; }")], KEY),
    (
        &[
            (6, OPEN),
            (
                7,
                "static void set() !top { got = 1; }\nstatic void main() {",
            ),
        ],
        ("field Shop.got {}\ninferred 1\n", 0),
    ),
    // locks of a family, and several locks
    (
        &[
            (2, "lock Owns(actor); lock Both(actor, actor);"),
            (
                4,
                "?{alice: Owns(bob), Both(alice, bob); bob:} input int key();",
            ),
            (6, OPEN),
            (8, "got = key();"),
        ],
        (
            "field Shop.got {alice: Owns(bob), Both(alice,bob); bob:}\ninferred 1\n",
            0,
        ),
    ),
];

fn lines_answer(
    alloc: Global,
    lines: &[(usize, &str)],
    command: &str,
    answer: Answer,
) -> Result<bool, NoMemory> {
    let source = with_lines(alloc, lines)?;
    let mut folder = folder_of(alloc, source.as_str())?;
    answers(alloc, command, &mut folder, answer)
}

#[test]
fn policies_of_a_field(rt: HostRuntime) -> Result<(), Fail> {
    for (body, command, answer) in BODIES {
        let lines = [(6, OPEN), (8, *body)];
        expect(lines_answer(rt.alloc(), &lines, command, *answer)?, body)?;
    }
    Ok(())
}

#[test]
fn policies_of_further_fields(rt: HostRuntime) -> Result<(), Fail> {
    for (lines, answer) in LINES {
        expect(lines_answer(rt.alloc(), lines, INFER, *answer)?, answer.0)?;
    }
    Ok(())
}

#[test]
fn what_is_written_out_is_accepted(rt: HostRuntime) -> Result<(), Fail> {
    let lines = [(6, KEPT), (8, "open Paid; got = key(); show(got);")];
    expect(lines_answer(rt.alloc(), &lines, CHECK, ACCEPTED)?, KEPT)
}

#[test]
fn policies_of_an_auction(rt: HostRuntime) -> Result<(), Fail> {
    for (source, command, answer) in AUCTIONS {
        let mut folder = folder_of(rt.alloc(), source)?;
        expect(
            answers(rt.alloc(), command, &mut folder, *answer)?,
            answer.0,
        )?;
    }
    Ok(())
}
