//! What crates of tests share: how a row fails, and a source of which both the table and the typed
//! tree are looked at. Nothing but tests stands on it.
#![tactic(auto)]

ghost use Rattle.std.specs.Prelude.{IsErr, IsFalse, IsOk, IsTrue};

use std::test::Fail;

/// Two bids, of which the larger is announced once the lock `Done` is open.
pub const AUCTION: &[u8] = b"actor alice, bob;
lock Done;
policy AliceBid = {alice:; bob: Done};
policy BobBid = {bob:; alice: Done};
class Auction {
  ?AliceBid input int aliceBids();
  ?BobBid input int bobBids();
  output void announce(int price);
  ?bottom static int best;
  static void main() {
    int a = aliceBids();
    int b = bobBids();
    open Done;
    best = larger(a, b);
    announce(best);
  }
  ?AliceBid * BobBid static int larger(?AliceBid int x, ?BobBid int y) !top {
    if (x > y) { return x; }
    return y;
  }
}
";

/// The row's name as the failure of its test, unless the row holds.
pub fn expect(holds: bool, row: &'static str) -> Result<(), Fail>
    ensures held { IsTrue holds → IsOk result }
    ensures missed { IsFalse holds → IsErr result }
{
    if holds { Ok(()) } else { Err(Fail::new(row)) }
}
