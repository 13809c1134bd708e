//! What audits tell of sources, for each actor.

use par_io::{MemFolder, NoMemory};
use par_row_calls::{Answer, answers, with_body};
use par_worked::{AUCTION, expect};
use std::alloc::Global;
use std::rt::HostRuntime;
use std::test::Fail;

const TO_ALICE: &str = "paragonc --audit alice shop.par";

const TO_BOB: &str = "paragonc --audit bob shop.par";

const TO_CAROL: &str = "paragonc --audit carol shop.par";

const NO_ACTOR: Answer = ("no actor\n", 15);

/// A command over the common source with a body.
const BODIES: &[(&str, &str, Answer)] = &[
    ("open Paid; show(key());", TO_ALICE, ("audited 0\n", 0)),
    (
        "open Paid; show(key());",
        TO_BOB,
        ("release 403 at 8:12\naudited 1\n", 0),
    ),
    (
        "open Paid; show(1); show(key()); show(key() + 1);",
        TO_BOB,
        ("release 403 at 8:21\nrelease 403 at 8:34\naudited 2\n", 0),
    ),
    ("open Paid; show(key());", TO_CAROL, NO_ACTOR),
    ("show(1);", TO_BOB, ("audited 0\n", 0)),
    ("show(key());", TO_ALICE, ("refused 403 at 8:1\n", 1)),
    ("show(key());", TO_BOB, ("refused 403 at 8:1\n", 1)),
    ("show(key());", TO_CAROL, ("refused 403 at 8:1\n", 1)),
    (
        "open Paid; show(key());",
        "paragonc --audit bob none.par",
        ("absent\n", 3),
    ),
    (
        "open Paid; show(key());",
        "paragonc carol shop.par --audit",
        NO_ACTOR,
    ),
];

/// A command over the auction.
const AUCTIONS: &[(&str, Answer)] = &[
    (TO_ALICE, ("release 401 at 14:5\naudited 1\n", 0)),
    (TO_BOB, ("release 401 at 14:5\naudited 1\n", 0)),
    (TO_CAROL, NO_ACTOR),
];

fn audits_as(
    alloc: Global,
    source: &[u8],
    command: &str,
    answer: Answer,
) -> Result<bool, NoMemory> {
    let mut folder = MemFolder::new(alloc);
    folder.add("shop.par", source)?;
    answers(alloc, command, &mut folder, answer)
}

#[test]
fn releases_of_the_common_source(rt: HostRuntime) -> Result<(), Fail> {
    for (body, command, answer) in BODIES {
        let source = with_body(rt.alloc(), body)?;
        expect(
            audits_as(rt.alloc(), source.as_bytes(), command, *answer)?,
            body,
        )?;
    }
    Ok(())
}

#[test]
fn releases_of_the_auction(rt: HostRuntime) -> Result<(), Fail> {
    for (command, answer) in AUCTIONS {
        expect(audits_as(rt.alloc(), AUCTION, command, *answer)?, command)?;
    }
    Ok(())
}
