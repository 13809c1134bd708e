//! Inferred policies of fields of worked programs.

ghost use Rattle.std.specs.Prelude.{IsTrue};
ghost use Rattle.std.specs.List.{AllByRecursion};
ghost use Rattle.par_program_laws.specs.WellDeclared.{HasFewFields};

use par_infer::{Filling, InferError, infer};
use par_typed::program::Typed;
use par_typed::table::ClassInfo;
use par_typed_sources::typed;
use par_worked::expect;
use std::alloc::Global;
use std::rt::HostRuntime;
use std::test::Fail;

// The key's policy is number 1, behind `bottom`.
const KEPT: &[u8] = b"actor alice, bob;
lock Paid;
class Shop {
?{alice:; bob: Paid} input int key();
?{alice:; bob:} output void show(int v);
?_ static int got;
static void main() !bottom {
got = key(); show(1);
}
}
";

const SHOWN: &[u8] = b"actor alice, bob;
lock Paid;
class Shop {
?{alice:; bob: Paid} input int key();
?{alice:; bob:} output void show(int v);
?_ static int got;
static void main() !bottom {
got = key(); show(got);
}
}
";

const SHOP: u16 = 2;

const BOTTOM: u16 = 0;

const KEY: u16 = 1;

// Where the field is shown.
const SHOWS: u32 = 182;

// The most policies, classes and fields that a table has.
const POLICIES: usize = 256;

const CLASSES: usize = 65_536;

const FIELDS: usize = 65_536;

fn are_few(classes: &[ClassInfo]) -> bool
    ensures { IsTrue result → AllByRecursion HasFewFields classes.now }
{
    match classes {
        [] => true,
        [first, rest @ ..] => first.fields.len() <= FIELDS && are_few(rest),
    }
}

fn inferred(alloc: Global, source: &[u8]) -> Result<Result<Filling, InferError>, Fail> {
    let typed: Typed = typed(alloc, source)?;
    if typed.table.policies.len() > POLICIES || typed.table.classes.len() > CLASSES {
        return Err(Fail::new("a table that is too long"));
    }
    if !are_few(typed.table.classes.as_slice()) {
        return Err(Fail::new("a class that is too long"));
    }
    Ok(infer(alloc, typed))
}

fn is_kept(filling: &Filling) -> bool {
    match filling.fields.get(0) {
        None => false,
        Some(first) => filling.fields.len() == 1
            && first.class == SHOP
            && first.field == 0
            && first.policies.has(BOTTOM)
            && first.policies.has(KEY)
            && !first.policies.has(KEY + 1),
    }
}

#[test]
fn a_field_is_as_secret_as_what_is_written_to_it(rt: HostRuntime) -> Result<(), Fail> {
    match inferred(rt.alloc(), KEPT)? {
        Err(_) => Err(Fail::new("some policies keep all rules")),
        Ok(filling) => {
            let is_kept = is_kept(&filling);
            drop(filling);
            expect(is_kept, "the policy of the key")
        }
    }
}

#[test]
fn no_policy_lets_a_secret_be_shown(rt: HostRuntime) -> Result<(), Fail> {
    match inferred(rt.alloc(), SHOWN)? {
        Ok(_) => Err(Fail::new("no policies keep all rules")),
        Err(error) => match error {
            InferError::Memory => Err(Fail::new("memory was wanting")),
            InferError::Broken(refusal) => expect(
                refusal.rule == 403 && refusal.at == SHOWS,
                "where the field is shown",
            ),
        },
    }
}
