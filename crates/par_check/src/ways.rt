//! What is known at a spot.

ghost use Rattle.std.specs.Prelude.{◌≡◌, slice_get};
ghost use Rattle.par_bits.specs.Sets.{has};
ghost use Rattle.par_asked.specs.par_check_laws.Checks.{points_past};
ghost use Rattle.par_typed.specs.Shown.{all_shown};
ghost use Rattle.par_flow.specs.Standing.{stands};
ghost use Rattle.par_check.specs.Meets.{heightened};
ghost use Rattle.par_check.specs.Spots.{at_spot, behind, listed};

use par_asked::check::Way;
use par_atoms::Atoms;
use par_flow::known::{Known, KnownFacts};
use par_nodes::rule::Kind;
use par_typed::expr::TExpr;

// With these policies in the context.
fn heightened(known: Option<Known>, by: &Atoms) -> Option<Known>
    ensures { stands result ≡ heightened (has by.now) (stands known) }
{
    match known {
        None => None,
        Some(known) => Some(Known {
            context: known.context.union(by),
            locks: known.locks,
        }),
    }
}

// The point of the last argument, or that of the receiver where there are no arguments.
fn last_point(of: Option<u32>, args: &[TExpr]) -> Option<u32>
    ensures { result ≡ slice_get (points_past (listed of) (all_shown args.now)) 0 }
{
    match args.last() {
        None => of,
        Some(last) => Some(last.point),
    }
}

// Behind the part, or where the node is entered.
fn behind<F: KnownFacts>(facts: &F, point: u32, part: Option<u32>) -> Option<Known>
    ensures { stands result ≡ behind (F.facts facts.now) point part }
{
    match part {
        None => facts.entry(point),
        Some(part) => facts.exit(part, Kind::Normal),
    }
}

// Behind a value and an object before it.
#[tactic(auto, using(crate::proofs::Spots::spots))]
fn written<F: KnownFacts>(facts: &F, point: u32, value: u32, of: u32, sure: bool) -> Option<Known>
    ensures { stands result ≡ at_spot (F.facts facts.now) point (Way.Written value of sure) }
{
    let known = facts.exit(value, Kind::Normal);
    if sure {
        known
    } else {
        heightened(known, &facts.value(of))
    }
}

// Behind the arguments of a call.
#[tactic(auto, using(crate::proofs::Spots::at_call, crate::proofs::Spots::at_call_on))]
fn called<F: KnownFacts>(facts: &F, point: u32, of: Option<u32>, args: &[TExpr]) -> Option<Known>
    ensures { stands result ≡ at_spot (F.facts facts.now) point (Way.Called of args.entry) }
{
    let known = behind(facts, point, last_point(of, args));
    match of {
        None => known,
        Some(of) => heightened(known, &facts.value(of)),
    }
}

/// What is known at a spot, where it is reached.
#[tactic(auto, using(crate::proofs::Spots::spots))]
pub fn known_at<F: KnownFacts>(facts: &F, point: u32, way: Way<'_>) -> Option<Known>
    ensures { stands result ≡ at_spot (F.facts facts.now) point way.entry }
{
    match way {
        Way::Entry => facts.entry(point),
        Way::Behind(part) => facts.exit(part, Kind::Normal),
        Way::Written(value, of, sure) => written(facts, point, value, of, sure),
        Way::Called(of, args) => called(facts, point, of, args),
        Way::Left(kind) => facts.exit(point, kind),
    }
}
