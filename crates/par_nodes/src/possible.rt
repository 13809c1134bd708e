//! Which completions of a node are possible.

ghost use Rattle.std.specs.Prelude.{◌≡◌, ◌<◌, ◌≤◌, Bool, true, false, IfOk, OnOk, [], ◌∷◌};
ghost use Rattle.std.specs.Prelude.{List as Items, length, slice_set};
ghost use Rattle.par_program_laws.specs.par_policy.Numbers.{has};
ghost use Rattle.par_program_laws.specs.Kinds as flow;
ghost use Rattle.par_program_laws.specs.Rules as plain;
ghost use Rattle.par_nodes.specs.Seen.{seen_absorber, seen_kind, seen_origin, seen_rules};
ghost use Rattle.par_nodes.specs.Possible.{among, apart, cans, coming, either, if_so, parts_can};
ghost use Rattle.par_nodes.specs.Possible.{passed};

use crate::kinds::Kinds;
use crate::rule::{Absorber, Kind, Origin, Rules, Start};
use par_base::memory::NoMemory;
use std::alloc::Global;

/// Whether the completions are the same.
pub fn is_same(one: Kind, other: Kind) -> bool
    ensures { result ≡ flow.same (seen_kind one) (seen_kind other) }
{
    match one {
        Kind::Normal => match other {
            Kind::Normal => true,
            _ => false,
        },
        Kind::Return => match other {
            Kind::Return => true,
            _ => false,
        },
        Kind::Break => match other {
            Kind::Break => true,
            _ => false,
        },
        Kind::Continue => match other {
            Kind::Continue => true,
            _ => false,
        },
        Kind::Throw(class) => match other {
            Kind::Throw(thrown) => class == thrown,
            _ => false,
        },
    }
}

/// Whether the completion is one of these.
pub fn among(kinds: &[Kind], kind: Kind) -> bool
    ensures { result ≡ among kinds.now (seen_kind kind) }
{
    for held in kinds {
        if is_same(*held, kind) {
            return true;
        }
    }
    false
}

fn is_caught(classes: &[u16], class: u16) -> bool
    ensures { result ≡ has classes.now class }
{
    classes.iter().any(|held| *held == class)
}

/// Whether the exit is absorbed.
pub fn takes(absorber: &Absorber, kind: Kind) -> bool
    ensures { result ≡ flow.absorbed (seen_absorber absorber.now) (seen_kind kind) }
{
    match absorber {
        Absorber::Next => is_same(kind, Kind::Normal),
        Absorber::Loop => {
            is_same(kind, Kind::Normal)
                || is_same(kind, Kind::Break)
                || is_same(kind, Kind::Continue)
        }
        Absorber::Catches(classes) => match kind {
            Kind::Throw(class) => is_caught(classes.as_slice(), class),
            Kind::Normal => true,
            Kind::Return | Kind::Break | Kind::Continue => false,
        },
    }
}

// A way that leaves, where it is there.
fn leaves(kinds: &mut Kinds, comes: bool, kind: Kind) -> Result<(), NoMemory>
    ensures { OnOk result (among kinds.new ≡ either (among kinds.old)
        (if_so comes (flow.same (seen_kind kind)))) }
{
    if comes {
        kinds.add(kind)?;
    }
    Ok(())
}

// Whether the way is there, where the node is reached. The parts before stand from the place on,
// the latest first.
fn comes(from: &Origin, parts: &[Kinds], left: usize) -> bool
    requires { left ≤ length parts.now }
    ensures { result ≡ plain.comes (passed left parts.now) (seen_origin from.now) }
{
    match from.start {
        Start::Entry => true,
        Start::After(part, kind) => {
            if part < parts.len() - left {
                parts[left + part].has(kind)
            } else {
                false
            }
        }
    }
}

// A part that is not entered completes in no way.
fn enter(alloc: Global, parts: &mut [Kinds], place: usize, comes: bool)
    requires { place < length parts.old }
    ensures size { length parts.new ≡ length parts.old }
    ensures kept { comes ≡ true → parts.new ≡ parts.old }
    ensures cut { comes ≡ false → parts.new ≡ slice_set parts.old place [] }
{
    if !comes {
        parts[place] = Kinds::new(alloc);
    }
}

// Passes the next part, where there is one, which is the last of so many that are left. Gives how
// many are left then.
fn pass_part(
    alloc: Global,
    absorber: &Absorber,
    comes: bool,
    parts: &mut [Kinds],
    left: usize,
    kinds: &mut Kinds,
) -> Result<usize, NoMemory>
    requires { left ≤ length parts.old }
    ensures left { IfOk result (λ rest. rest ≤ length parts.new) }
    ensures passed { IfOk result (λ rest. (f : flow.Kind → Bool) (fs : Items (flow.Kind → Bool))
        → coming left parts.old ≡ f ∷ fs
        → (coming rest parts.new ≡ fs)
        × (passed rest parts.new ≡ if_so comes f ∷ passed left parts.old)
        × (among kinds.new ≡ either (among kinds.old)
        (apart (seen_absorber absorber.now) (if_so comes f)))) }
{
    if left == 0 {
        return Ok(0);
    }
    let place = left - 1;
    enter(alloc, parts, place, comes);
    kinds.keep_part(absorber, &parts[place])?;
    Ok(place)
}

// The completions that rules add, of whose parts they are known: those that are left come before
// the place, the next one last, and those that are passed behind it, the latest first.
fn add_rules(
    alloc: Global,
    rules: &Rules,
    parts: &mut [Kinds],
    left: usize,
    kinds: &mut Kinds,
) -> Result<(), NoMemory>
    requires { left ≤ length parts.old }
    ensures { OnOk result (coming left parts.old ≡ parts_can (seen_rules rules.now)
        → among kinds.new ≡ either (among kinds.old)
        (plain.can_by (passed left parts.old) (seen_rules rules.now))) }
{
    match rules {
        Rules::Done => Ok(()),
        Rules::Ends(from, kind) => leaves(kinds, comes(from, parts, left), *kind),
        Rules::Gives(from, _) => leaves(kinds, comes(from, parts, left), Kind::Normal),
        Rules::Joins(from, _, _) => leaves(kinds, comes(from, parts, left), Kind::Normal),
        Rules::Part(from, absorber, _, more) => {
            let reached = comes(from, parts, left);
            let rest = pass_part(alloc, absorber, reached, parts, left, kinds)?;
            add_rules(alloc, more, parts, rest, kinds)
        }
        Rules::Test(_, more) => {
            let rest = pass_part(alloc, &Absorber::Next, true, parts, left, kinds)?;
            add_rules(alloc, more, parts, rest, kinds)
        }
        Rules::Leaves(from, kind, more) => {
            let reached = comes(from, parts, left);
            leaves(kinds, reached, *kind)?;
            add_rules(alloc, more, parts, left, kinds)
        }
        Rules::Heads(_, more) => add_rules(alloc, more, parts, left, kinds),
        Rules::Worths(_, more) => add_rules(alloc, more, parts, left, kinds),
    }
}

/// The completions that are possible by these rules, of whose parts they are known. The first part
/// comes last.
pub fn completions(alloc: Global, rules: &Rules, mut found: Vec<Kinds>) -> Result<Kinds, NoMemory>
    requires { cans found.items [] ≡ parts_can (seen_rules rules.now) }
    ensures { IfOk result (λ kinds. among kinds ≡ plain.can_by [] (seen_rules rules.now)) }
{
    let mut kinds = Kinds::new(alloc);
    let left = found.len();
    add_rules(alloc, rules, found.as_mut_slice(), left, &mut kinds)?;
    Ok(kinds)
}
