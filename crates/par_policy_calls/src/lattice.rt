// What is made of policies and of their sets, on worked examples, with ample memory.
use crate::policies::{ALICE, BOB, GOLD, PAID, Part, lists, lock_set, paid_and_gold, policy};
use par_atoms::Atoms;
use par_bits::Bits;
use par_policy::{Lockset, NoMemory, Policy, join, meet, special};
use par_worked::expect;
use std::alloc::Global;
use std::test::Fail;

const JOINS: &[(&str, &[Part], &[Part], &[Part])] = &[
    (
        "by paid, and by gold",
        &[(ALICE, &[PAID])],
        &[(ALICE, &[GOLD])],
        &[(ALICE, &[PAID, GOLD])],
    ),
    (
        "for both, and for one",
        &[(ALICE, &[]), (BOB, &[])],
        &[(ALICE, &[PAID])],
        &[(ALICE, &[PAID])],
    ),
    ("with top", &[(ALICE, &[])], &[], &[]),
];

fn join_lists(
    alloc: Global,
    one: &Policy,
    other: &Policy,
    made: &[Part],
) -> Result<bool, NoMemory> {
    let join = join(alloc, one, other)?;
    let lists = lists(alloc, join.clauses(), made);
    drop(join);
    lists
}

fn joins_with(
    alloc: Global,
    one: &Policy,
    other: &[Part],
    made: &[Part],
) -> Result<bool, NoMemory> {
    let other = policy(alloc, other)?;
    let lists = join_lists(alloc, one, &other, made);
    drop(other);
    lists
}

fn joins_to(alloc: Global, one: &[Part], other: &[Part], made: &[Part]) -> Result<bool, NoMemory> {
    let one = policy(alloc, one)?;
    let joins = joins_with(alloc, &one, other, made);
    drop(one);
    joins
}

const MEETS: &[(&str, &[Part], &[Part], &[Part])] = &[
    (
        "what is covered goes",
        &[(ALICE, &[PAID])],
        &[(ALICE, &[])],
        &[(ALICE, &[])],
    ),
    (
        "of two actors",
        &[(BOB, &[GOLD])],
        &[(ALICE, &[PAID])],
        &[(ALICE, &[PAID]), (BOB, &[GOLD])],
    ),
    ("with top", &[], &[(BOB, &[])], &[(BOB, &[])]),
];

fn meet_lists(
    alloc: Global,
    one: &Policy,
    other: &Policy,
    made: &[Part],
) -> Result<bool, NoMemory> {
    let meet = meet(alloc, one, other)?;
    let lists = lists(alloc, meet.clauses(), made);
    drop(meet);
    lists
}

fn meets_with(
    alloc: Global,
    one: &Policy,
    other: &[Part],
    made: &[Part],
) -> Result<bool, NoMemory> {
    let other = policy(alloc, other)?;
    let lists = meet_lists(alloc, one, &other, made);
    drop(other);
    lists
}

fn meets_in(alloc: Global, one: &[Part], other: &[Part], made: &[Part]) -> Result<bool, NoMemory> {
    let one = policy(alloc, one)?;
    let meets = meets_with(alloc, &one, other, made);
    drop(one);
    meets
}

const SPECIALISED: &[(&str, &[Part], &[u16], &[Part])] = &[
    (
        "paid is open",
        &[(BOB, &[PAID, GOLD])],
        &[PAID],
        &[(BOB, &[GOLD])],
    ),
    (
        "both are open",
        &[(BOB, &[PAID, GOLD]), (ALICE, &[GOLD])],
        &[GOLD, PAID],
        &[(ALICE, &[]), (BOB, &[])],
    ),
    (
        "what is covered then goes",
        &[(BOB, &[PAID]), (BOB, &[GOLD])],
        &[PAID],
        &[(BOB, &[])],
    ),
];

fn is_special(
    alloc: Global,
    whole: &[Part],
    opened: &[u16],
    made: &[Part],
) -> Result<bool, NoMemory> {
    let whole = policy(alloc, whole)?;
    let is_special = is_special_of(alloc, &whole, opened, made);
    drop(whole);
    is_special
}

fn is_special_of(
    alloc: Global,
    whole: &Policy,
    opened: &[u16],
    made: &[Part],
) -> Result<bool, NoMemory> {
    let opened = lock_set(alloc, opened)?;
    let special = special(alloc, whole, &opened);
    drop(opened);
    let special = special?;
    let lists = lists(alloc, special.clauses(), made);
    drop(special);
    lists
}

#[test]
fn joins_of_policies(rt: HostRuntime) -> Result<(), Fail> {
    for (name, one, other, made) in JOINS {
        expect(joins_to(rt.alloc(), one, other, made)?, name)?;
    }
    Ok(())
}

#[test]
fn meets_of_policies(rt: HostRuntime) -> Result<(), Fail> {
    for (name, one, other, made) in MEETS {
        expect(meets_in(rt.alloc(), one, other, made)?, name)?;
    }
    Ok(())
}

#[test]
fn specialised_policies(rt: HostRuntime) -> Result<(), Fail> {
    for (name, whole, opened, made) in SPECIALISED {
        expect(is_special(rt.alloc(), whole, opened, made)?, name)?;
    }
    Ok(())
}

// What is made of two lock sets.
#[derive(Clone, Copy)]
enum Made {
    Union,
    Minus,
    Both,
}

const LOCK_SETS: &[(&str, Made, [&[u16]; 3])] = &[
    (
        "in either",
        Made::Union,
        [&[PAID, GOLD], &[PAID, 7], &[PAID, GOLD, 7]],
    ),
    (
        "in the first alone",
        Made::Minus,
        [&[PAID, GOLD], &[PAID, 7], &[GOLD]],
    ),
    ("in both", Made::Both, [&[PAID, GOLD], &[PAID, 7], &[PAID]]),
    ("none and one", Made::Union, [&[], &[GOLD], &[GOLD]]),
    ("none without one", Made::Minus, [&[], &[GOLD], &[]]),
    ("in none and one", Made::Both, [&[], &[GOLD], &[]]),
    ("one and none", Made::Union, [&[GOLD], &[], &[GOLD]]),
    ("one without none", Made::Minus, [&[GOLD], &[], &[GOLD]]),
    ("in one and none", Made::Both, [&[GOLD], &[], &[]]),
];

fn made_of(alloc: Global, made: Made, one: &Lockset, other: &Lockset) -> Result<Lockset, NoMemory> {
    match made {
        Made::Union => one.union(alloc, other),
        Made::Minus => one.minus(alloc, other),
        Made::Both => one.both(alloc, other),
    }
}

fn is_same(alloc: Global, set: &Lockset, want: &[u16]) -> Result<bool, NoMemory> {
    let want = lock_set(alloc, want)?;
    let is_same = set.within(&want) && want.within(set);
    drop(want);
    Ok(is_same)
}

fn made_with(alloc: Global, made: Made, one: &Lockset, other: &[u16]) -> Result<Lockset, NoMemory> {
    let other = lock_set(alloc, other)?;
    let set = made_of(alloc, made, one, &other);
    drop(other);
    set
}

fn is_made_with(
    alloc: Global,
    made: Made,
    one: &Lockset,
    sets: &[&[u16]; 3],
) -> Result<bool, NoMemory> {
    let set = made_with(alloc, made, one, sets[1])?;
    let is_same = is_same(alloc, &set, sets[2]);
    drop(set);
    is_same
}

fn is_made(alloc: Global, made: Made, sets: &[&[u16]; 3]) -> Result<bool, NoMemory> {
    let one = lock_set(alloc, sets[0])?;
    let is_made = is_made_with(alloc, made, &one, sets);
    drop(one);
    is_made
}

#[test]
fn sets_of_locks(rt: HostRuntime) -> Result<(), Fail> {
    for (name, made, sets) in LOCK_SETS {
        expect(is_made(rt.alloc(), *made, sets)?, name)?;
    }
    Ok(())
}

fn atoms_of(numbers: &[u16]) -> Atoms {
    let mut set = Atoms::empty();
    for number in numbers {
        if *number < 256 {
            set = set.with(*number);
        }
    }
    set
}

#[test]
fn sets_of_policies() -> Result<(), Fail> {
    let ends = atoms_of(&[0, 255]);
    let last = atoms_of(&[255]);
    expect(ends.has(0) && ends.has(255), "both ends are there")?;
    expect(!last.has(0) && !last.has(254), "the last is alone")?;
    expect(last.within(&ends) && !ends.within(&last), "one of two")?;
    let both = atoms_of(&[0]).union(&last);
    expect(both.within(&ends) && ends.within(&both), "one and one")
}

fn locks_of(numbers: &[u32]) -> Bits<4> {
    let mut set = Bits::empty();
    for number in numbers {
        if *number < 256 {
            set = set.with(*number);
        }
    }
    set
}

// Whether these are numbers of policies in the table whose join is below `q`, where the locks are
// open.
fn join_below(numbers: &[u16], table: &[Policy], opened: &Bits<4>, q: &Policy) -> bool {
    let mut set = Atoms::empty();
    for number in numbers {
        if *number >= 256 || usize::from(*number) >= table.len() {
            return false;
        }
        set = set.with(*number);
    }
    set.leq_at(table, opened, q)
}

// What alice sees by Paid, and what she sees by Gold, beside what she sees by some locks, where
// others are open.
const BELOW: &[(&str, &[u16], &[u32], &[u16], bool)] = &[
    ("each is below both", &[0, 1], &[], &[PAID, GOLD], true),
    ("one is below gold", &[0, 1], &[], &[GOLD], false),
    ("both are, once paid is open", &[0, 1], &[0], &[GOLD], true),
    ("not with another lock", &[0, 1], &[255], &[GOLD], false),
    ("none is below gold", &[], &[], &[GOLD], true),
];

fn is_below(
    alloc: Global,
    numbers: &[u16],
    opened: &[u32],
    locks: &'static [u16],
) -> Result<bool, NoMemory> {
    let table = paid_and_gold(alloc)?;
    let is_below = is_table_below(alloc, numbers, table.as_slice(), opened, locks);
    drop(table);
    is_below
}

fn is_table_below(
    alloc: Global,
    numbers: &[u16],
    table: &[Policy],
    opened: &[u32],
    locks: &'static [u16],
) -> Result<bool, NoMemory> {
    let q = policy(alloc, &[(ALICE, locks)])?;
    let is_below = join_below(numbers, table, &locks_of(opened), &q);
    drop(q);
    Ok(is_below)
}

#[test]
fn joins_as_sets(rt: HostRuntime) -> Result<(), Fail> {
    for (name, numbers, opened, locks, below) in BELOW {
        expect(
            is_below(rt.alloc(), numbers, opened, locks)? == *below,
            name,
        )?;
    }
    Ok(())
}
