// The order on worked policies over two actors and two locks, with ample memory.
use par_policy::{Clause, Lockset, NoMemory, Policy, PolicySet, clause_leq, leq, leq_at, sees};
use par_worked::expect;
use std::alloc::Global;
use std::test::Fail;

pub const ALICE: u8 = 0;

pub const BOB: u8 = 1;

pub const PAID: u16 = 0;

pub const GOLD: u16 = 1;

// An actor, and the locks that it needs.
pub type Part = (u8, &'static [u16]);

pub fn lock_set(alloc: Global, locks: &[u16]) -> Result<Lockset, NoMemory> {
    let mut set = Lockset::new(alloc);
    for lock in locks {
        set.insert(*lock)?;
    }
    Ok(set)
}

fn clause(alloc: Global, part: &Part) -> Result<Clause, NoMemory> {
    Ok(Clause {
        actor: part.0,
        locks: lock_set(alloc, part.1)?,
    })
}

fn put_clauses(alloc: Global, clauses: &mut Vec<Clause>, parts: &[Part]) -> Result<(), NoMemory> {
    for part in parts {
        clauses.push(clause(alloc, part)?)?;
    }
    Ok(())
}

pub fn policy(alloc: Global, parts: &[Part]) -> Result<Policy, NoMemory> {
    let mut clauses = Vec::new(alloc);
    put_clauses(alloc, &mut clauses, parts)?;
    let policy = Policy::of(alloc, clauses.as_slice());
    drop(clauses);
    policy
}

const LOCK_SETS: &[LockSets] = &[
    ("none is within each", &[], &[GOLD], true),
    ("gold is within both", &[GOLD], &[GOLD, PAID, GOLD], true),
    (
        "both are not within gold",
        &[GOLD, PAID, GOLD],
        &[GOLD],
        false,
    ),
    (
        "what repeats is once",
        &[GOLD, PAID, GOLD],
        &[PAID, GOLD],
        true,
    ),
    ("in any order", &[PAID, GOLD], &[GOLD, PAID, GOLD], true),
];

fn is_copy_within(one: &Lockset, other: &Lockset) -> Result<bool, NoMemory> {
    let copy = one.clone()?;
    let is_within = copy.within(other) && one.within(&copy);
    drop(copy);
    Ok(is_within)
}

fn is_set_of_locks_within(alloc: Global, one: &Lockset, other: &[u16]) -> Result<bool, NoMemory> {
    let other = lock_set(alloc, other)?;
    let is_within = is_copy_within(one, &other);
    drop(other);
    is_within
}

// Whether a copy of the one is within the other.
fn is_within(alloc: Global, one: &[u16], other: &[u16]) -> Result<bool, NoMemory> {
    let one = lock_set(alloc, one)?;
    let is_within = is_set_of_locks_within(alloc, &one, other);
    drop(one);
    is_within
}

type LockSets = (&'static str, &'static [u16], &'static [u16], bool);

fn check_lock_sets(alloc: Global, rows: &[LockSets]) -> Result<(), Fail> {
    for (name, one, other, within) in rows {
        expect(is_within(alloc, one, other)? == *within, name)?;
    }
    Ok(())
}

fn has_gold_alone(alloc: Global) -> Result<bool, NoMemory> {
    let gold = lock_set(alloc, &[GOLD])?;
    let has_gold = gold.has(GOLD) && !gold.has(PAID);
    drop(gold);
    Ok(has_gold)
}

#[test]
pub fn lock_sets(rt: HostRuntime) -> Result<(), Fail> {
    check_lock_sets(rt.alloc(), LOCK_SETS)?;
    expect(has_gold_alone(rt.alloc())?, "gold has gold alone")
}

const ORDER: &[(&str, &[Part], &[Part], bool)] = &[
    ("free, paid", &[(ALICE, &[])], &[(ALICE, &[PAID])], true),
    ("paid, free", &[(ALICE, &[PAID])], &[(ALICE, &[])], false),
    ("free, top", &[(ALICE, &[])], &[], true),
    ("paid, top", &[(ALICE, &[PAID])], &[], true),
    ("top, top", &[], &[], true),
    (
        "gold, both",
        &[(BOB, &[GOLD])],
        &[(BOB, &[PAID, GOLD])],
        true,
    ),
];

fn is_below_this(alloc: Global, one: &[Part], other: &Policy) -> Result<bool, NoMemory> {
    let one = policy(alloc, one)?;
    let is_below = leq(&one, other);
    drop(one);
    Ok(is_below)
}

fn is_below(alloc: Global, one: &[Part], other: &[Part]) -> Result<bool, NoMemory> {
    let other = policy(alloc, other)?;
    let is_below = is_below_this(alloc, one, &other);
    drop(other);
    is_below
}

const CLAUSES: &[(&str, Part, Part, bool)] = &[
    ("fewer locks", (ALICE, &[]), (ALICE, &[GOLD]), true),
    ("more locks", (ALICE, &[GOLD]), (ALICE, &[]), false),
    ("another actor", (ALICE, &[]), (BOB, &[GOLD]), false),
];

fn copy_of(alloc: Global, part: &Part) -> Result<Clause, NoMemory> {
    let clause = clause(alloc, part)?;
    let copy: Result<_, _> = clause.clone();
    drop(clause);
    Ok(copy?)
}

fn is_copy_below(alloc: Global, one: &Part, other: &Clause) -> Result<bool, NoMemory> {
    let one = copy_of(alloc, one)?;
    let is_below = clause_leq(&one, other);
    drop(one);
    Ok(is_below)
}

// Whether a copy of the one is below the other.
fn is_clause_below(alloc: Global, one: &Part, other: &Part) -> Result<bool, NoMemory> {
    let other = clause(alloc, other)?;
    let is_below = is_copy_below(alloc, one, &other);
    drop(other);
    is_below
}

fn check_order(
    alloc: Global,
    rows: &[(&'static str, &'static [Part], &'static [Part], bool)],
) -> Result<(), Fail> {
    for (name, one, other, below) in rows {
        expect(is_below(alloc, one, other)? == *below, name)?;
    }
    Ok(())
}

fn check_clauses(alloc: Global, rows: &[(&'static str, Part, Part, bool)]) -> Result<(), Fail> {
    for (name, one, other, below) in rows {
        expect(is_clause_below(alloc, one, other)? == *below, name)?;
    }
    Ok(())
}

#[test]
fn order(rt: HostRuntime) -> Result<(), Fail> {
    check_order(rt.alloc(), ORDER)?;
    check_clauses(rt.alloc(), CLAUSES)
}

const OPEN: &[(&str, &[u16], bool)] = &[
    ("paid is open", &[PAID], true),
    ("none is open", &[], false),
];

fn is_both_below(alloc: Global, open: &Lockset, gold: &Policy) -> Result<bool, NoMemory> {
    let both = policy(alloc, &[(BOB, &[PAID, GOLD])])?;
    let is_below = leq_at(&both, open, gold);
    drop(both);
    Ok(is_below)
}

fn is_gold_above(alloc: Global, open: &Lockset) -> Result<bool, NoMemory> {
    let gold = policy(alloc, &[(BOB, &[GOLD])])?;
    let is_above = is_both_below(alloc, open, &gold);
    drop(gold);
    is_above
}

// Whether what bob sees by both locks is below what he sees by gold, where these are open.
fn is_below_at(alloc: Global, open: &[u16]) -> Result<bool, NoMemory> {
    let open = lock_set(alloc, open)?;
    let is_below = is_gold_above(alloc, &open);
    drop(open);
    is_below
}

#[test]
fn specialised(rt: HostRuntime) -> Result<(), Fail> {
    for (name, open, below) in OPEN {
        expect(is_below_at(rt.alloc(), open)? == *below, name)?;
    }
    Ok(())
}

const OBSERVERS: &[(&str, u8, &[u16], bool)] = &[
    ("bob, with none open", BOB, &[], false),
    ("bob, with Paid open", BOB, &[PAID], true),
    ("alice, with none open", ALICE, &[], true),
    ("another actor", 2, &[PAID], false),
];

fn is_seen(alloc: Global, actor: u8, open: &[u16]) -> Result<bool, NoMemory> {
    let open = lock_set(alloc, open)?;
    let is_seen = is_seen_with(alloc, actor, &open);
    drop(open);
    is_seen
}

fn is_seen_with(alloc: Global, actor: u8, open: &Lockset) -> Result<bool, NoMemory> {
    let policy = policy(alloc, &[(ALICE, &[]), (BOB, &[PAID])])?;
    let is_seen = sees(&policy, actor, open);
    drop(policy);
    Ok(is_seen)
}

#[test]
fn seen(rt: HostRuntime) -> Result<(), Fail> {
    for (name, actor, open, seen) in OBSERVERS {
        expect(is_seen(rt.alloc(), *actor, open)? == *seen, name)?;
    }
    Ok(())
}

const GIVEN: &[Part] = &[
    (BOB, &[GOLD]),
    (BOB, &[PAID]),
    (ALICE, &[PAID]),
    (BOB, &[PAID, GOLD]),
    (ALICE, &[]),
    (BOB, &[PAID]),
];

const NORMAL: &[Part] = &[(ALICE, &[]), (BOB, &[PAID]), (BOB, &[GOLD])];

fn is_part(alloc: Global, clause: &Clause, part: &Part) -> Result<bool, NoMemory> {
    let locks = lock_set(alloc, part.1)?;
    let same = clause.locks.within(&locks) && locks.within(&clause.locks);
    drop(locks);
    Ok(clause.actor == part.0 && same)
}

// Whether the clauses are exactly these, in this order.
pub fn lists(alloc: Global, clauses: &[Clause], want: &[Part]) -> Result<bool, NoMemory> {
    for (clause, part) in clauses.iter().zip(want) {
        if !is_part(alloc, clause, part)? {
            return Ok(false);
        }
    }
    Ok(clauses.len() == want.len())
}

fn copy_of_given(alloc: Global) -> Result<Policy, NoMemory> {
    let given = policy(alloc, GIVEN)?;
    let copy: Result<_, _> = given.clone();
    drop(given);
    Ok(copy?)
}

fn is_normal(alloc: Global) -> Result<bool, NoMemory> {
    let copy = copy_of_given(alloc)?;
    let is_normal = lists(alloc, copy.clauses(), NORMAL);
    drop(copy);
    is_normal
}

#[test]
fn normal_form(rt: HostRuntime) -> Result<(), Fail> {
    expect(is_normal(rt.alloc())?, "least clauses, in order")
}

const SETS: &[(&str, &[u16], &[u16], bool)] = &[
    ("none is within one", &[], &[1], true),
    ("one is within two", &[1], &[0, 1], true),
    ("two are not within one", &[0, 1], &[1], false),
    ("two are within themselves", &[0, 1], &[0, 1], true),
];

fn of_one(alloc: Global, number: u16) -> Result<PolicySet, NoMemory> {
    let mut one = PolicySet::new(alloc);
    one.add(number)?;
    Ok(one)
}

fn add_one(alloc: Global, set: &mut PolicySet, number: u16) -> Result<(), NoMemory> {
    let one = of_one(alloc, number)?;
    let added = set.add_all(&one);
    drop(one);
    added?;
    Ok(())
}

fn add_each(alloc: Global, set: &mut PolicySet, numbers: &[u16]) -> Result<(), NoMemory> {
    for number in numbers {
        add_one(alloc, set, *number)?;
    }
    Ok(())
}

// The set of these numbers, added set by set.
fn set_of(alloc: Global, numbers: &[u16]) -> Result<PolicySet, NoMemory> {
    let mut set = PolicySet::new(alloc);
    add_each(alloc, &mut set, numbers)?;
    Ok(set)
}

fn is_copy_of_set_within(one: &PolicySet, other: &PolicySet) -> Result<bool, NoMemory> {
    let copy = one.clone()?;
    let is_within = copy.within(other) && one.within(&copy);
    drop(copy);
    Ok(is_within)
}

fn is_within_set_of(alloc: Global, one: &PolicySet, other: &[u16]) -> Result<bool, NoMemory> {
    let other = set_of(alloc, other)?;
    let is_within = is_copy_of_set_within(one, &other);
    drop(other);
    is_within
}

// Whether a copy of the one is within the other.
fn is_set_within(alloc: Global, one: &[u16], other: &[u16]) -> Result<bool, NoMemory> {
    let one = set_of(alloc, one)?;
    let is_within = is_within_set_of(alloc, &one, other);
    drop(one);
    is_within
}

#[test]
fn policy_sets(rt: HostRuntime) -> Result<(), Fail> {
    for (name, one, other, within) in SETS {
        expect(is_set_within(rt.alloc(), one, other)? == *within, name)?;
    }
    Ok(())
}

// Puts what alice sees by these locks behind a table.
fn put(table: &mut Vec<Policy>, alloc: Global, locks: &'static [u16]) -> Result<(), NoMemory> {
    let policy = policy(alloc, &[(ALICE, locks)])?;
    table.push(policy)?;
    Ok(())
}

pub fn paid_and_gold(alloc: Global) -> Result<Vec<Policy>, NoMemory> {
    let mut table = Vec::new(alloc);
    put_both(&mut table, alloc)?;
    Ok(table)
}

fn put_both(table: &mut Vec<Policy>, alloc: Global) -> Result<(), NoMemory> {
    put(table, alloc, &[PAID])?;
    put(table, alloc, &[GOLD])
}

// Whether these are numbers of policies in the table whose join is below `q`.
fn join_below(
    alloc: Global,
    numbers: &[u16],
    table: &[Policy],
    q: &Policy,
) -> Result<bool, NoMemory> {
    let mut set = PolicySet::new(alloc);
    for number in numbers {
        if usize::from(*number) >= table.len() {
            return Ok(false);
        }
        set.add(*number)?;
    }
    Ok(set.below(table, &Lockset::new(alloc), q))
}

// What alice sees by Paid, and what she sees by Gold, beside what she sees by some locks.
const JOINS: &[(&str, &[u16], &[u16], bool)] = &[
    ("each is below both", &[0, 1], &[PAID, GOLD], true),
    ("one is below gold", &[0, 1], &[GOLD], false),
    ("none is below gold", &[], &[GOLD], true),
];

fn join_holds(alloc: Global, numbers: &[u16], locks: &'static [u16]) -> Result<bool, NoMemory> {
    let table = paid_and_gold(alloc)?;
    let holds = join_of_table_holds(alloc, numbers, table.as_slice(), locks);
    drop(table);
    holds
}

fn join_of_table_holds(
    alloc: Global,
    numbers: &[u16],
    table: &[Policy],
    locks: &'static [u16],
) -> Result<bool, NoMemory> {
    let q = policy(alloc, &[(ALICE, locks)])?;
    let holds = join_below(alloc, numbers, table, &q);
    drop(q);
    holds
}

#[test]
fn joins(rt: HostRuntime) -> Result<(), Fail> {
    for (name, numbers, locks, below) in JOINS {
        expect(join_holds(rt.alloc(), numbers, locks)? == *below, name)?;
    }
    Ok(())
}
