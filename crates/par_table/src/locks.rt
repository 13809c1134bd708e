//! The ground locks of a program, by their numbers.

ghost use Rattle.std.specs.Prelude.{◌≡◌, ◌<◌, ◌≤◌, ◌^◌, ◌++◌, [], ◌∷◌, map, flat_map, sum_by};
ghost use Rattle.std.specs.Prelude.{length, IfOk, OnOk, Some, None, true, if◌then◌else◌};
ghost use Rattle.std.specs.List.{range_with_len};
ghost use Rattle.par_tree.specs.Shown.{source};
ghost use Rattle.par_names.specs.Declarations as names;
ghost use Rattle.par_resolved.specs.declared.limits.TheConstants.{MOST_ACTORS};
ghost use Rattle.par_resolved.specs.declared.limits.TheConstants.{MOST_GROUND_LOCKS};
ghost use Rattle.par_resolved.specs.Sets.{set_of};
ghost use Rattle.par_resolved.specs.Seen.{seen};
ghost use Rattle.par_parts.specs.Gathered.{all_of};
ghost use Rattle.par_resolved.specs.Numbers.{lock_number, ground_count, choices};
ghost use Rattle.par_resolved.specs.Numbers.{place_in_family};
ghost use Rattle.par_resolved.specs.Resolved.{lock_policy, family, ground_locks_from};
ghost use Rattle.par_resolved.specs.Resolved.{ground_locks};
ghost use Rattle.par_table.specs.Parts.{lock_with, made_lock};
ghost use Rattle.par_table.specs.Seen.{resolved_seen};

use crate::resolved::Resolved;
use par_lexer::list::List;
use par_names::locks;
use par_parts::queried::queried;
use par_policy::Lockset;
use par_resolved::NoMemory;
use par_resolved::known::top;
use par_resolved::numbers::Numbers;
use par_tree::decl::{LockDecl, Program};
use par_tree::policy::{LockTree, PolicyExpr};
use par_typed::table::GroundLock;
use std::alloc::Global;

// The numbers of these locks.
fn lock_set(alloc: Global, numbers: &Numbers<'_>, locks: &[&LockTree]) -> Result<Lockset, NoMemory>
    ensures { IfOk result (λ set.
        set ≡ set_of (map (lock_number (seen numbers.now)) (all_of locks.now))) }
{
    let mut set = Lockset::new(alloc);
    for lock in locks {
        set.insert(numbers.lock(lock))?;
    }
    Ok(set)
}

// ---- the choices of actors

fn choice(alloc: Global, actors: &[u8]) -> Result<List<u8>, NoMemory>
    ensures { IfOk result (λ choice. choice ≡ actors.now) }
{
    Ok(List::wrap(actors.to_vec(alloc)?))
}

fn no_choice(alloc: Global) -> Result<List<List<u8>>, NoMemory>
    ensures { IfOk result (λ found. found ≡ [] ∷ []) }
{
    let mut found = List::new(alloc);
    found.push(choice(alloc, &[])?)?;
    Ok(found)
}

fn choices_of_one(alloc: Global, actors: u8) -> Result<List<List<u8>>, NoMemory>
    ensures { IfOk result (λ found. found ≡ map (λ one. one ∷ []) (range_with_len 0 actors)) }
{
    let mut found = List::new(alloc);
    for one in 0..actors {
        found.push(choice(alloc, &[one])?)?;
    }
    Ok(found)
}

fn push_pairs(
    alloc: Global,
    found: &mut List<List<u8>>,
    one: u8,
    actors: u8,
) -> Result<(), NoMemory>
    ensures { OnOk result (found.new
        ≡ found.old ++ map (λ other. one ∷ other ∷ []) (range_with_len 0 actors)) }
{
    for other in 0..actors {
        found.push(choice(alloc, &[one, other])?)?;
    }
    Ok(())
}

fn choices_of_two(alloc: Global, actors: u8) -> Result<List<List<u8>>, NoMemory>
    ensures { IfOk result (λ found. found
        ≡ flat_map (λ one. map (λ other. one ∷ other ∷ []) (range_with_len 0 actors))
        (range_with_len 0 actors)) }
{
    let mut found = List::new(alloc);
    for one in 0..actors {
        push_pairs(alloc, &mut found, one, actors)?;
    }
    Ok(found)
}

// The actors that choose the locks of a family, in the order of its locks.
fn choices(alloc: Global, actors: u8, arity: u8) -> Result<List<List<u8>>, NoMemory>
    ensures { IfOk result (λ found. found ≡ choices actors arity) }
{
    match arity {
        0 => no_choice(alloc),
        1 => choices_of_one(alloc, actors),
        _ => choices_of_two(alloc, actors),
    }
}

// The place of the lock that these choose, where there are so many actors.
fn place_in_family(count: u8, actors: &[u8]) -> u16
    requires { count ≤ MOST_ACTORS }
    ensures place { result ≡ place_in_family count actors.now }
    ensures small { result < 2 ^ 13 }
{
    match actors {
        [] => 0,
        [one] => u16::from(*one),
        [one, other, ..] => u16::from(*one) * u16::from(count) + u16::from(*other),
    }
}

// ---- locks

// The number of the policy of locks that have one: the written one, or `top`.
#[tactic(auto, unfolding(par_resolved::specs::Resolved::lock_policy))]
fn policy_number(
    alloc: Global,
    resolved: &Resolved<'_>,
    policy: &Option<PolicyExpr>,
) -> Result<u16, NoMemory>
    ensures { IfOk result (λ n.
        lock_policy (resolved_seen resolved.now) true policy.now ≡ Some n) }
{
    match policy {
        None => Ok(resolved.number_of(&top(alloc)?)),
        Some(e) => resolved.expression_number(alloc, e),
    }
}

fn policy_if(has_policy: bool, policy: u16) -> Option<u16>
    ensures { result ≡ (if has_policy then Some policy else None) }
{
    if has_policy { Some(policy) } else { None }
}

fn ground_lock(
    alloc: Global,
    decl: &LockDecl,
    actors: &[u8],
    policy: u16,
    is_queried: bool,
) -> Result<GroundLock, NoMemory>
    ensures { IfOk result (λ lock. lock ≡ lock_with policy is_queried decl.now actors.now) }
{
    let has_policy = decl.policy.is_some() || is_queried;
    Ok(GroundLock {
        name: decl.id.name.copy(alloc)?,
        actors: choice(alloc, actors)?,
        policy: policy_if(has_policy, policy),
    })
}

// A declaration of locks with its number of the first, and the policy of those that have one.
#[derive(Clone, Copy)]
struct Family<'a> {
    decl: &'a LockDecl,
    first: u16,
    policy: u16,
}

// The lock of a family that these actors choose, of so many.
fn chosen_lock(
    alloc: Global,
    family: &Family<'_>,
    queries: &Lockset,
    count: u8,
    actors: &[u8],
) -> Result<GroundLock, NoMemory>
    requires few { count ≤ MOST_ACTORS }
    requires first { family.now.first ≤ MOST_GROUND_LOCKS }
    ensures { IfOk result (λ lock. lock ≡ made_lock family.now.policy queries.now count
        family.now.first family.now.decl.now actors.now) }
{
    let number = family.first + place_in_family(count, actors);
    ground_lock(
        alloc,
        family.decl,
        actors,
        family.policy,
        queries.has(number),
    )
}

fn push_chosen(
    alloc: Global,
    found: &mut List<GroundLock>,
    family: &Family<'_>,
    queries: &Lockset,
    count: u8,
    choices: &[List<u8>],
) -> Result<(), NoMemory>
    requires few { count ≤ MOST_ACTORS }
    requires first { family.now.first ≤ MOST_GROUND_LOCKS }
    ensures { OnOk result (found.new ≡ found.old
        ++ map (made_lock family.now.policy queries.now count family.now.first
        family.now.decl.now) choices.now) }
{
    for actors in choices {
        found.push(chosen_lock(alloc, family, queries, count, actors.as_slice())?)?;
    }
    Ok(())
}

// Pushes the locks of a declaration, which have numbers from the first one on.
fn push_family(
    alloc: Global,
    found: &mut List<GroundLock>,
    resolved: &Resolved<'_>,
    queries: &Lockset,
    decl: &LockDecl,
    first: u16,
) -> Result<(), NoMemory>
    requires { first ≤ MOST_GROUND_LOCKS }
    ensures { OnOk result (found.new
        ≡ found.old ++ family (resolved_seen resolved.now) queries.now decl.now first) }
{
    let count = resolved.known.numbers.actor_count();
    let policy = policy_number(alloc, resolved, &decl.policy)?;
    let choices = choices(alloc, count, decl.arity)?;
    let family = Family {
        decl,
        first,
        policy,
    };
    push_chosen(alloc, found, &family, queries, count, choices.as_slice())
}

// How many ground locks a declaration has.
fn ground_count(actors: u8, decl: &LockDecl) -> u16
    requires { ground_count actors decl.now ≤ MOST_GROUND_LOCKS }
    ensures { result ≡ ground_count actors decl.now }
{
    u16::from(actors).pow(u32::from(decl.arity))
}

// The locks of these declarations, where these numbers are asked for.
fn families(
    alloc: Global,
    resolved: &Resolved<'_>,
    queries: &Lockset,
    decls: &[&LockDecl],
) -> Result<List<GroundLock>, NoMemory>
    requires { sum_by (ground_count (length (resolved_seen resolved.now).known.numbers.actors))
        (all_of decls.now) ≤ MOST_GROUND_LOCKS }
    ensures { IfOk result (λ found. found
        ≡ ground_locks_from (resolved_seen resolved.now) queries.now 0 (all_of decls.now)) }
{
    let count = resolved.known.numbers.actor_count();
    let mut found = List::new(alloc);
    let mut first = 0;
    for decl in decls {
        push_family(alloc, &mut found, resolved, queries, decl, first)?;
        first += ground_count(count, decl);
    }
    Ok(found)
}

/// The ground locks of a program.
pub fn ground_locks(
    alloc: Global,
    resolved: &Resolved<'_>,
    program: &Program,
) -> Result<List<GroundLock>, NoMemory>
    requires { sum_by (ground_count (length (resolved_seen resolved.now).known.numbers.actors))
        (names.locks (source program.now)) ≤ MOST_GROUND_LOCKS }
    ensures { IfOk result (λ found.
        found ≡ ground_locks (resolved_seen resolved.now) (source program.now)) }
{
    let decls = locks(alloc, program)?;
    let asked = queried(alloc, program)?;
    let queries = lock_set(alloc, &resolved.known.numbers, asked.as_slice())?;
    families(alloc, resolved, &queries, decls.as_slice())
}
