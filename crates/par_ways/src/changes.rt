// The ways at a node: one that enters it or leaves a part, and what becomes of it.
ghost use Rattle.std.specs.Prelude.{◌≡◌, ◌<◌, [], IfOk, IsTrue, length};
ghost use Rattle.std.specs.Option.{option_copied};
ghost use Rattle.par_policy.specs.Numbers.{has as is_among};
ghost use Rattle.par_bits.specs.Sets.{has, union};
ghost use Rattle.par_program_laws.specs.Lattice.{numbers};
ghost use Rattle.par_program_laws.specs.Ranges.{AreLocks, IsFromInRange, IsWorthInRange};
ghost use Rattle.par_program_laws.specs.Rules.{part_at, way as way_from, worth as worth_of};
ghost use Rattle.par_program_laws.specs.Ways.{assigned as written};
ghost use Rattle.par_nodes.specs.Seen.{seen_origin, seen_start, seen_worth};
ghost use Rattle.par_nodes.specs.declared.rule.Locks.TheVariants.{Kept};
ghost use Rattle.par_pass_laws.specs.par_except.Seen.{locals, may_see, seen};
ghost use Rattle.par_pass_laws.specs.par_except.Seen.{MayHaveLocals};
ghost use Rattle.par_ways.specs.Seen.{latest_first, AreFactsWide};
ghost use Rattle.par_ways.specs.Changes.{assigned_by, tested_by, raised_by, shut_by, opened_by};
ghost use Rattle.par_ways.specs.Changes.{seen_locks, may_have, HaveRange, HasLocal, HasPolicy};

use crate::env;
use crate::fact::{Fact, exit_of, value_of};
use crate::way::SharedWay;
use par_atoms::Atoms;
use par_base::memory::NoMemory;
use par_bits::Bits;
use par_nodes::rule::{Locks, Origin, Start, Worth};
use par_pass_laws::par_except::Way;
use par_policy::Lockset;
use std::alloc::Global;

pub(crate) fn all_locks(set: &Lockset) -> Bits<4>
    requires { AreLocks (is_among set.now) }
    ensures { has result ≡ is_among set.now }
{
    let mut bits = Bits::empty();
    for lock in set.as_slice() {
        bits = bits.with(u32::from(*lock));
    }
    bits
}

fn bits_of(locks: Locks) -> Option<Bits<4>>
    requires { HaveRange (seen_locks locks) }
    ensures { may_have result ≡ seen_locks locks.entry }
{
    match locks {
        Locks::Kept => None,
        Locks::Nothing => Some(Bits::empty()),
        Locks::One(lock) => Some(Bits::empty().with(u32::from(lock))),
        Locks::All(set) => Some(all_locks(set)),
    }
}

fn start_of<'a>(way: &'a SharedWay, parts: &'a [Fact], start: Start) -> Option<&'a SharedWay>
    ensures way { may_see (option_copied result)
        ≡ way_from numbers (Some (seen way.now)) (latest_first parts.now []) (seen_start start) }
    ensures locals { AreFactsWide (length way.now.env) parts.now
        → MayHaveLocals (length way.now.env) (option_copied result) }
{
    match start {
        Start::Entry => Some(way),
        Start::After(part, kind) => exit_of(parts, part, kind),
    }
}

// Whether the local has exactly these policies.
fn is_held(way: &SharedWay, local: u16, policy: &Atoms) -> bool
    requires { local < length way.now.env }
    ensures { IsTrue result → locals way.now.env local ≡ has policy.now }
{
    let held = way.env()[usize::from(local)];
    held.within(policy) && policy.within(&held)
}

// The way behind a write of the local, which has the same list where that changes nothing.
#[inline(never)]
fn set_local(
    alloc: Global,
    way: &SharedWay,
    parts: &[Fact],
    local: u16,
    part: usize,
) -> Result<SharedWay, NoMemory>
    requires { local < length way.now.env }
    ensures way { IfOk result (λ w. seen w ≡ written numbers local
        (part_at numbers (latest_first parts.now []) part).value (seen way.now)) }
    ensures locals { IfOk result (λ w. length w.env ≡ length way.now.env) }
{
    let policy = value_of(parts, part).union(&way.context());
    if is_held(way, local, &policy) {
        return way.share();
    }
    let env = env::with_local(alloc, way.env(), local, policy)?;
    let assigned = Way {
        context: way.context(),
        env,
        locks: way.locks(),
    };
    SharedWay::new(alloc, assigned)
}

// The way behind the assignment, if there is one.
fn assigned(
    alloc: Global,
    way: &SharedWay,
    parts: &[Fact],
    change: Option<(u16, usize)>,
) -> Result<SharedWay, NoMemory>
    requires { HasLocal (length way.now.env) change }
    ensures way { IfOk result
        (λ w. seen w ≡ assigned_by change (latest_first parts.now []) (seen way.now)) }
    ensures locals { IfOk result (λ w. length w.env ≡ length way.now.env) }
{
    match change {
        None => way.share(),
        Some((local, part)) => set_local(alloc, way, parts, local, part),
    }
}

fn test(way: &mut SharedWay, parts: &[Fact], part: Option<usize>)
    ensures way { seen way.new ≡ tested_by part (latest_first parts.now []) (seen way.old) }
    ensures locals { length way.new.env ≡ length way.old.env }
{
    if let Some(part) = part {
        way.raise(&value_of(parts, part));
    }
}

fn raise(way: &mut SharedWay, policy: Option<u16>)
    requires { HasPolicy policy }
    ensures way { seen way.new ≡ raised_by policy (seen way.old) }
    ensures locals { length way.new.env ≡ length way.old.env }
{
    if let Some(policy) = policy {
        way.raise(&Atoms::empty().with(policy));
    }
}

fn shut(way: &mut SharedWay, locks: Locks)
    requires { HaveRange (seen_locks locks) }
    ensures way { seen way.new ≡ shut_by (seen_locks locks.entry) (seen way.old) }
    ensures locals { length way.new.env ≡ length way.old.env }
{
    if let Some(bits) = bits_of(locks) {
        way.set_locks(way.locks().minus(&bits));
    }
}

fn open(way: &mut SharedWay, locks: Locks)
    requires { HaveRange (seen_locks locks) }
    ensures way { seen way.new ≡ opened_by (seen_locks locks.entry) (seen way.old) }
    ensures locals { length way.new.env ≡ length way.old.env }
{
    if let Some(bits) = bits_of(locks) {
        way.set_locks(way.locks().union(&bits));
    }
}

// The way that starts there, step by step.
#[inline(never)]
fn changed(
    alloc: Global,
    start: &SharedWay,
    parts: &[Fact],
    from: &Origin,
) -> Result<SharedWay, NoMemory>
    requires { IsFromInRange (length start.now.env) (seen_origin from.now) }
    ensures way { IfOk result (λ w. seen w ≡ opened_by (seen_locks from.now.opened)
        (shut_by (seen_locks from.now.shut) (raised_by from.now.raised
        (tested_by from.now.tested (latest_first parts.now [])
        (assigned_by from.now.assigned (latest_first parts.now []) (seen start.now)))))) }
    ensures locals { IfOk result (λ w. length w.env ≡ length start.now.env) }
{
    let mut way = assigned(alloc, start, parts, from.assigned)?;
    test(&mut way, parts, from.tested);
    raise(&mut way, from.raised);
    shut(&mut way, from.shut);
    open(&mut way, from.opened);
    Ok(way)
}

fn is_kept(locks: Locks) -> bool
    ensures { IsTrue result → locks.entry ≡ Kept }
{
    match locks {
        Locks::Kept => true,
        Locks::Nothing | Locks::One(_) | Locks::All(_) => false,
    }
}

// Whether a way stays as it starts, as most ways do.
fn is_plain(from: &Origin) -> bool
    ensures { IsTrue result → seen_origin from.now ≡ seen_start from.now.start }
{
    match from.assigned {
        Some(_) => false,
        None => match from.tested {
            Some(_) => false,
            None => match from.raised {
                Some(_) => false,
                None => is_kept(from.shut) && is_kept(from.opened),
            },
        },
    }
}

/// The way at a node that this way enters, behind these parts.
pub fn way_at(
    alloc: Global,
    way: &SharedWay,
    parts: &[Fact],
    from: &Origin,
) -> Result<Option<SharedWay>, NoMemory>
    requires locals { AreFactsWide (length way.now.env) parts.now }
    requires range { IsFromInRange (length way.now.env) (seen_origin from.now) }
    ensures way { IfOk result (λ o. may_see o ≡ way_from numbers (Some (seen way.now))
        (latest_first parts.now []) (seen_origin from.now)) }
    ensures locals { IfOk result (λ o. MayHaveLocals (length way.now.env) o) }
{
    match start_of(way, parts, from.start) {
        None => Ok(None),
        Some(start) => {
            if is_plain(from) {
                return Ok(Some(start.share()?));
            }
            Ok(Some(changed(alloc, start, parts, from)?))
        }
    }
}

/// A part of the value of a node that this way enters, behind these parts.
pub fn worth_at(way: &SharedWay, parts: &[Fact], worth: Worth) -> Atoms
    requires { IsWorthInRange (length way.now.env) (seen_worth worth) }
    ensures { has result
        ≡ worth_of numbers (Some (seen way.now)) (latest_first parts.now []) (seen_worth worth) }
{
    match worth {
        Worth::Given(policy) => Atoms::empty().with(policy),
        Worth::Held(local) => way.env()[usize::from(local)],
        Worth::Value(part) => value_of(parts, part),
    }
}
