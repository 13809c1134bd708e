//! Sets of locks, whichever way they are kept.

ghost use Rattle.std.specs.Prelude.{◌≡◌, ◌↔◌, IsTrue};
ghost use Rattle.std.specs.List.{list_all};
ghost use Rattle.par_bits.specs.Sets.{has, IsWithin};
ghost use Rattle.par_asked.specs.Seen.{seen_locks};

use par_asked::check::Locks;
use par_bits::Bits;

const LOCKS: u16 = 256;

// Whether the lock is open. One with a greater number is shut.
#[tactic(auto, using(par_atoms::proofs::Listed::members_iff))]
fn is_open(opened: &Bits<4>, lock: u16) -> bool
    ensures { result ≡ has opened.now lock }
{
    opened.members_are_below();
    lock < LOCKS && opened.has(u32::from(lock))
}

// Whether all locks of a list are open.
fn all_open(locks: &[u16], opened: &Bits<4>) -> bool
    ensures { result ≡ list_all (λ lock. has opened.now lock) locks.now }
{
    locks.iter().all(|lock| is_open(opened, *lock))
}

/// Whether each of these locks is open.
#[tactic(auto, using(crate::proofs::LockSets::within))]
pub(crate) fn are_open(locks: Locks<'_>, opened: &Bits<4>) -> bool
    ensures { IsTrue result ↔ IsWithin (seen_locks locks.entry) (has opened.now) }
{
    match locks {
        Locks::Nothing => true,
        Locks::One(lock) => is_open(opened, lock),
        Locks::All(set) => all_open(set.as_slice(), opened),
    }
}

// Whether the lock is one of these.
fn is_among(locks: Locks<'_>, lock: u16) -> bool
    ensures { result ≡ seen_locks locks.entry lock }
{
    match locks {
        Locks::Nothing => false,
        Locks::One(held) => lock == held,
        Locks::All(set) => set.has(lock),
    }
}

// Whether all locks of a list are among those.
fn all_among(locks: &[u16], those: Locks<'_>) -> bool
    ensures { result ≡ list_all (λ lock. seen_locks those.entry lock) locks.now }
{
    locks.iter().all(|lock| is_among(those, *lock))
}

/// Whether each of these locks is among those.
#[tactic(auto, using(crate::proofs::LockSets::within))]
pub(crate) fn are_among(locks: Locks<'_>, those: Locks<'_>) -> bool
    ensures { IsTrue result ↔ IsWithin (seen_locks locks.entry) (seen_locks those.entry) }
{
    match locks {
        Locks::Nothing => true,
        Locks::One(lock) => is_among(those, lock),
        Locks::All(set) => all_among(set.as_slice(), those),
    }
}
