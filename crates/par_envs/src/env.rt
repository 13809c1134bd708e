// The policies of locals, and which locals have the same.
ghost use Rattle.std.specs.Prelude.{◌≡◌, ◌≢◌, ◌<◌, ℕ, IsTrue, IfOk, IfSome, OnOk};
ghost use Rattle.std.specs.Prelude.{MatchOption};
ghost use Rattle.par_envs.specs.Same.{policy, AreSame};
ghost use Rattle.par_envs.specs.Told.{told, IsFree, StandsAt, MayTell};

use crate::apart::{difference as difference_of, is_same};
use par_atoms::Atoms;
use par_base::list::List;
use par_base::memory::NoMemory;
use par_bits::Bits;
use std::alloc::Global;
use std::marker::Model;

/// None are told where more different ones than this come before the last local.
const MOST_HELD: usize = 8;

/// Locals are told if they are no more than this.
const MOST_LOCALS: usize = 256;

/// Some policies, and locals that have them.
#[derive(Clone, Copy)]
struct Held {
    policy: Atoms,
    locals: Bits<4>,
}

/// The policies of locals. Where few are different, it is also kept which locals have each, so that
/// two that are the same are found to be so without a look at each local. Contracts see the
/// policies alone.
#[derive(Drop)]
pub struct Env {
    policies: List<Atoms>,
    held: Option<List<Held>>,
}

impl Model for Env {
    ghost use Rattle.std.specs.Prelude.{ℕ, List as Items};
    ghost use Rattle.par_envs.specs.Told.{MayTell};

    ghost Value = { Items ℕ };

    ghost view = { λ e. e.policies };

    ghost invariant = { λ e. MayTell e.policies e.held };
}

fn place_of(held: &[Held], policy: &Atoms) -> Option<usize>
    ensures { IfSome result (λ place. StandsAt held.now place policy.now) }
{
    for (place, one) in held.iter().enumerate() {
        if is_same(&one.policy, policy) {
            return Some(place);
        }
    }
    None
}

// One more local, which has these policies.
fn add(held: &mut Vec<Held>, local: u32, policy: Atoms) -> Result<(), NoMemory>
    requires range { local < 256 }
    requires free { IsFree held.old.items local }
    ensures here { OnOk result (told held.new.items local ≡ policy) }
    ensures others { OnOk result ((i : ℕ) → i ≢ local
        → told held.new.items i ≡ told held.old.items i) }
    ensures free { OnOk result ((i : ℕ) → i ≢ local → IsFree held.old.items i
        → IsFree held.new.items i) }
{
    match place_of(held, &policy) {
        Some(place) => held[place].locals = held[place].locals.with(local),
        None => {
            let locals = Bits::empty().with(local);
            held.push(Held { policy, locals })?;
        }
    }
    Ok(())
}

// Which locals have which policies, where few are different.
fn held_of(alloc: Global, policies: &[Atoms]) -> Result<Option<List<Held>>, NoMemory>
    ensures { IfOk result (MayTell policies.now) }
{
    if policies.len() > MOST_LOCALS {
        return Ok(None);
    }
    let mut held = Vec::new(alloc);
    for (local, policy) in policies.iter().enumerate() {
        if held.len() > MOST_HELD {
            return Ok(None);
        }
        if !is_same(policy, &Atoms::empty()) {
            add(&mut held, local as u32, *policy)?;
        }
    }
    Ok(Some(List::wrap(held)))
}

fn are_same_locals(one: &Bits<4>, other: &Bits<4>) -> bool
    ensures { IsTrue result → one.now ≡ other.now }
{
    one.within(other) && other.within(one)
}

fn is_same_held(one: &Held, other: &Held) -> bool
    ensures { IsTrue result → one.now ≡ other.now }
{
    is_same(&one.policy, &other.policy) && are_same_locals(&one.locals, &other.locals)
}

fn are_same(one: &[Held], other: &[Held]) -> bool
    ensures { IsTrue result → one.now ≡ other.now }
{
    if one.len() != other.len() {
        return false;
    }
    for place in 0..one.len() {
        if !is_same_held(&one[place], &other[place]) {
            return false;
        }
    }
    true
}

impl Env {
    /// The policies, to be compared from here on.
    pub fn new(alloc: Global, policies: List<Atoms>) -> Result<Env, NoMemory>
        ensures { IfOk result (λ env. env ≡ policies) }
    {
        let held = held_of(alloc, policies.as_slice())?;
        Ok(Env { policies, held })
    }

    /// The policies of the locals.
    pub fn as_slice(&self) -> &[Atoms]
        ensures { result.now ≡ self.now }
    {
        self.policies.as_slice()
    }

    /// Whether both are told to be the same, which may be false where they are. It takes no look at
    /// each local.
    pub fn is_told_same(&self, other: &Env) -> bool
        ensures { IsTrue result → self.now ≡ other.now }
    {
        if self.policies.len() != other.policies.len() {
            return false;
        }
        match &self.held {
            None => false,
            Some(held) => match &other.held {
                None => false,
                Some(others) => are_same(held.as_slice(), others.as_slice()),
            },
        }
    }
}

/// A local whose policies differ, if there is one.
pub fn difference(one: &Env, other: &Env) -> Option<usize>
    ensures { MatchOption result (AreSame one.now other.now)
        (λ i. policy one.now i ≢ policy other.now i) }
{
    if one.is_told_same(other) {
        return None;
    }
    difference_of(one.as_slice(), other.as_slice())
}
