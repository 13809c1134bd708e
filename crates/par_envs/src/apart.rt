// Where two environments differ.
ghost use Rattle.std.specs.Prelude.{◌≡◌, ◌≢◌, ℕ, nat_eq, MatchOption, length};
ghost use Rattle.par_envs.specs.Same.{policy, AreSame};

use par_atoms::Atoms;
use std::cmp;

/// The policy of a local. Behind the end it is the empty set.
pub fn policy_of(env: &[Atoms], local: usize) -> Atoms
    ensures { result ≡ policy env.now local }
{
    match env.get(local) {
        Some(policy) => *policy,
        None => Atoms::empty(),
    }
}

/// Whether both sets have the same members.
pub fn is_same(one: &Atoms, other: &Atoms) -> bool
    ensures { result ≡ nat_eq one.now other.now }
{
    one.within(other) && other.within(one)
}

// The first local whose policies differ, if there is one.
fn first_apart(one: &[Atoms], other: &[Atoms]) -> Option<usize>
    requires { length one.now ≡ length other.now }
    ensures { MatchOption result (AreSame one.now other.now)
        (λ i. policy one.now i ≢ policy other.now i) }
{
    for (local, policy) in one.iter().enumerate() {
        if !is_same(policy, &other[local]) {
            return Some(local);
        }
    }
    None
}

// The same of lists of which one may end before the other.
fn first_apart_within(one: &[Atoms], other: &[Atoms]) -> Option<usize>
    ensures { MatchOption result (AreSame one.now other.now)
        (λ i. policy one.now i ≢ policy other.now i) }
{
    for local in 0..cmp::max(one.len(), other.len()) {
        if !is_same(&policy_of(one, local), &policy_of(other, local)) {
            return Some(local);
        }
    }
    None
}

/// A local whose policies differ, if there is one.
pub fn difference(one: &[Atoms], other: &[Atoms]) -> Option<usize>
    ensures { MatchOption result (AreSame one.now other.now)
        (λ i. policy one.now i ≢ policy other.now i) }
{
    if one.len() == other.len() {
        first_apart(one, other)
    } else {
        first_apart_within(one, other)
    }
}
