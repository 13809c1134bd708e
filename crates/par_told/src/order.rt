//! Which policies of a set are told: those that are below no other of it.

ghost use Rattle.std.specs.Prelude.{◌≡◌, ◌<◌, ◌≤◌, ◌&&◌, nat_lt, IfOk, length};
ghost use Rattle.std.specs.List.{list_all};
ghost use Rattle.par_bits.specs.Sets.{has};
ghost use Rattle.par_policy.specs.Sees.{sees};
ghost use Rattle.par_infer.specs.Printed.{above};
ghost use Rattle.par_told.specs.Told as spec;
ghost use Rattle.par_told.specs.Told.{having, is_below};

use par_atoms::Atoms;
use par_policy::{Policy, leq};
use std::alloc::{AllocError, Global};

const POLICIES: u16 = 256;

/// Whether who sees the second sees the first.
fn is_below(p: &Policy, q: &Policy) -> bool
    ensures { result ≡ list_all (λ d. sees p.now d.actor d.locks) q.now }
{
    leq(p, q)
}

/// Whether the number is one of the set, and that of a policy.
fn has_policy(policies: &[Policy], set: &Atoms, number: u16) -> bool
    requires { number < 256 }
    ensures { result ≡ having policies.now (has set.now) number }
{
    set.has(number) && usize::from(number) < policies.len()
}

/// Whether the other number is one of the set whose policy is above that of the number.
fn is_above(policies: &[Policy], set: &Atoms, number: u16, other: u16) -> bool
    requires number { number < length policies.now }
    requires other { other < 256 }
    ensures { result
        ≡ above (is_below policies.now) (having policies.now (has set.now)) number other }
{
    has_policy(policies, set, other)
        && other != number
        && is_below(
            &policies[usize::from(number)],
            &policies[usize::from(other)],
        )
}

/// Whether the policy of the number is told.
fn is_told(policies: &[Policy], set: &Atoms, number: u16) -> bool
    requires few { length policies.now ≤ 256 }
    requires number { number < length policies.now }
    ensures { result ≡ spec.told policies.now (has set.now) number }
{
    if !has_policy(policies, set, number) {
        return false;
    }
    for other in 0..POLICIES {
        if is_above(policies, set, number, other) {
            return false;
        }
    }
    true
}

/// The numbers of the policies that are told, ascending.
pub fn told_numbers(alloc: Global, policies: &[Policy], set: &Atoms) -> Result<Vec<u16>, AllocError>
    requires { length policies.now ≤ 256 }
    ensures { IfOk result (λ numbers.
        numbers.items ≡ spec.told_numbers policies.now (has set.now)) }
{
    let mut numbers = Vec::new(alloc);
    for place in 0..policies.len() {
        let number = place as u16;
        if is_told(policies, set, number) {
            numbers.push(number)?;
        }
    }
    Ok(numbers)
}
