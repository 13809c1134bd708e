// Policies of locals, as lists.
ghost use Rattle.std.specs.Prelude.{◌≡◌, ◌↔◌, ◌<◌, ℕ, IsTrue, IfOk, length};
ghost use Rattle.par_bits.specs.Sets.{has, union, IsWithin};
ghost use Rattle.par_program_laws.specs.Lattice.{numbers};
ghost use Rattle.par_program_laws.specs.Ways.{put};
ghost use Rattle.par_pass_laws.specs.par_except.Seen.{locals};

use par_atoms::Atoms;
use par_base::list::List;
use par_base::memory::NoMemory;
use par_envs::Env;
use std::alloc::Global;

fn are_within(one: &[Atoms], other: &[Atoms]) -> bool
    requires { length one.now ≡ length other.now }
    ensures { IsTrue result ↔ ((i : ℕ) → IsWithin (locals one.now i) (locals other.now i)) }
{
    for place in 0..one.len() {
        if !one[place].within(&other[place]) {
            return false;
        }
    }
    true
}

/// Whether the policies of each local are within the other ones.
pub fn flows(one: &Env, other: &Env) -> bool
    requires { length one.now ≡ length other.now }
    ensures { IsTrue result ↔ ((i : ℕ) → IsWithin (locals one.now i) (locals other.now i)) }
{
    if one.is_told_same(other) {
        return true;
    }
    are_within(one.as_slice(), other.as_slice())
}

/// Whether each local has the same policies.
pub fn is_same(one: &Env, other: &Env) -> bool
    requires { length one.now ≡ length other.now }
    ensures { IsTrue result ↔ (locals one.now ≡ locals other.now) }
{
    flows(one, other) && flows(other, one)
}

/// The join of the policies of each local.
pub fn join(alloc: Global, one: &[Atoms], other: &[Atoms]) -> Result<List<Atoms>, NoMemory>
    requires { length one.now ≡ length other.now }
    ensures policies { IfOk result
        (λ e. locals e ≡ (λ i. union (locals one.now i) (locals other.now i))) }
    ensures length { IfOk result (λ e. length e ≡ length one.now) }
{
    let mut joined = List::new(alloc);
    for place in 0..one.len() {
        joined.push(one[place].union(&other[place]))?;
    }
    Ok(joined)
}

/// The policies with another one of this local.
pub fn with_local(
    alloc: Global,
    env: &[Atoms],
    local: u16,
    policy: Atoms,
) -> Result<List<Atoms>, NoMemory>
    requires { local < length env.now }
    ensures policies { IfOk result
        (λ e. locals e ≡ put numbers (locals env.now) local (has policy)) }
    ensures length { IfOk result (λ e. length e ≡ length env.now) }
{
    let mut changed = Vec::from_slice(alloc, env)?;
    changed[usize::from(local)] = policy;
    Ok(List::wrap(changed))
}
