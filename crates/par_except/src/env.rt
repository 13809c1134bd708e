// Policies of locals, as lists.
ghost use Rattle.std.specs.Prelude.{◌≡◌, ℕ, IfOk, length};
ghost use Rattle.par_bits.specs.Sets.{union};
ghost use Rattle.par_except.specs.Seen.{locals};

use par_atoms::Atoms;
use par_program_laws::par_base::list::List;
use par_program_laws::par_base::memory::NoMemory;
use std::alloc::Global;

/// A list of the same policies.
pub fn copy(alloc: Global, env: &List<Atoms>) -> Result<List<Atoms>, NoMemory>
    ensures { IfOk result (λ e. e ≡ env.now) }
{
    Ok(List::wrap(Vec::from_slice(alloc, env.as_slice())?))
}

/// The join of the policies of each local.
pub fn join(alloc: Global, one: &List<Atoms>, other: &List<Atoms>) -> Result<List<Atoms>, NoMemory>
    requires { length one.now ≡ length other.now }
    ensures policies { IfOk result
        (λ e. locals e ≡ (λ i. union (locals one.now i) (locals other.now i))) }
    ensures length { IfOk result (λ e. length e ≡ length one.now) }
{
    let mut joined = List::new(alloc);
    let one = one.as_slice();
    let other = other.as_slice();
    for place in 0..one.len() {
        joined.push(one[place].union(&other[place]))?;
    }
    Ok(joined)
}
