// What is known at a spot.
ghost use Rattle.std.specs.Prelude.{◌≡◌, IfOk, length};
ghost use Rattle.par_bits.specs.Sets.{has};
ghost use Rattle.par_program_laws.specs.Lattice.{numbers};
ghost use Rattle.par_program_laws.specs.Ways.{raised};
ghost use Rattle.par_except.specs.Joins.{join};
ghost use Rattle.par_except.specs.Seen.{seen};

use crate::env;
use par_atoms::Atoms;
use par_bits::Bits;
use par_program_laws::par_base::list::List;
use par_program_laws::par_base::memory::NoMemory;
use std::alloc::Global;

/// Who may learn that the spot is reached, the policy of each local by its number, and the locks
/// that are open.
#[derive(Drop)]
pub struct Way {
    pub context: Atoms,
    pub env: List<Atoms>,
    pub locks: Bits<4>,
}

impl Way {
    /// The same way once more.
    pub fn copy(&self, alloc: Global) -> Result<Way, NoMemory>
        ensures { IfOk result (λ w. w ≡ self.now) }
    {
        let env = env::copy(alloc, &self.env)?;
        Ok(Way {
            context: self.context,
            env,
            locks: self.locks,
        })
    }

    /// The least way that both flow into.
    pub fn join(&self, alloc: Global, other: &Way) -> Result<Way, NoMemory>
        requires { length self.now.env ≡ length other.now.env }
        ensures way { IfOk result (λ w. seen w ≡ join (seen self.now) (seen other.now)) }
        ensures locals { IfOk result (λ w. length w.env ≡ length self.now.env) }
    {
        let env = env::join(alloc, &self.env, &other.env)?;
        Ok(Way {
            context: self.context.union(&other.context),
            env,
            locks: self.locks.meet(&other.locks),
        })
    }
}

/// The way with these policies joined to its context.
pub fn raise(alloc: Global, way: &Way, by: &Atoms) -> Result<Way, NoMemory>
    ensures way { IfOk result (λ w. seen w ≡ raised numbers (has by.now) (seen way.now)) }
    ensures env { IfOk result (λ w. w.env ≡ way.now.env) }
{
    let env = env::copy(alloc, &way.env)?;
    Ok(Way {
        context: way.context.union(by),
        env,
        locks: way.locks,
    })
}
