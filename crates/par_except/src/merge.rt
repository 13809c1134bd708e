// Exits of two parts, joined.
ghost use Rattle.std.specs.Prelude.{◌≡◌, ℕ, IfOk, Some, None};
ghost use Rattle.par_program_laws.specs.Kinds.{Kind};
ghost use Rattle.par_except.specs.Joins.{may_join};
ghost use Rattle.par_except.specs.Seen.{may_see, MayHaveLocals};
ghost use Rattle.par_except.specs.Exits.{exit, seen_throws, thrown, AreOnce, HaveLocals};
ghost use Rattle.par_except.specs.Throws.{both};

use crate::throws;
use crate::way::Way;
use crate::ways::Ways;
use par_program_laws::par_base::memory::NoMemory;
use std::alloc::Global;

/// A copy of the way, if there is one.
pub fn copy(alloc: Global, way: &Option<Way>) -> Result<Option<Way>, NoMemory>
    ensures { IfOk result (λ o. o ≡ way.now) }
{
    match way {
        None => Ok(None),
        Some(way) => Ok(Some(way.copy(alloc)?)),
    }
}

fn may_join(alloc: Global, one: &Option<Way>, other: &Option<Way>) -> Result<Option<Way>, NoMemory>
    requires { (n : ℕ) × MayHaveLocals n one.now × MayHaveLocals n other.now }
    ensures way { IfOk result (λ o. may_see o ≡ may_join (may_see one.now) (may_see other.now)) }
    ensures locals { IfOk result (λ o. (n : ℕ) → MayHaveLocals n one.now → MayHaveLocals n other.now
        → MayHaveLocals n o) }
{
    match one {
        None => copy(alloc, other),
        Some(way) => match other {
            None => Ok(Some(way.copy(alloc)?)),
            Some(other) => Ok(Some(way.join(alloc, other)?)),
        },
    }
}

/// The exits of both, kind by kind: contexts and environments are joined, and the locks are those
/// that are open in both.
#[tactic(auto, using(crate::proofs::Classes::both_at, crate::proofs::Classes::both_once))]
pub fn join(alloc: Global, a: &Ways, b: &Ways) -> Result<Ways, NoMemory>
    requires once { AreOnce (seen_throws a.now.throws) × AreOnce (seen_throws b.now.throws) }
    requires locals { (n : ℕ) × HaveLocals n a.now × HaveLocals n b.now }
    ensures exits { IfOk result (λ r. (k : Kind) → exit r k
        ≡ may_join (exit a.now k) (exit b.now k)) }
    ensures once { IfOk result (λ r. AreOnce (seen_throws r.throws)) }
    ensures locals { IfOk result (λ r. (n : ℕ) → HaveLocals n a.now → HaveLocals n b.now
        → HaveLocals n r) }
{
    let normal = may_join(alloc, &a.normal, &b.normal)?;
    let ret = may_join(alloc, &a.ret, &b.ret)?;
    let brk = may_join(alloc, &a.brk, &b.brk)?;
    let cont = may_join(alloc, &a.cont, &b.cont)?;
    let throws = throws::join(alloc, a.throws.as_slice(), b.throws.as_slice())?;
    Ok(Ways {
        normal,
        ret,
        brk,
        cont,
        throws,
    })
}
