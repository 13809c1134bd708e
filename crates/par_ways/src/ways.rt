// When one way flows into another.
ghost use Rattle.std.specs.Prelude.{◌≡◌, ◌↔◌, ℕ, IsTrue, IfOk, length};
ghost use Rattle.par_program_laws.specs.Lattice.{numbers};
ghost use Rattle.par_program_laws.specs.Ways.{Flows, MayFlow};
ghost use Rattle.par_pass_laws.specs.par_except.Joins.{may_join};
ghost use Rattle.par_pass_laws.specs.par_except.Seen.{may_see, seen, MayHaveLocals};

use crate::env;
use crate::way::SharedWay;
use par_base::memory::NoMemory;
use std::alloc::Global;

fn flows(way: &SharedWay, other: &SharedWay) -> bool
    requires { length way.now.env ≡ length other.now.env }
    ensures { IsTrue result ↔ Flows numbers (seen way.now) (seen other.now) }
{
    let context = way.context().within(&other.context());
    let env = env::flows(way.compared_env(), other.compared_env());
    let locks = other.locks().within(&way.locks());
    context && env && locks
}

/// Whether the way, if there is one, flows into the other, which is there then.
pub fn may_flow(way: &Option<SharedWay>, other: &Option<SharedWay>) -> bool
    requires { (n : ℕ) × MayHaveLocals n way.now × MayHaveLocals n other.now }
    ensures { IsTrue result ↔ MayFlow numbers (may_see way.now) (may_see other.now) }
{
    match way {
        None => true,
        Some(way) => match other {
            None => false,
            Some(other) => flows(way, other),
        },
    }
}

/// The way once more, if there is one.
pub fn may_share(way: &Option<SharedWay>) -> Result<Option<SharedWay>, NoMemory>
    ensures { IfOk result (λ o. o ≡ way.now) }
{
    match way {
        None => Ok(None),
        Some(way) => Ok(Some(way.share()?)),
    }
}

/// The way that both flow into.
pub fn may_join(
    alloc: Global,
    one: &Option<SharedWay>,
    other: &Option<SharedWay>,
) -> Result<Option<SharedWay>, NoMemory>
    requires { (n : ℕ) × MayHaveLocals n one.now × MayHaveLocals n other.now }
    ensures way { IfOk result (λ o. may_see o ≡ may_join (may_see one.now) (may_see other.now)) }
    ensures locals { IfOk result (λ o. (n : ℕ) → MayHaveLocals n one.now → MayHaveLocals n other.now
        → MayHaveLocals n o) }
{
    match one {
        None => may_share(other),
        Some(way) => match other {
            None => Ok(Some(way.share()?)),
            Some(other) => Ok(Some(way.join(alloc, other)?)),
        },
    }
}
