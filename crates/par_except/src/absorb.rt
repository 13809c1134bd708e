// Exits that a catch or a loop takes for itself.
ghost use Rattle.std.specs.Prelude.{◌≡◌, ℕ, cond, IfOk, None};
ghost use Rattle.par_program_laws.specs.Kinds as kind;
ghost use Rattle.par_program_laws.specs.Kinds.{Kind, same};
ghost use Rattle.par_except.specs.Seen.{may_see, MayHaveLocals};
ghost use Rattle.par_except.specs.Exits.{exit, seen_throws, thrown, AreOnce, HaveLocals};

use crate::merge::copy;
use crate::throws;
use crate::way::Way;
use crate::ways::Ways;
use par_program_laws::par_base::memory::NoMemory;
use std::alloc::Global;

fn taken(alloc: Global, ways: &Ways, class: u16) -> Result<Option<Way>, NoMemory>
    ensures way { IfOk result (λ o. may_see o ≡ exit ways.now (kind.Throw class)) }
    ensures locals { IfOk result (λ o. (n : ℕ) → HaveLocals n ways.now → MayHaveLocals n o) }
{
    match throws::way_of(ways.throws.as_slice(), class) {
        None => Ok(None),
        Some(way) => Ok(Some(way.copy(alloc)?)),
    }
}

fn others(alloc: Global, ways: &Ways, class: u16) -> Result<Ways, NoMemory>
    requires { AreOnce (seen_throws ways.now.throws) }
    ensures exits { IfOk result (λ r. (k : Kind)
        → exit r k ≡ cond (same (kind.Throw class) k) None (exit ways.now k)) }
    ensures once { IfOk result (λ r. AreOnce (seen_throws r.throws)) }
    ensures locals { IfOk result (λ r. (n : ℕ) → HaveLocals n ways.now → HaveLocals n r) }
{
    let normal = copy(alloc, &ways.normal)?;
    let ret = copy(alloc, &ways.ret)?;
    let brk = copy(alloc, &ways.brk)?;
    let cont = copy(alloc, &ways.cont)?;
    let throws = throws::without(alloc, ways.throws.as_slice(), class)?;
    Ok(Ways {
        normal,
        ret,
        brk,
        cont,
        throws,
    })
}

/// Takes out the throw of the class: its way, if there is one, and all other exits.
pub fn absorb_throw(alloc: Global, ways: &Ways, class: u16) -> Result<(Option<Way>, Ways), NoMemory>
    requires { AreOnce (seen_throws ways.now.throws) }
    ensures way { IfOk result (λ r. may_see r.0 ≡ exit ways.now (kind.Throw class)) }
    ensures exits { IfOk result (λ r. (k : Kind)
        → exit r.1 k ≡ cond (same (kind.Throw class) k) None (exit ways.now k)) }
    ensures once { IfOk result (λ r. AreOnce (seen_throws r.1.throws)) }
    ensures locals { IfOk result (λ r. (n : ℕ) → HaveLocals n ways.now
        → MayHaveLocals n r.0 × HaveLocals n r.1) }
{
    let way = taken(alloc, ways, class)?;
    let rest = others(alloc, ways, class)?;
    Ok((way, rest))
}

/// Takes out `break` and `continue`: their ways, if there are such, and all other exits.
pub fn absorb_loop(alloc: Global, ways: &Ways) -> Result<(Option<Way>, Option<Way>, Ways), NoMemory>
    requires { AreOnce (seen_throws ways.now.throws) }
    ensures brk { IfOk result (λ r. r.0 ≡ ways.now.brk) }
    ensures cont { IfOk result (λ r. r.1 ≡ ways.now.cont) }
    ensures exits { IfOk result (λ r. (r.2.normal ≡ ways.now.normal) × (r.2.ret ≡ ways.now.ret)
        × (r.2.brk ≡ None) × (r.2.cont ≡ None) × (r.2.throws ≡ ways.now.throws)) }
{
    let brk = copy(alloc, &ways.brk)?;
    let cont = copy(alloc, &ways.cont)?;
    let normal = copy(alloc, &ways.normal)?;
    let ret = copy(alloc, &ways.ret)?;
    let throws = throws::copy(alloc, ways.throws.as_slice())?;
    let rest = Ways {
        normal,
        ret,
        brk: None,
        cont: None,
        throws,
    };
    Ok((brk, cont, rest))
}
