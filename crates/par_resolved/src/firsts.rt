// The numbers of the first ground locks of declarations.
ghost use Rattle.std.specs.Prelude.{◌≡◌, ◌≤◌, ◌^◌, All, sum_by, IfOk};
ghost use Rattle.par_resolved.specs.Numbers.{ground_count, firsts_from};
ghost use Rattle.par_parts.specs.Gathered.{all_of};

use crate::limits::MOST_GROUND_LOCKS;
use par_base::memory::NoMemory;
use par_tree::decl::LockDecl;
use std::alloc::Global;

/// The number of the first ground lock of each declaration, where there are so many actors.
pub fn firsts(alloc: Global, actors: u8, decls: &[&LockDecl]) -> Result<Vec<u16>, NoMemory>
    requires { sum_by (ground_count actors) (all_of decls.now) ≤ MOST_GROUND_LOCKS }
    ensures value { IfOk result (λ found. found.items ≡ firsts_from actors 0 (all_of decls.now)) }
    ensures small { IfOk result (λ found. All (λ first. first ≤ MOST_GROUND_LOCKS) found.items) }
{
    let mut found = Vec::new(alloc);
    let mut first = 0;
    for decl in decls {
        found.push(first)?;
        first += ground_count(actors, decl);
    }
    Ok(found)
}

/// How many ground locks a declaration has.
pub fn ground_count(actors: u8, decl: &LockDecl) -> u16
    requires { ground_count actors decl.now ≤ MOST_GROUND_LOCKS }
    ensures { result ≡ ground_count actors decl.now }
{
    u16::from(actors).pow(u32::from(decl.arity))
}
