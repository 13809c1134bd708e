// The policies of locks that a program asks for.
ghost use Rattle.std.specs.Prelude.{◌≡◌, ◌++◌, map, OnOk};
ghost use Rattle.std.specs.Option.{option_copied};
ghost use Rattle.par_resolved.specs.Numbered.{has_no_policy};
ghost use Rattle.par_parts.specs.Gathered.{all_of};
ghost use Rattle.par_limits.specs.Asked.{asked_entries};

use par_resolved::NoMemory;
use par_resolved::entries::Entry;
use par_resolved::known::top;
use par_resolved::par_names::Locks;
use par_tree::decl::LockDecl;
use par_tree::policy::LockTree;
use std::alloc::Global;

fn has_no_policy(lock: Option<&LockDecl>) -> bool
    ensures { result ≡ has_no_policy (option_copied lock.entry) }
{
    match lock {
        None => false,
        Some(lock) => lock.policy.is_none(),
    }
}

/// Pushes an entry for each of these queries whose lock has no written policy.
#[tactic(auto, using(par_parts::proofs::Pushes::pushes))]
pub fn push_asked(
    alloc: Global,
    found: &mut Vec<Entry>,
    locks: &Locks<'_>,
    queries: &[&LockTree],
) -> Result<(), NoMemory>
    ensures { OnOk result (found.new.items
        ≡ found.old.items
        ++ asked_entries (map (λ lock. lock.now) locks.now.decls) (all_of queries.now)) }
{
    for query in queries {
        if has_no_policy(locks.named(&query.id.name)) {
            let policy = top(alloc)?;
            found.push(Entry {
                at: query.id.at,
                policy,
            })?;
        }
    }
    Ok(())
}
