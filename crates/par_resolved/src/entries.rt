// The policies of a table, by the places where they are counted.
ghost use Rattle.std.specs.Prelude.{◌≡◌, ◌++◌, map, OnOk};
ghost use Rattle.par_parts.specs.Gathered.{all_of};
ghost use Rattle.par_resolved.specs.Seen.{known_seen};
ghost use Rattle.par_resolved.specs.Numbered.{written_entry, by_place};

use crate::known::Known;
use par_base::memory::NoMemory;
use par_tree::policy::PolicyExpr;
use par_typed::par_policy::Policy;
use std::alloc::Global;

/// A policy of the table, and the place that it is counted at.
pub struct Entry {
    pub at: u32,
    pub policy: Policy,
}

impl Drop for Entry {
    fn drop(self) {
        let Entry { at: _, policy: _ } = self;
    }
}

/// Pushes the entries of these expressions.
#[tactic(auto, using(par_parts::proofs::Pushes::pushes))]
pub fn push_written(
    alloc: Global,
    found: &mut Vec<Entry>,
    known: &Known<'_>,
    exprs: &[&PolicyExpr],
) -> Result<(), NoMemory>
    ensures { OnOk result (found.new.items
        ≡ found.old.items ++ map (written_entry (known_seen known.now)) (all_of exprs.now)) }
{
    for e in exprs {
        let policy = known.policy_of(alloc, e)?;
        found.push(Entry { at: e.at, policy })?;
    }
    Ok(())
}

/// Puts the entries in the order of their places.
pub fn sort_entries(entries: &mut Vec<Entry>) -> Result<(), NoMemory>
    ensures { OnOk result (entries.new.items ≡ by_place entries.old.items) }
{
    entries.sort_by_key(|entry| entry.at)?;
    Ok(())
}
