// The distinct policies of a program.
ghost use Rattle.std.specs.Prelude.{◌≡◌, ◌+◌, take, IfOk, OnOk};
ghost use Rattle.par_resolved.specs.Numbered.{distinct};
ghost use Rattle.par_parts.specs.Gathered.{all_of};
ghost use Rattle.par_limits.specs.Within.{with_new_within};

use crate::same::is_there;
use par_resolved::NoMemory;
use par_resolved::entries::Entry;
use par_resolved::limits::MOST_POLICIES;
use std::alloc::Global;

// Pushes the entry, unless its policy is there, or more are there than may be.
fn push_new<'a>(found: &mut Vec<&'a Entry>, entry: &'a Entry) -> Result<(), NoMemory>
    ensures { OnOk result (all_of found.new.items
        ≡ with_new_within MOST_POLICIES (all_of found.old.items) entry.now) }
{
    if found.len() > MOST_POLICIES {
        return Ok(());
    }
    if is_there(found.as_slice(), &entry.policy) {
        return Ok(());
    }
    found.push(entry)?;
    Ok(())
}

/// Each of these whose policy is not that of an earlier one, up to the first that is one too many.
/// So no entry is compared with more than there may be.
pub fn distinct_entries<'a>(alloc: Global, entries: &'a [Entry]) -> Result<Vec<&'a Entry>, NoMemory>
    ensures { IfOk result (λ found.
        all_of found.items ≡ take (MOST_POLICIES + 1) (distinct entries.now)) }
{
    let mut found = Vec::new(alloc);
    for entry in entries {
        push_new(&mut found, entry)?;
    }
    Ok(found)
}
