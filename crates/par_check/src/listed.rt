//! Locks as a list.

ghost use Rattle.std.specs.Prelude.{◌≡◌, IfOk};
ghost use Rattle.par_atoms.specs.Atoms.{members};

use par_base::memory::NoMemory;
use par_bits::Bits;
use std::alloc::Global;

const LOCKS: u16 = 256;

/// The locks of a set, ascending.
pub(crate) fn listed(alloc: Global, locks: &Bits<4>) -> Result<Vec<u16>, NoMemory>
    ensures { IfOk result (λ list. list.items ≡ members locks.now) }
{
    let mut list = Vec::new(alloc);
    for lock in 0..LOCKS {
        if locks.has(u32::from(lock)) {
            list.push(lock)?;
        }
    }
    Ok(list)
}
