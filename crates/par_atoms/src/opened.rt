// Open locks as bits.
ghost use Rattle.par_atoms.specs.Atoms.{members};

use par_policy::OpenLocks;
use par_policy::par_bits::Bits;

const LOCKS: u16 = 256;

/// The locks whose numbers are in the set. A lock with a greater number is shut.
#[derive(Clone, Copy)]
pub(crate) struct Opened<'a> {
    pub(crate) locks: &'a Bits<4>,
}

impl OpenLocks for Opened<'_> {
    ghost locks = { λ opened. members opened.locks.now };

    fn is_open(&self, lock: u16) -> bool {
        lock < LOCKS && self.locks.has(u32::from(lock))
    }

    fn as_bits(&self) -> Option<Bits<4>> {
        self.locks.members_are_below();
        Some(*self.locks)
    }
}
