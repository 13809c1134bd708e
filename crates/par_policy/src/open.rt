// Locks that are open.
ghost use Rattle.std.specs.Prelude.{◌≡◌, ℕ, List};
ghost use Rattle.par_policy.specs.Numbers.{has};
ghost use Rattle.par_policy.specs.Marks.{AreMarks};

use crate::locks::Lockset;
use par_bits::Bits;

/// A set of open locks, however it is kept, which contracts see as the list `locks` of it.
pub trait OpenLocks {
    ghost locks: { Self → List ℕ };

    /// Whether the lock is open.
    fn is_open(&self, lock: u16) -> bool
        ensures { result ≡ has (locks self.now) lock };

    /// The open locks as bits, if they are at hand so.
    fn as_bits(&self) -> Option<Bits<4>>
        ensures { AreMarks result (locks self.now) };
}

impl OpenLocks for Lockset {
    ghost locks = { λ s. s };

    fn is_open(&self, lock: u16) -> bool {
        self.has(lock)
    }

    fn as_bits(&self) -> Option<Bits<4>> {
        self.bits()
    }
}
