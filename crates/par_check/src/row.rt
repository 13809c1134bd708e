//! What is known of one policy at open locks.

ghost use Rattle.std.specs.Prelude.{◌≡◌, ◌<◌, ◌≤◌, ◌↔◌, [], length, slice_index_or, IsTrue};
ghost use Rattle.par_policy.specs.Order.{IsBelowAt};
ghost use Rattle.par_bits.specs.Sets.{has, none};
ghost use Rattle.par_atoms.specs.Atoms.{members};
ghost use Rattle.par_check.specs.Rows.{AreBelowAt, IsRow};

use par_atoms::{Atoms, is_below_at};
use par_bits::Bits;
use par_policy::Policy;

/// Which policies of a table are known to be below one policy, and which are known not to be.
#[derive(Clone, Copy)]
pub(crate) struct Row {
    pub(crate) below: Atoms,
    apart: Atoms,
}

impl Row {
    /// Nothing is known.
    pub(crate) fn unknown() -> Row
        ensures below { has result.below ≡ none }
        ensures apart { has result.apart ≡ none }
    {
        Row {
            below: Atoms::empty(),
            apart: Atoms::empty(),
        }
    }

    // Whether the policy of the number, specialised to the locks, is below `q`, from now on known.
    fn ask(&mut self, policies: &[Policy], number: u16, locks: &Bits<4>, q: &Policy) -> bool
        requires number { number < 256 }
        requires policy { number < length policies.now }
        requires right { IsRow policies.now (members locks.now) q.now self.old }
        ensures right { IsRow policies.now (members locks.now) q.now self.new }
        ensures below { IsTrue result
            ↔ IsBelowAt (slice_index_or policies.now number []) (members locks.now) q.now }
    {
        if self.below.has(number) {
            return true;
        }
        if self.apart.has(number) {
            return false;
        }
        let is_below = is_below_at(policies, number, locks, q);
        if is_below {
            self.below = self.below.with(number);
        } else {
            self.apart = self.apart.with(number);
        }
        is_below
    }

    /// Whether each of these policies, specialised to the locks, is below `q`. What had to be
    /// worked out is known from now on.
    pub(crate) fn ask_all(
        &mut self,
        policies: &[Policy],
        set: &Atoms,
        locks: &Bits<4>,
        q: &Policy,
    ) -> bool
        requires many { length policies.now ≤ 256 }
        requires right { IsRow policies.now (members locks.now) q.now self.old }
        ensures right { IsRow policies.now (members locks.now) q.now self.new }
        ensures below { IsTrue result
            ↔ AreBelowAt policies.now (has set.now) (members locks.now) q.now }
    {
        for number in 0..policies.len() {
            let policy = number as u16;
            if set.has(policy) && !self.ask(policies, policy, locks, q) {
                return false;
            }
        }
        true
    }
}
