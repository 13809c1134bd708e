//! The order of a table's policies, as far as it was asked for.

ghost use Rattle.std.specs.Prelude.{◌≡◌, ◌<◌, ◌≤◌, ◌↔◌, [], length, slice_index_or, IfOk, IsTrue};
ghost use Rattle.par_bits.specs.Sets.{has};
ghost use Rattle.par_atoms.specs.Atoms.{members};
ghost use Rattle.par_check.specs.Rows.{AreBelowAt, IsRow};

use crate::listed::listed;
use crate::row::Row;
use par_atoms::Atoms;
use par_base::memory::NoMemory;
use par_bits::Bits;
use par_policy::Policy;
use std::alloc::Global;
use std::collections::HashMap;
use std::marker::Model;

/// The policies of a table with what is known of their order. Contracts see the policies alone.
#[derive(Drop)]
pub struct Order<'a> {
    alloc: Global,
    policies: &'a [Policy],
    rows: HashMap<(u16, Vec<u16>), Row>,
}

impl<'a> Model for Order<'a> {
    ghost use Rattle.std.specs.Prelude.{List};
    ghost use Rattle.par_policy.specs.declared.clauses.Clause.{Clause};
    ghost use Rattle.par_check.specs.Rows.{AreRows};

    ghost Value = { List (List Clause) };

    ghost view = { λ o. o.policies.now };

    ghost invariant = { λ o. AreRows o.policies.now o.rows };
}

impl<'a> Order<'a> {
    /// The policies of a table, of whose order nothing is known.
    pub fn of(alloc: Global, policies: &'a [Policy]) -> Order<'a>
        ensures { result ≡ policies.entry.now }
    {
        Order {
            alloc,
            policies,
            rows: HashMap::new(alloc),
        }
    }

    // What is known of a policy at open locks.
    fn row(&self, key: &(u16, Vec<u16>)) -> Row
        ensures { IsRow self.now key.now.1.items (slice_index_or self.now key.now.0 []) result }
    {
        match self.rows.get(key) {
            None => Row::unknown(),
            Some(row) => *row,
        }
    }

    // Keeps what is known of a policy at open locks.
    fn keep(&mut self, key: (u16, Vec<u16>), row: Row) -> Result<(), NoMemory>
        requires { IsRow self.old key.1.items (slice_index_or self.old key.0 []) row }
        ensures { self.new ≡ self.old }
    {
        self.rows.insert(key, row)?;
        Ok(())
    }

    /// Whether each of these policies, specialised to the locks, is below the policy of a number.
    /// What is no policy of the table is passed over.
    pub fn are_below_at(
        &mut self,
        set: &Atoms,
        locks: &Bits<4>,
        policy: u16,
    ) -> Result<bool, NoMemory>
        requires many { length self.old ≤ 256 }
        requires policy { policy < length self.old }
        ensures policies { self.new ≡ self.old }
        ensures below { IfOk result (λ below. IsTrue below
            ↔ AreBelowAt self.old (has set.now) (members locks.now)
            (slice_index_or self.old policy [])) }
    {
        let policies = self.policies;
        let key = (policy, listed(self.alloc, locks)?);
        let mut row = self.row(&key);
        if set.within(&row.below) {
            return Ok(true);
        }
        let below = row.ask_all(policies, set, locks, &policies[usize::from(policy)]);
        self.keep(key, row)?;
        Ok(below)
    }
}
