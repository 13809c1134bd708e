//! Releases for an actor, as far as they were asked for.

ghost use Rattle.std.specs.Prelude.{◌≡◌, ◌<◌, ◌≤◌, [], length, slice_index_or, IfOk};
ghost use Rattle.par_bits.specs.Sets.{has};
ghost use Rattle.par_audit.specs.Released.{is_released};

use crate::row::Row;
use par_atoms::Atoms;
use par_base::memory::NoMemory;
use par_policy::Policy;
use std::alloc::Global;
use std::marker::Model;

/// The policies of a table and an actor, with what is known of releases for it.
#[derive(Drop)]
pub struct Releases<'a> {
    policies: &'a [Policy],
    actor: u8,
    rows: Vec<Row>,
}

impl<'a> Model for Releases<'a> {
    ghost use Rattle.std.specs.Prelude.{List, ℕ};
    ghost use Rattle.par_policy.specs.declared.clauses.Clause.{Clause};
    ghost use Rattle.par_audit.specs.Rows.{AreRows};

    ghost Value = { List (List Clause) × ℕ };

    ghost view = { λ k. (k.policies.now, k.actor) };

    ghost invariant = { λ k. AreRows k.policies.now k.actor k.rows.items };
}

impl<'a> Releases<'a> {
    /// The policies of a table and an actor, of whose releases nothing is known.
    pub fn of(alloc: Global, policies: &'a [Policy], actor: u8) -> Result<Releases<'a>, NoMemory>
        ensures { IfOk result (λ releases. releases ≡ (policies.entry.now, actor)) }
    {
        let mut rows = Vec::new(alloc);
        for _ in 0..policies.len() {
            rows.push(Row::unknown())?;
        }
        Ok(Releases {
            policies,
            actor,
            rows,
        })
    }

    /// Whether with some locks the actor sees the policy of the number and not the join of the set:
    /// for some clause that it has there, a policy of the set has none that asks for no more locks.
    pub fn is_released(&mut self, set: &Atoms, policy: u16) -> bool
        requires many { length self.old.0 ≤ 256 }
        requires policy { policy < length self.old.0 }
        ensures stands { self.new ≡ self.old }
        ensures released { result
            ≡ is_released self.old.0 (has set.now) (slice_index_or self.old.0 policy [])
            self.old.1 }
    {
        let policies = self.policies;
        let place = usize::from(policy);
        let mut row = self.rows[place];
        if set.within(&row.kept) {
            return false;
        }
        let is_released = row.ask_all(policies, set, &policies[place], self.actor);
        self.rows[place] = row;
        is_released
    }
}
