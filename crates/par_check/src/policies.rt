//! Whether joins of policies are below a policy of the table.

ghost use Rattle.std.specs.Prelude.{◌≡◌, ◌<◌, ◌≤◌, ◌↔◌, ℕ, length, slice_get, IfOk, IsTrue};
ghost use Rattle.par_bits.specs.Sets.{has};
ghost use Rattle.par_asked.specs.par_program_laws.Lattice.{IsSeenBelow, joined, seen_by};
ghost use Rattle.par_asked.specs.par_check_laws.Keeps.{IsSeenBelowAt};

use crate::order::Order;
use par_atoms::Atoms;
use par_base::memory::NoMemory;
use par_bits::Bits;
use par_policy::Policy;
use par_typed::table::Table;
use std::alloc::Global;
use std::marker::Model;

/// A table with what is known of the order of its policies. Contracts see the table alone.
#[derive(Drop)]
pub struct Policies<'a> {
    table: &'a Table,
    order: Order<'a>,
}

impl<'a> Model for Policies<'a> {
    ghost use Rattle.std.specs.Prelude.{◌≡◌};
    ghost use Rattle.par_typed.specs.declared.table.Table.{Table};

    ghost Value = { Table };

    ghost view = { λ p. p.table.now };

    ghost invariant = { λ p. p.order ≡ p.table.now.policies };
}

// Whether none of the table's policies is in the set.
fn is_none(policies: &[Policy], set: &Atoms) -> bool
    requires { length policies.now ≤ 256 }
    ensures { IsTrue result
        ↔ ((n : ℕ) → n < length policies.now → IsTrue (has set.now n) → ⊥) }
{
    for number in 0..policies.len() {
        if set.has(number as u16) {
            return false;
        }
    }
    true
}

impl<'a> Policies<'a> {
    /// The policies of a table, of whose order nothing is known.
    pub fn of(alloc: Global, table: &'a Table) -> Policies<'a>
        ensures { result ≡ table.entry.now }
    {
        Policies {
            table,
            order: Order::of(alloc, table.policies.as_slice()),
        }
    }

    /// The table.
    pub fn table(&self) -> &'a Table
        ensures { result.now ≡ self.now }
    {
        self.table
    }

    /// Whether the join of these policies, specialised to the locks, is below the policy of a
    /// number. What is no policy of the table is seen by all.
    pub fn is_below_at(
        &mut self,
        set: &Atoms,
        locks: &Bits<4>,
        policy: u16,
    ) -> Result<bool, NoMemory>
        requires { length self.old.policies ≤ 256 }
        ensures table { self.new ≡ self.old }
        ensures below { IfOk result (λ below. IsTrue below
            ↔ IsSeenBelowAt (joined self.old.policies (has set.now)) (has locks.now)
            (seen_by (slice_get self.old.policies policy))) }
    {
        let policies = self.table.policies.as_slice();
        if usize::from(policy) < policies.len() {
            self.order.are_below_at(set, locks, policy)
        } else {
            Ok(is_none(policies, set))
        }
    }

    /// Whether the join of these policies is below the policy of a number.
    pub fn is_below(&mut self, set: &Atoms, policy: u16) -> Result<bool, NoMemory>
        requires { length self.old.policies ≤ 256 }
        ensures table { self.new ≡ self.old }
        ensures below { IfOk result (λ below. IsTrue below
            ↔ IsSeenBelow (joined self.old.policies (has set.now))
            (seen_by (slice_get self.old.policies policy))) }
    {
        self.is_below_at(set, &Bits::empty(), policy)
    }

    /// Whether one policy is below another, by their numbers.
    pub fn is_number_below(&mut self, one: u16, other: u16) -> Result<bool, NoMemory>
        requires { length self.old.policies ≤ 256 }
        ensures table { self.new ≡ self.old }
        ensures below { IfOk result (λ below. IsTrue below
            ↔ IsSeenBelow (seen_by (slice_get self.old.policies one))
            (seen_by (slice_get self.old.policies other))) }
    {
        if usize::from(one) < self.table.policies.len() {
            self.is_below(&Atoms::empty().with(one), other)
        } else {
            Ok(true)
        }
    }
}
