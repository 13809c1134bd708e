//! The numbers of written locks and policies.

ghost use Rattle.std.specs.Prelude.{◌≡◌, ◌<◌, ◌^◌, length, position, IfOk};
ghost use Rattle.par_resolved.specs.Numbered.{same_clause, same_policy, policy_number};

use par_base::memory::NoMemory;
use par_policy::{Clause, Policy};
use par_resolved::known::Known;
use par_tree::policy::{LockTree, PolicyExpr};
use std::alloc::Global;

/// What is known of a program, and the policies of its table, which are few.
#[derive(Drop)]
pub struct Numbering<'a> {
    known: Known<'a>,
    policies: &'a [Policy],
    ghost few: { length policies.now < 2 ^ 16 },
}

impl<'a> Numbering<'a> {
    ghost use Rattle.par_annotation.specs.Numbers.{written_by, written_in};

    /// Locks by the numbers of the program, and policies by their places among these.
    pub fn of(known: Known<'a>, policies: &'a [Policy]) -> Numbering<'a>
        requires { length policies.now < 2 ^ 16 }
        ensures { written_by result ≡ written_in known.entry policies.now }
    {
        Numbering { known, policies }
    }

    /// The number of a ground lock.
    pub fn lock(&self, lock: &LockTree) -> u16
        ensures { result ≡ (written_by self.now).lock lock.now }
    {
        self.known.numbers.lock(lock)
    }

    /// The number of a policy. It is looked for among no more than a table may have.
    pub fn policy(&self, alloc: Global, policy: &PolicyExpr) -> Result<u16, NoMemory>
        ensures { IfOk result (λ n. n ≡ (written_by self.now).policy policy.now) }
    {
        match self.known.policy_of(alloc, policy) {
            Ok(policy) => Ok(number_of(self.policies, &policy)),
            Err(_) => Err(NoMemory),
        }
    }
}

fn same_clause(one: &Clause, other: &Clause) -> bool
    ensures { result ≡ same_clause one.now other.now }
{
    one.actor == other.actor && one.locks.as_slice() == other.locks.as_slice()
}

fn same_clauses(one: &[Clause], other: &[Clause]) -> bool
    ensures { result ≡ same_policy one.now other.now }
{
    match one {
        [] => other.is_empty(),
        [clause, clauses @ ..] => match other {
            [] => false,
            [other, others @ ..] => same_clause(clause, other) && same_clauses(clauses, others),
        },
    }
}

fn place_of(policies: &[Policy], policy: &Policy) -> Option<usize>
    ensures { result ≡ position (same_policy policy.now) policies.now }
{
    policies
        .iter()
        .position(|other| same_clauses(policy.clauses(), other.clauses()))
}

fn number_of(policies: &[Policy], policy: &Policy) -> u16
    requires { length policies.now < 2 ^ 16 }
    ensures { result ≡ policy_number policies.now policy.now }
{
    match place_of(policies, policy) {
        None => 0,
        Some(place) => place as u16,
    }
}
