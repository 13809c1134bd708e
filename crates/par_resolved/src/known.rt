// What policy expressions come to.
ghost use Rattle.std.specs.Prelude.{◌≡◌, [], IfOk, IfSome, OnOk, Some, map, option_map};
ghost use Rattle.std.specs.List.{position};
ghost use Rattle.std.specs.Str.{bytes_eq};
ghost use Rattle.par_resolved.specs.Sets.{set_of, with_lock_set, normal};
ghost use Rattle.par_resolved.specs.Numbers.{lock_number};
ghost use Rattle.par_resolved.specs.Policies.{clause_of, bottom, term_value, term_values};
ghost use Rattle.par_resolved.specs.Policies.{value_at, value_of, policy_of, with_value};
ghost use Rattle.par_resolved.specs.Read.{AreRead, known_by};
ghost use Rattle.par_resolved.specs.Births.{policy_or_bottom};
ghost use Rattle.par_resolved.specs.Sizes.{expression_faults};
ghost use Rattle.par_resolved.specs.SeenNumbers.{seen};
ghost use Rattle.par_refusals.specs.First.{first_of};

use crate::forms::form;
use crate::joins::{join_all, note_joins};
use crate::numbers::Numbers;
use crate::read::{Read, joins_by_place, push_read};
use crate::same::are_same;
use par_base::memory::NoMemory;
use par_base::name::Name;
use par_names::par_index::NameIndex;
use par_refusals::refusal::Findings;
use par_tree::policy::{ClauseTree, LockTree, PolicyExpr, PolicyTerm};
use par_typed::par_policy::{Clause, Lockset, Policy};
use std::alloc::Global;

/// What a policy expression is read by: numbers, the names of all declared policies, and what the
/// first of them come to.
pub struct Known<'a> {
    pub numbers: Numbers<'a>,
    pub names: NameIndex<'a>,
    pub values: Vec<Option<Policy>>,
    read: Vec<Read<'a>>,
    ghost told: { AreRead (known_by numbers names values.items) read.items },
}

impl Drop for Known<'_> {
    fn drop(self) {
        let Known {
            numbers: _,
            names: _,
            values: _,
            read: _,
        } = self;
    }
}

/// The numbers of these locks.
pub fn lock_set(
    alloc: Global,
    numbers: &Numbers<'_>,
    locks: &[LockTree],
) -> Result<Lockset, NoMemory>
    ensures { IfOk result (λ set. set ≡ set_of (map (lock_number (seen numbers.now)) locks.now)) }
{
    let mut set = Lockset::new(alloc);
    for lock in locks {
        set.insert(numbers.lock(lock))?;
    }
    Ok(set)
}

fn clause_of(alloc: Global, numbers: &Numbers<'_>, clause: &ClauseTree) -> Result<Clause, NoMemory>
    ensures { IfOk result (λ c. c ≡ with_lock_set (clause_of (seen numbers.now) clause.now)) }
{
    Ok(Clause {
        actor: numbers.actor(&clause.actor),
        locks: lock_set(alloc, numbers, clause.locks.as_slice())?,
    })
}

// The policy that is written out.
fn literal(alloc: Global, numbers: &Numbers<'_>, clauses: &[ClauseTree]) -> Result<Policy, NoMemory>
    ensures { IfOk result (λ p. p ≡ normal (map (clause_of (seen numbers.now)) clauses.now)) }
{
    let mut made = Vec::new(alloc);
    for clause in clauses {
        made.push(clause_of(alloc, numbers, clause)?)?;
    }
    form(alloc, made.as_slice())
}

/// The policy that all actors may see without a lock.
pub fn bottom(alloc: Global, numbers: &Numbers<'_>) -> Result<Policy, NoMemory>
    ensures { IfOk result (λ p. p ≡ bottom (seen numbers.now)) }
{
    let mut clauses = Vec::new(alloc);
    for actor in 0..numbers.actor_count() {
        clauses.push(Clause {
            actor,
            locks: Lockset::new(alloc),
        })?;
    }
    form(alloc, clauses.as_slice())
}

/// The policy that no actor may see.
#[tactic(auto, unfolding(crate::specs::Sets::normal))]
pub fn top(alloc: Global) -> Result<Policy, NoMemory>
    ensures { IfOk result (λ p. p ≡ []) }
{
    form(alloc, &[])
}

impl<'a> Known<'a> {
    ghost use Rattle.par_resolved.specs.Seen.{known_seen};

    // What the declared policy of this name comes to.
    fn named(&self, name: &Name) -> Result<Option<Policy>, NoMemory>
        ensures { IfOk result (λ p.
            p ≡ value_at self.now.values.items
            (position (bytes_eq name.now) (known_seen self.now).names)) }
    {
        let Some(place) = self.names.place(name) else {
            return Ok(None);
        };
        match self.values.get(place) {
            None => Ok(None),
            Some(None) => Ok(None),
            Some(Some(policy)) => {
                let policy = policy.clone()?;
                Ok(Some(policy))
            }
        }
    }

    // What a term comes to.
    #[tactic(auto, unfolding(crate::specs::Policies::term_value))]
    fn term(&self, alloc: Global, term: &PolicyTerm) -> Result<Option<Policy>, NoMemory>
        ensures { IfOk result (λ p. p ≡ term_value (known_seen self.now) term.now) }
    {
        match term {
            PolicyTerm::Clauses(clauses) => {
                let policy = literal(alloc, &self.numbers, clauses.as_slice())?;
                Ok(Some(policy))
            }
            PolicyTerm::Named(id) => self.named(&id.name),
            PolicyTerm::Bottom => {
                let policy = bottom(alloc, &self.numbers)?;
                Ok(Some(policy))
            }
            PolicyTerm::Top => {
                let policy = top(alloc)?;
                Ok(Some(policy))
            }
        }
    }

    // What all of these come to.
    fn terms(&self, alloc: Global, terms: &[PolicyTerm]) -> Result<Option<Vec<Policy>>, NoMemory>
        ensures { IfOk result (λ found.
            option_map (λ ps. ps.items) found ≡ term_values (known_seen self.now) terms.now) }
    {
        let mut found = Vec::new(alloc);
        for term in terms {
            match self.term(alloc, term)? {
                None => return Ok(None),
                Some(policy) => found.push(policy)?,
            }
        }
        Ok(Some(found))
    }

    /// What is known where no declared policy is read yet.
    pub(crate) fn nothing(alloc: Global, numbers: Numbers<'a>, names: NameIndex<'a>) -> Known<'a>
        ensures { known_seen result ≡ known_by numbers.entry names.entry [] }
    {
        Known {
            numbers,
            names,
            values: Vec::new(alloc),
            read: Vec::new(alloc),
        }
    }

    /// Reads the next declared policy, which comes to this.
    pub(crate) fn add_value(
        &mut self,
        expr: &'a PolicyExpr,
        value: Option<Policy>,
    ) -> Result<(), NoMemory>
        requires { value ≡ value_of (known_seen self.old) expr.now }
        ensures { OnOk result (known_seen self.new ≡ with_value (known_seen self.old) value) }
    {
        push_read(&mut self.read, expr, &value)?;
        self.values.push(value)?;
        Ok(())
    }

    /// The same, by which no join among these expressions is worked out again, up to the first that
    /// exceeds a limit.
    pub fn with_joins(self, alloc: Global, exprs: &[&'a PolicyExpr]) -> Result<Known<'a>, NoMemory>
        ensures { IfOk result (λ k. known_seen k ≡ known_seen self.entry) }
    {
        match self.read_joins(alloc, exprs) {
            Err(error) => {
                drop(self);
                Err(error)
            }
            Ok(read) => {
                let Known {
                    numbers,
                    names,
                    values,
                    read: _,
                } = self;
                Ok(Known {
                    numbers,
                    names,
                    values,
                    read,
                })
            }
        }
    }

    // What the joins among these come to, up to the first that exceeds a limit.
    fn read_joins(&self, alloc: Global, exprs: &[&'a PolicyExpr]) -> Result<Vec<Read<'a>>, NoMemory>
        ensures { IfOk result (λ read. AreRead (known_seen self.now) read.items) }
    {
        let joins = joins_by_place(alloc, exprs)?;
        self.read_all(alloc, joins.as_slice())
    }

    // What these come to, up to the first that exceeds a limit.
    fn read_all(&self, alloc: Global, exprs: &[&'a PolicyExpr]) -> Result<Vec<Read<'a>>, NoMemory>
        ensures { IfOk result (λ read. AreRead (known_seen self.now) read.items) }
    {
        let mut read = Vec::new(alloc);
        for expr in exprs {
            match self.value_of(alloc, expr)? {
                None => return Ok(read),
                Some(policy) => read.push(Read {
                    expr: *expr,
                    policy,
                })?,
            }
        }
        Ok(read)
    }

    // What an expression comes to that says the same as the one read at its place.
    fn read_before(&self, e: &PolicyExpr) -> Option<&Policy>
        ensures { IfSome result (λ p. value_of (known_seen self.now) e.now ≡ Some p.now) }
    {
        let found = self.read.binary_search_by_key(&e.at, |read| read.expr.at);
        let read = self.read.get(found.ok()?)?;
        if are_same(read.expr.terms.as_slice(), e.terms.as_slice()) {
            return Some(&read.policy);
        }
        None
    }

    /// What an expression comes to. One that was read is not worked out again.
    pub fn value_of(&self, alloc: Global, e: &PolicyExpr) -> Result<Option<Policy>, NoMemory>
        ensures { IfOk result (λ p. p ≡ value_of (known_seen self.now) e.now) }
    {
        match self.read_before(e) {
            None => self.worked_out(alloc, e),
            Some(policy) => {
                let policy = policy.clone()?;
                Ok(Some(policy))
            }
        }
    }

    #[tactic(auto, using(crate::proofs::Steps::joined_terms))]
    fn worked_out(&self, alloc: Global, e: &PolicyExpr) -> Result<Option<Policy>, NoMemory>
        ensures { IfOk result (λ p. p ≡ value_of (known_seen self.now) e.now) }
    {
        match self.terms(alloc, e.terms.as_slice())? {
            None => Ok(None),
            Some(policies) => join_all(alloc, policies.as_slice()),
        }
    }

    /// Notes the limits that the joins of an expression exceed.
    #[tactic(auto, using(crate::proofs::Steps::joined_terms))]
    pub fn note_faults(
        &self,
        alloc: Global,
        e: &PolicyExpr,
        findings: &mut Findings,
    ) -> Result<(), NoMemory>
        ensures { OnOk result (findings.new
            ≡ first_of findings.old (expression_faults (known_seen self.now) e.now)) }
    {
        match self.terms(alloc, e.terms.as_slice())? {
            None => Ok(()),
            Some(policies) => note_joins(alloc, e.at, policies.as_slice(), findings),
        }
    }

    /// The policy of an expression, `top` where it exceeds a limit.
    pub fn policy_of(&self, alloc: Global, e: &PolicyExpr) -> Result<Policy, NoMemory>
        ensures { IfOk result (λ p. p ≡ policy_of (known_seen self.now) e.now) }
    {
        match self.value_of(alloc, e)? {
            None => top(alloc),
            Some(policy) => Ok(policy),
        }
    }

    /// The policy of an expression, `bottom` where it is omitted.
    pub fn policy_or_bottom(
        &self,
        alloc: Global,
        e: &Option<PolicyExpr>,
    ) -> Result<Policy, NoMemory>
        ensures { IfOk result (λ p. p ≡ policy_or_bottom (known_seen self.now) e.now) }
    {
        match e {
            None => bottom(alloc, &self.numbers),
            Some(e) => self.policy_of(alloc, e),
        }
    }
}
