// Policies in normal form.
ghost use Rattle.std.specs.Prelude.{◌≡◌, IfOk};
ghost use Rattle.par_policy.specs.Sees.{IsSeenAlike};
ghost use Rattle.par_policy.specs.Normal.{IsNormal};

use crate::clauses::Clause;
use crate::normal::keep_all;
use par_base::memory::NoMemory;
use std::alloc::{AllocError, Global};
use std::marker::Model;
use std::rc::Rc;

/// A policy, which contracts see as its list of clauses in normal form: no clause covers another
/// one, and they ascend by actor and then by lock list. Copies share the list.
#[derive(Drop)]
pub struct Policy {
    clauses: Rc<Vec<Clause>>,
}

impl Model for Policy {
    ghost use Rattle.std.specs.Prelude.{List};
    ghost use Rattle.par_policy.specs.declared.clauses.Clause.{Clause};
    ghost use Rattle.par_policy.specs.Normal.{IsNormal};

    ghost Value = { List Clause };

    ghost view = { λ p. p.clauses.value.items };

    ghost invariant = { λ p. IsNormal p.clauses.value.items };
}

impl Policy {
    /// The policy of these clauses, in whatever order and however often they are listed.
    pub fn of(alloc: Global, clauses: &[Clause]) -> Result<Policy, NoMemory>
        ensures alike { IfOk result (λ p. IsSeenAlike p clauses.now) }
        ensures normal { IfOk result (λ p. IsNormal p) }
    {
        let mut kept = Vec::new(alloc);
        keep_all(&mut kept, clauses)?;
        Policy::of_normal(alloc, kept)
    }

    pub(crate) fn of_normal(alloc: Global, clauses: Vec<Clause>) -> Result<Policy, NoMemory>
        requires { IsNormal clauses.items }
        ensures { IfOk result (λ p. p ≡ clauses.items) }
    {
        let clauses = Rc::new(alloc, clauses)?;
        Ok(Policy { clauses })
    }

    // The policy once more, with the same list.
    pub(crate) fn share(&self) -> Result<Policy, NoMemory>
        ensures same { IfOk result (λ p. p ≡ self.now) }
        ensures normal { IfOk result (λ p. IsNormal p) }
    {
        let clauses = self.clauses.clone()?;
        Ok(Policy { clauses })
    }

    /// The clauses of the normal form. It takes no memory.
    pub fn clauses(&self) -> &[Clause]
        ensures list { result.now ≡ self.now }
        ensures normal { IsNormal self.now }
    {
        self.clauses.as_slice()
    }
}

impl Clone for Policy {
    ghost is_clone = { λ x y. y ≡ x };

    fn clone(&self) -> Result<Policy, AllocError> {
        Ok(Policy {
            clauses: self.clauses.clone()?,
        })
    }
}
