//! What the parts of a table are made by.

ghost use Rattle.std.specs.Prelude.{◌≡◌, map, IfOk, length, ◌≤◌};
ghost use Rattle.std.specs.Option.{option_copied};
ghost use Rattle.par_index.specs.Texts.{texts};
ghost use Rattle.par_tree.specs.Shown.{source};
ghost use Rattle.par_names.specs.Declarations as names;
ghost use Rattle.par_resolved.specs.declared.limits.TheConstants.{MOST_POLICIES};
ghost use Rattle.par_parts.specs.Gathered.{classes_of};
ghost use Rattle.par_resolved.specs.Numbers as numbers;
ghost use Rattle.par_resolved.specs.Numbered.{policy_number};
ghost use Rattle.par_resolved.specs.Policies as policies;
ghost use Rattle.par_resolved.specs.Seen.{known_seen};
ghost use Rattle.par_table.specs.Room.{FitsTable, AreFew};

use crate::policies::{place_of, shared_policies};
use par_index::NameIndex;
use par_lexer::name::Name;
use par_names::index_named;
use par_policy::Policy;
use par_resolved::known::Known;
use par_resolved::{NoMemory, types};
use par_tree::decl::{ClassDecl, Program};
use par_tree::policy::PolicyExpr;
use par_tree::types::TypeTree;
use par_typed::ty::Ty;
use std::alloc::Global;

/// What is known of a program, the names of its classes, and the policies that have numbers.
pub struct Resolved<'a> {
    pub known: &'a Known<'a>,
    classes: NameIndex<'a>,
    policies: Vec<Policy>,
    ghost few: { AreFew classes policies.items },
}

impl Drop for Resolved<'_> {
    fn drop(self) {
        let Resolved {
            known: _,
            classes: _,
            policies: _,
        } = self;
    }
}

// The names of these classes.
#[tactic(auto, using(par_names::proofs::Lookups::mapped))]
fn class_index<'a>(alloc: Global, decls: &[&'a ClassDecl]) -> Result<NameIndex<'a>, NoMemory>
    ensures { IfOk result (λ index.
        texts index.names.items ≡ map (λ c. c.id.name) (classes_of decls.now)) }
{
    index_named(alloc, decls)
}

// The number of a policy among these.
fn number_among(policies: &[Policy], policy: &Policy) -> u16
    requires { length policies.now ≤ MOST_POLICIES }
    ensures { result ≡ policy_number policies.now policy.now }
{
    match place_of(policies, policy) {
        None => 0,
        Some(place) => place as u16,
    }
}

impl<'a> Resolved<'a> {
    ghost use Rattle.par_resolved.specs.Resolved.{resolved, number_of};
    ghost use Rattle.par_resolved.specs.Resolved.{expression_number};
    ghost use Rattle.par_resolved.specs.Resolved.{may_number};
    ghost use Rattle.par_table.specs.Seen.{resolved_seen};

    /// What the table of a program is made by, where these are its classes.
    pub fn of(
        alloc: Global,
        known: &'a Known<'a>,
        program: &'a Program,
        classes: &[&'a ClassDecl],
    ) -> Result<Resolved<'a>, NoMemory>
        requires room { FitsTable (source program.now) }
        requires known { known_seen known.now ≡ policies.known (source program.now) }
        requires classes { classes_of classes.now ≡ names.classes (source program.now) }
        ensures { IfOk result (λ r. resolved_seen r ≡ resolved (source program.now)) }
    {
        let policies = shared_policies(alloc, known, program)?;
        let classes = class_index(alloc, classes)?;
        Ok(Resolved {
            known,
            classes,
            policies,
        })
    }

    /// The policies that are not inferred, by their numbers.
    pub fn policies(&self) -> &[Policy]
        ensures { result.now ≡ (resolved_seen self.now).policies }
    {
        self.policies.as_slice()
    }

    /// How many they are.
    pub fn policy_count(&self) -> u16
        ensures { result ≡ length (resolved_seen self.now).policies }
    {
        self.policies.len() as u16
    }

    /// The number of a policy of the table.
    pub fn number_of(&self, policy: &Policy) -> u16
        ensures { result ≡ number_of (resolved_seen self.now) policy.now }
    {
        number_among(self.policies.as_slice(), policy)
    }

    /// The number of what an expression comes to.
    pub fn expression_number(&self, alloc: Global, e: &PolicyExpr) -> Result<u16, NoMemory>
        ensures { IfOk result (λ n. n ≡ expression_number (resolved_seen self.now) e.now) }
    {
        let policy = self.known.policy_of(alloc, e)?;
        Ok(self.number_of(&policy))
    }

    /// The same, where an omitted policy is `bottom`.
    #[tactic(auto, unfolding(par_resolved::specs::Resolved::may_number))]
    pub fn may_number(&self, alloc: Global, e: Option<&PolicyExpr>) -> Result<u16, NoMemory>
        ensures { IfOk result (λ n.
            n ≡ may_number (resolved_seen self.now) (option_copied e.entry)) }
    {
        match e {
            None => Ok(0),
            Some(e) => self.expression_number(alloc, e),
        }
    }

    /// The number of the class of a name.
    pub fn class_number(&self, name: &Name) -> u16
        ensures { result ≡ numbers.number (resolved_seen self.now).classes name.now }
    {
        types::class_number(&self.classes, name)
    }

    /// The type that is written.
    pub fn type_of(&self, ty: &TypeTree) -> Ty
        ensures { result ≡ numbers.type_of (resolved_seen self.now).classes ty.now }
    {
        types::type_of(&self.classes, ty)
    }

    /// The type of a result.
    pub fn result_of(&self, result_type: &Option<TypeTree>) -> Ty
        ensures { result ≡ numbers.result_of (resolved_seen self.now).classes result_type.now }
    {
        types::result_of(&self.classes, result_type)
    }
}
