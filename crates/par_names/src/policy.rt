//! The rules on names in policies, locks and types.

ghost use Rattle.std.specs.Prelude.{◌≡◌};
ghost use Rattle.std.specs.List.{flat_map};
ghost use Rattle.par_refusals.specs.First.{first_of};
ghost use Rattle.par_names.specs.Policies.{actor_fault, arity_fault, lock_faults, clause_faults};
ghost use Rattle.par_names.specs.Policies.{term_faults, policy_faults, may_policy_faults};
ghost use Rattle.par_names.specs.Policies.{named_fault, class_fault, type_fault, result_fault};
ghost use Rattle.par_names.specs.Declarations.{lock_named};
ghost use Rattle.par_names.specs.Seen.{seen};

use crate::rule::{OTHER_ARITY, UNKNOWN_ACTOR, UNKNOWN_NAME};
use crate::view::View;
use par_refusals::refusal::Findings;
use par_tree::ident::Ident;
use par_tree::policy::{ClauseTree, LockTree, PolicyExpr, PolicyTerm};
use par_tree::types::TypeTree;

fn check_actor(view: &View<'_>, actor: &Ident, findings: &mut Findings)
    ensures { findings.new ≡ first_of findings.old (actor_fault (seen view.now) actor.now) }
{
    let is_known = view.declared.actors.has(&actor.name);
    findings.expect(is_known, UNKNOWN_ACTOR, actor.at);
}

#[tactic(auto, using(crate::proofs::Noted::note))]
fn check_actors(view: &View<'_>, actors: &[Ident], findings: &mut Findings)
    ensures { findings.new
        ≡ first_of findings.old (flat_map (actor_fault (seen view.now)) actors.now) }
{
    for actor in actors {
        check_actor(view, actor, findings);
    }
}

#[tactic(auto, using(crate::proofs::Noted::note), unfolding(crate::specs::Policies::arity_fault))]
fn check_arity(view: &View<'_>, lock: &LockTree, findings: &mut Findings)
    ensures { findings.new ≡ first_of findings.old
        (arity_fault (lock_named (seen view.now).locks lock.now.id.name) lock.now) }
{
    match view.declared.locks.named(&lock.id.name) {
        None => findings.expect(false, UNKNOWN_NAME, lock.id.at),
        Some(decl) => {
            let is_right = lock.actors.len() == usize::from(decl.arity);
            findings.expect(is_right, OTHER_ARITY, lock.id.at);
        }
    }
}

/// Notes the broken rules of a lock.
#[tactic(auto, using(crate::proofs::Noted::note))]
pub fn check_lock(view: &View<'_>, lock: &LockTree, findings: &mut Findings)
    ensures { findings.new ≡ first_of findings.old (lock_faults (seen view.now) lock.now) }
{
    check_arity(view, lock, findings);
    check_actors(view, lock.actors.as_slice(), findings);
}

/// Notes the broken rules of locks.
#[tactic(auto, using(crate::proofs::Noted::note))]
pub fn check_locks(view: &View<'_>, locks: &[LockTree], findings: &mut Findings)
    ensures { findings.new
        ≡ first_of findings.old (flat_map (lock_faults (seen view.now)) locks.now) }
{
    for lock in locks {
        check_lock(view, lock, findings);
    }
}

#[tactic(auto, using(crate::proofs::Noted::note))]
fn check_clause(view: &View<'_>, clause: &ClauseTree, findings: &mut Findings)
    ensures { findings.new ≡ first_of findings.old (clause_faults (seen view.now) clause.now) }
{
    check_actor(view, &clause.actor, findings);
    check_locks(view, clause.locks.as_slice(), findings);
}

#[tactic(auto, using(crate::proofs::Noted::note))]
fn check_clauses(view: &View<'_>, clauses: &[ClauseTree], findings: &mut Findings)
    ensures { findings.new
        ≡ first_of findings.old (flat_map (clause_faults (seen view.now)) clauses.now) }
{
    for clause in clauses {
        check_clause(view, clause, findings);
    }
}

// A policy that is declared further on is unknown.
fn check_named(view: &View<'_>, id: &Ident, findings: &mut Findings)
    ensures { findings.new ≡ first_of findings.old (named_fault (seen view.now) id.now) }
{
    let is_known = match view.declared.policies.place(&id.name) {
        None => false,
        Some(place) => place < view.policies,
    };
    findings.expect(is_known, UNKNOWN_NAME, id.at);
}

#[tactic(auto, using(crate::proofs::Noted::note), unfolding(crate::specs::Policies::term_faults))]
fn check_term(view: &View<'_>, term: &PolicyTerm, findings: &mut Findings)
    ensures { findings.new ≡ first_of findings.old (term_faults (seen view.now) term.now) }
{
    match term {
        PolicyTerm::Clauses(clauses) => check_clauses(view, clauses.as_slice(), findings),
        PolicyTerm::Named(id) => check_named(view, id, findings),
        PolicyTerm::Bottom | PolicyTerm::Top => {}
    }
}

/// Notes the broken rules of a policy.
#[tactic(auto, using(crate::proofs::Noted::note))]
pub fn check_policy(view: &View<'_>, policy: &PolicyExpr, findings: &mut Findings)
    ensures { findings.new ≡ first_of findings.old (policy_faults (seen view.now) policy.now) }
{
    for term in policy.terms.as_slice() {
        check_term(view, term, findings);
    }
}

/// Notes the broken rules of a policy, where one is written.
#[tactic(auto, using(crate::proofs::Noted::note_written))]
pub fn check_may_policy(view: &View<'_>, policy: &Option<PolicyExpr>, findings: &mut Findings)
    ensures { findings.new
        ≡ first_of findings.old (may_policy_faults (seen view.now) policy.now) }
{
    match policy {
        None => {}
        Some(policy) => check_policy(view, policy, findings),
    }
}

/// Notes a name that stands for no class.
pub fn check_class(view: &View<'_>, class: &Ident, findings: &mut Findings)
    ensures { findings.new ≡ first_of findings.old (class_fault (seen view.now) class.now) }
{
    let is_known = view.declared.classes.named(&class.name).is_some();
    findings.expect(is_known, UNKNOWN_NAME, class.at);
}

/// Notes a type that is no class.
#[tactic(auto, using(crate::proofs::Noted::note), unfolding(crate::specs::Policies::type_fault))]
pub fn check_type(view: &View<'_>, ty: &TypeTree, findings: &mut Findings)
    ensures { findings.new ≡ first_of findings.old (type_fault (seen view.now) ty.now) }
{
    match ty {
        TypeTree::Int(_) | TypeTree::Boolean(_) => {}
        TypeTree::Class(class) => check_class(view, class, findings),
    }
}

/// Notes a result that is no class. A void method has none.
#[tactic(auto, using(crate::proofs::Noted::note), unfolding(crate::specs::Policies::result_fault))]
pub fn check_result(view: &View<'_>, result_type: &Option<TypeTree>, findings: &mut Findings)
    ensures { findings.new
        ≡ first_of findings.old (result_fault (seen view.now) result_type.now) }
{
    match result_type {
        None => {}
        Some(ty) => check_type(view, ty, findings),
    }
}
