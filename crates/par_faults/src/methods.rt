//! The rules on names in methods.

ghost use Rattle.std.specs.Prelude.{◌≡◌, flat_map, OnOk};
ghost use Rattle.par_tree.specs.Shown as tree;
ghost use Rattle.par_refusals.specs.First.{first_of};
ghost use Rattle.par_names.specs.Methods.{head_faults, method_faults};
ghost use Rattle.par_faults.specs.Heads.{signature_faults, mark_faults, thrown_faults};
ghost use Rattle.par_names.specs.Seen.{seen, class_seen};

use crate::members::{check_effects, check_items, check_params, check_policies, check_throws};
use par_lexer::memory::NoMemory;
use par_names::{ClassNames, Home, View, check_body, check_locks, check_may_policy, check_result};
use par_refusals::refusal::Findings;
use par_tree::decl::MethodDecl;
use std::alloc::Global;

#[tactic(auto, using(par_names::proofs::Noted::note))]
fn check_signature(
    alloc: Global,
    view: &View<'_>,
    method: &MethodDecl,
    findings: &mut Findings,
) -> Result<(), NoMemory>
    ensures { OnOk result (findings.new
        ≡ first_of findings.old (signature_faults (seen view.now) (tree.method method.now))) }
{
    let params = method.params.as_slice();
    check_may_policy(view, &method.policy, findings);
    check_result(view, &method.result, findings);
    check_items(alloc, params, findings)?;
    check_params(view, params, findings);
    Ok(())
}

#[tactic(auto, using(par_names::proofs::Noted::note))]
fn check_marks(view: &View<'_>, method: &MethodDecl, findings: &mut Findings)
    ensures { findings.new
        ≡ first_of findings.old (mark_faults (seen view.now) (tree.method method.now)) }
{
    let effects = method.effects.as_slice();
    check_effects(effects, findings);
    check_policies(view, effects, findings);
    check_locks(view, method.expects.as_slice(), findings);
    check_locks(view, method.opens.as_slice(), findings);
    check_locks(view, method.closes.as_slice(), findings);
}

#[tactic(auto, using(par_names::proofs::Noted::note))]
fn check_thrown(
    alloc: Global,
    view: &View<'_>,
    method: &MethodDecl,
    findings: &mut Findings,
) -> Result<(), NoMemory>
    ensures { OnOk result (findings.new
        ≡ first_of findings.old (thrown_faults (seen view.now) (tree.method method.now))) }
{
    let throws = method.throws.as_slice();
    check_items(alloc, throws, findings)?;
    check_throws(view, throws, findings);
    Ok(())
}

// What stands before the body.
#[tactic(auto, using(par_names::proofs::Noted::note))]
fn check_head(
    alloc: Global,
    view: &View<'_>,
    method: &MethodDecl,
    findings: &mut Findings,
) -> Result<(), NoMemory>
    ensures { OnOk result (findings.new
        ≡ first_of findings.old (head_faults (seen view.now) (tree.method method.now))) }
{
    check_signature(alloc, view, method, findings)?;
    check_marks(view, method, findings);
    check_thrown(alloc, view, method, findings)?;
    Ok(())
}

#[tactic(auto, using(par_names::proofs::Noted::note))]
fn check_method(
    alloc: Global,
    view: &View<'_>,
    own: &ClassNames<'_>,
    method: &MethodDecl,
    findings: &mut Findings,
) -> Result<(), NoMemory>
    ensures { OnOk result (findings.new ≡ first_of findings.old
        (method_faults (seen view.now) (class_seen own.now) (tree.method method.now))) }
{
    check_head(alloc, view, method, findings)?;
    let home = Home {
        own,
        is_static: method.is_static,
    };
    let params = method.params.as_slice();
    check_body(alloc, view, &home, params, &method.body, findings)?;
    Ok(())
}

/// Notes the broken rules of methods of a class.
#[tactic(auto, using(par_refusals::proofs::First::firsts))]
pub fn check_methods(
    alloc: Global,
    view: &View<'_>,
    own: &ClassNames<'_>,
    methods: &[MethodDecl],
    findings: &mut Findings,
) -> Result<(), NoMemory>
    ensures { OnOk result (findings.new ≡ first_of findings.old (flat_map
        (method_faults (seen view.now) (class_seen own.now)) (tree.methods methods.now))) }
{
    for method in methods {
        check_method(alloc, view, own, method, findings)?;
    }
    Ok(())
}
