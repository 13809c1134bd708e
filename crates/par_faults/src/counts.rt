//! The limits that are counted, over a whole program.

ghost use Rattle.std.specs.Prelude.{◌≡◌, ◌<◌, ◌≤◌, ◌^◌, OnOk, flat_map, length, sum_by};
ghost use Rattle.par_lexer.specs.declared.cut.TheConstants.{LONGEST_SOURCE};
ghost use Rattle.par_tree.specs.Nodes.{method_nodes};
ghost use Rattle.par_tree.specs.Shown as tree;
ghost use Rattle.par_tree.specs.Shown.{all_declared, class_of, source};
ghost use Rattle.par_parser.specs.Bodies.{method_size, methods_size, source_size};
ghost use Rattle.par_names.specs.Declarations.{classes_in, locks};
ghost use Rattle.par_refusals.specs.First.{first_of, in_passes};
ghost use Rattle.par_faults.specs.Limits.{one_too_many, locks_limit, declared_limits};
ghost use Rattle.par_faults.specs.Limits.{method_limits, class_limits, class_counts};

use crate::limit::{
    ACTORS, CLASS_NODES, CLASSES, LOCALS, MEMBERS, METHODS, NODES, PARAMS, expect_within,
};
use crate::locals::locals;
use crate::locks::check_locks;
use crate::places::{actor_places, check_places, class_places, member_places, method_places};
use par_lexer::memory::NoMemory;
use par_refusals::refusal::Findings;
use par_tree::decl::{ClassDecl, Decl, MethodDecl, Program};
use par_tree::nodes::nodes;
use std::alloc::Global;

#[tactic(auto, using(par_refusals::proofs::First::firsts))]
fn check_method(method: &MethodDecl, findings: &mut Findings)
    requires { method_size (tree.method method.now) < 2 ^ 32 }
    ensures { findings.new ≡ first_of findings.old (method_limits (tree.method method.now)) }
{
    let at = method.id.at;
    expect_within(NODES, nodes(method), at, findings);
    expect_within(PARAMS, method.params.len() as u32, at, findings);
    expect_within(LOCALS, locals(method), at, findings);
}

#[tactic(auto, using(par_refusals::proofs::First::firsts))]
fn check_methods(methods: &[MethodDecl], findings: &mut Findings)
    requires { methods_size (tree.methods methods.now) < 2 ^ 32 }
    ensures { findings.new
        ≡ first_of findings.old (flat_map method_limits (tree.methods methods.now)) }
{
    for method in methods {
        check_method(method, findings);
    }
}

// The nodes of all these methods.
fn all_nodes(methods: &[MethodDecl]) -> u32
    requires { methods_size (tree.methods methods.now) < 2 ^ 32 }
    ensures { result ≡ sum_by method_nodes (tree.methods methods.now) }
{
    let mut count = 0;
    for method in methods {
        count += nodes(method);
    }
    count
}

#[tactic(auto, using(par_refusals::proofs::First::firsts))]
fn check_class(alloc: Global, class: &ClassDecl, findings: &mut Findings) -> Result<(), NoMemory>
    requires { methods_size (tree.methods class.now.methods) < 2 ^ 32 }
    ensures { OnOk result (findings.new
        ≡ first_of findings.old (class_limits (class_of class.now))) }
{
    let methods = class.methods.as_slice();
    let members = member_places(alloc, class)?;
    check_places(MEMBERS, members.as_slice(), findings);
    let places = method_places(alloc, methods)?;
    check_places(METHODS, places.as_slice(), findings);
    expect_within(CLASS_NODES, all_nodes(methods), class.id.at, findings);
    check_methods(methods, findings);
    Ok(())
}

#[tactic(auto, using(par_refusals::proofs::First::firsts))]
fn check_classes(alloc: Global, decls: &[Decl], findings: &mut Findings) -> Result<(), NoMemory>
    requires { source_size (all_declared decls.now) < 2 ^ 32 }
    ensures { OnOk result (findings.new ≡ first_of findings.old
        (flat_map class_limits (flat_map classes_in (all_declared decls.now)))) }
{
    for decl in decls {
        match decl {
            Decl::Class(class) => check_class(alloc, class, findings)?,
            Decl::Actors(_) | Decl::Lock(_) | Decl::Policy(_) => {}
        }
    }
    Ok(())
}

// The actors at these places, and where they are within their limit, the locks.
fn check_actors(places: &[u32], decls: &[Decl], findings: &mut Findings)
    ensures { findings.new ≡ first_of findings.old (in_passes (one_too_many ACTORS places.now)
        (locks_limit (length places.now) 0 (locks (all_declared decls.now)))) }
{
    check_places(ACTORS, places, findings);
    if places.len() <= ACTORS.most as usize {
        check_locks(places.len() as u32, decls, findings);
    }
}

/// Notes the limits of actors and of locks that these declarations exceed.
pub fn check_declared(
    alloc: Global,
    decls: &[Decl],
    findings: &mut Findings,
) -> Result<(), NoMemory>
    ensures { OnOk result (findings.new
        ≡ first_of findings.old (declared_limits (all_declared decls.now))) }
{
    let actors = actor_places(alloc, decls)?;
    check_actors(actors.as_slice(), decls, findings);
    Ok(())
}

/// Notes the limits of classes, and of what is counted in them, that a program exceeds.
#[tactic(auto, using(par_refusals::proofs::First::firsts))]
pub fn check_class_counts(
    alloc: Global,
    program: &Program,
    findings: &mut Findings,
) -> Result<(), NoMemory>
    requires { source_size (source program.now) ≤ LONGEST_SOURCE }
    ensures { OnOk result (findings.new
        ≡ first_of findings.old (class_counts (source program.now))) }
{
    let decls = program.decls.as_slice();
    let classes = class_places(alloc, decls)?;
    check_places(CLASSES, classes.as_slice(), findings);
    check_classes(alloc, decls, findings)
}
