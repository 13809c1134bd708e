//! The method where a program begins.

ghost use Rattle.std.specs.Prelude.{◌≡◌, ◌++◌, map, flat_map, drop, OnOk, IfOk};
ghost use Rattle.par_tree.specs.Shown as tree;
ghost use Rattle.par_tree.specs.Shown.{source};
ghost use Rattle.par_refusals.specs.First.{first_of};
ghost use Rattle.par_names.specs.Program.{mains, main_fault, mains_faults};
ghost use Rattle.par_faults.specs.Mains.{is_main, mains_in, second_main};

use crate::rule::WRONG_MAIN;
use par_lexer::memory::NoMemory;
use par_refusals::refusal::Findings;
use par_tree::decl::{Decl, MethodDecl, Program};
use std::alloc::Global;

fn is_main(method: &MethodDecl) -> bool
    ensures { result ≡ is_main (tree.method method.now) }
{
    method.id.name.bytes() == b"main".as_slice()
}

fn push_mains<'a>(
    found: &mut Vec<&'a MethodDecl>,
    methods: &'a [MethodDecl],
) -> Result<(), NoMemory>
    ensures { OnOk result (map (λ m. tree.method m.now) found.new.items
        ≡ map (λ m. tree.method m.now) found.old.items ++ mains_in (tree.methods methods.now)) }
{
    for method in methods {
        if is_main(method) {
            found.push(method)?;
        }
    }
    Ok(())
}

// All methods of the name.
fn mains(alloc: Global, program: &Program) -> Result<Vec<&MethodDecl>, NoMemory>
    ensures { IfOk result (λ found.
        map (λ m. tree.method m.now) found.items ≡ mains (source program.now)) }
{
    let mut found = Vec::new(alloc);
    for decl in program.decls.as_slice() {
        match decl {
            Decl::Class(class) => push_mains(&mut found, class.methods.as_slice())?,
            Decl::Actors(_) | Decl::Lock(_) | Decl::Policy(_) => {}
        }
    }
    Ok(found)
}

fn check_main(method: &MethodDecl, findings: &mut Findings)
    ensures { findings.new ≡ first_of findings.old (main_fault (tree.method method.now)) }
{
    let is_plain = method.result.is_none() && method.params.len() == 0;
    let is_right = method.is_static && is_plain && method.expects.len() == 0;
    findings.expect(is_right, WRONG_MAIN, method.id.at);
}

#[tactic(auto, using(par_names::proofs::Noted::note))]
fn check_each(mains: &[&MethodDecl], findings: &mut Findings)
    ensures { findings.new ≡ first_of findings.old
        (flat_map main_fault (map (λ m. tree.method m.now) mains.now)) }
{
    for main in mains {
        check_main(main, findings);
    }
}

#[tactic(auto, using(par_names::proofs::Noted::note))]
fn refuse_each(mains: &[&MethodDecl], findings: &mut Findings)
    ensures { findings.new ≡ first_of findings.old
        (flat_map second_main (map (λ m. tree.method m.now) mains.now)) }
{
    for main in mains {
        findings.expect(false, WRONG_MAIN, main.id.at);
    }
}

#[tactic(auto, using(par_names::proofs::Noted::note))]
fn refuse_further(mains: &[&MethodDecl], findings: &mut Findings)
    ensures { findings.new ≡ first_of findings.old
        (flat_map second_main (drop 1 (map (λ m. tree.method m.now) mains.now))) }
{
    match mains {
        [] => {}
        [_, further @ ..] => refuse_each(further, findings),
    }
}

#[tactic(auto, using(par_names::proofs::Noted::note))]
fn check_all(mains: &[&MethodDecl], findings: &mut Findings)
    ensures { findings.new
        ≡ first_of findings.old (mains_faults (map (λ m. tree.method m.now) mains.now)) }
{
    findings.expect(mains.len() != 0, WRONG_MAIN, 0);
    check_each(mains, findings);
    refuse_further(mains, findings);
}

/// Notes the broken rules of the methods `main`.
pub fn check_mains(
    alloc: Global,
    program: &Program,
    findings: &mut Findings,
) -> Result<(), NoMemory>
    ensures { OnOk result (findings.new
        ≡ first_of findings.old (mains_faults (mains (source program.now)))) }
{
    let mains = mains(alloc, program)?;
    check_all(mains.as_slice(), findings);
    Ok(())
}
