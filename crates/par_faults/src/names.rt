//! The rules on names, over a whole program.

ghost use Rattle.std.specs.Prelude.{◌≡◌, ◌≤◌, [], None, length, map, OnOk, IfOk};
ghost use Rattle.par_tree.specs.Shown.{source, class_of, declared};
ghost use Rattle.par_refusals.specs.First.{first_of};
ghost use Rattle.par_names.specs.Declarations as names;
ghost use Rattle.par_names.specs.Declarations.{doubles, policies_in};
ghost use Rattle.par_names.specs.Program.{program_doubles, declaration_faults};
ghost use Rattle.par_names.specs.Program.{declarations_faults, name_faults};
ghost use Rattle.par_names.specs.Seen.{seen, ShowsProgram};

use crate::classes::check_class;
use crate::mains::check_mains;
use par_lexer::memory::NoMemory;
use par_names::{
    Declared, Named, View, actors, builtin_classes, check_doubles, check_may_policy, check_policy,
    classes, locks, policies, push_named,
};
use par_refusals::refusal::{Findings, Refusal};
use par_tree::decl::{ClassDecl, Decl, Program};
use std::alloc::Global;

// Notes each of these, which stand apart, before which another one has its name.
#[tactic(auto, using(par_names::proofs::Noted::note))]
fn check_named<T: Named>(
    alloc: Global,
    items: &[&T],
    findings: &mut Findings,
) -> Result<(), NoMemory>
    ensures { OnOk result (findings.new ≡ first_of findings.old
        (doubles (map T.named (map (λ item. item.now) items.now)))) }
{
    let mut ids = Vec::new(alloc);
    push_named(&mut ids, items)?;
    check_doubles(alloc, ids.as_slice(), findings)
}

// A second class of a name, also of one that every program has.
#[tactic(auto, using(crate::proofs::Listed::class_ids))]
fn check_class_names(
    alloc: Global,
    builtins: &[ClassDecl],
    program: &Program,
    findings: &mut Findings,
) -> Result<(), NoMemory>
    requires { map class_of builtins.now ≡ names.builtins }
    ensures { OnOk result (findings.new ≡ first_of findings.old
        (doubles (map (λ c. c.id) (names.classes (source program.now))))) }
{
    let classes = classes(alloc, builtins, program)?;
    check_named(alloc, classes.as_slice(), findings)
}

// The second declarations of a name.
#[tactic(auto, using(par_names::proofs::Noted::note))]
fn check_second(
    alloc: Global,
    builtins: &[ClassDecl],
    program: &Program,
    findings: &mut Findings,
) -> Result<(), NoMemory>
    requires { map class_of builtins.now ≡ names.builtins }
    ensures { OnOk result (findings.new
        ≡ first_of findings.old (program_doubles (source program.now))) }
{
    let actors = actors(alloc, program)?;
    check_doubles(alloc, actors.as_slice(), findings)?;
    let locks = locks(alloc, program)?;
    check_named(alloc, locks.as_slice(), findings)?;
    let policies = policies(alloc, program)?;
    check_named(alloc, policies.as_slice(), findings)?;
    check_class_names(alloc, builtins, program, findings)
}

#[tactic(auto, using(par_names::proofs::Noted::note))]
fn check_declaration(
    alloc: Global,
    view: &View<'_>,
    decl: &Decl,
    findings: &mut Findings,
) -> Result<(), NoMemory>
    ensures { OnOk result (findings.new
        ≡ first_of findings.old (declaration_faults (seen view.now) (declared decl.now))) }
{
    match decl {
        Decl::Actors(_) => {}
        Decl::Lock(lock) => check_may_policy(view, &lock.policy, findings),
        Decl::Policy(policy) => check_policy(view, &policy.policy, findings),
        Decl::Class(class) => check_class(alloc, view, class, findings)?,
    }
    Ok(())
}

// How many policies it declares.
fn number_of_policies(decl: &Decl) -> usize
    ensures number { result ≡ length (policies_in (declared decl.now)) }
    ensures few { result ≤ 1 }
{
    match decl {
        Decl::Policy(_) => 1,
        Decl::Actors(_) | Decl::Lock(_) | Decl::Class(_) => 0,
    }
}

// Each declaration sees the policies before it.
fn check_declarations(
    alloc: Global,
    all: &Declared<'_>,
    program: &Program,
    findings: &mut Findings,
) -> Result<(), NoMemory>
    requires { ShowsProgram names.builtins (source program.now) all.now }
    ensures { OnOk result (findings.new ≡ first_of findings.old
        (declarations_faults (source program.now) [] (source program.now))) }
{
    let mut before = 0;
    for decl in program.decls.as_slice() {
        let view = View {
            declared: &*all,
            policies: before,
        };
        check_declaration(alloc, &view, decl, findings)?;
        before += number_of_policies(decl);
    }
    Ok(())
}

// Notes the broken rules on names of a program, of which all this is declared.
#[tactic(auto, using(par_names::proofs::Noted::note))]
fn check_names(
    alloc: Global,
    builtins: &[ClassDecl],
    all: &Declared<'_>,
    program: &Program,
    findings: &mut Findings,
) -> Result<(), NoMemory>
    requires builtins { map class_of builtins.now ≡ names.builtins }
    requires shown { ShowsProgram names.builtins (source program.now) all.now }
    ensures { OnOk result (findings.new
        ≡ first_of findings.old (name_faults (source program.now))) }
{
    check_second(alloc, builtins, program, findings)?;
    check_declarations(alloc, all, program, findings)?;
    check_mains(alloc, program, findings)
}

// The first broken rule on names of a program, of which all this is declared.
fn first_noted(
    alloc: Global,
    builtins: &[ClassDecl],
    all: &Declared<'_>,
    program: &Program,
) -> Result<Option<Refusal>, NoMemory>
    requires builtins { map class_of builtins.now ≡ names.builtins }
    requires shown { ShowsProgram names.builtins (source program.now) all.now }
    ensures { IfOk result (λ first. first ≡ first_of None (name_faults (source program.now))) }
{
    let mut findings = Findings::new();
    check_names(alloc, builtins, all, program, &mut findings)?;
    Ok(findings.first())
}

fn first_broken(
    alloc: Global,
    builtins: &[ClassDecl],
    program: &Program,
) -> Result<Option<Refusal>, NoMemory>
    requires { map class_of builtins.now ≡ names.builtins }
    ensures { IfOk result (λ first. first ≡ first_of None (name_faults (source program.now))) }
{
    let all = Declared::of(alloc, builtins, program)?;
    let first = first_noted(alloc, builtins, &all, program);
    drop(all);
    first
}

/// The first broken rule on names of a program.
pub fn first_broken_name(alloc: Global, program: &Program) -> Result<Option<Refusal>, NoMemory>
    ensures { IfOk result (λ first. first ≡ first_of None (name_faults (source program.now))) }
{
    let builtins = builtin_classes(alloc)?;
    first_broken(alloc, builtins.as_slice(), program)
}
