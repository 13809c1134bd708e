//! The rules on types of a whole program.

ghost use Rattle.std.specs.Prelude.{◌≡◌, None, OnOk, IfOk};
ghost use Rattle.par_tree.specs.Shown.{declared, all_declared, source};
ghost use Rattle.par_refusals.specs.First.{first_of};
ghost use Rattle.par_scope.specs.Names.{IsFewTable};
ghost use Rattle.par_type_rules.specs.Program.{declaration_faults, declarations_faults};
ghost use Rattle.par_type_rules.specs.Program.{type_faults};

use crate::methods::check_class;
use par_base::memory::NoMemory;
use par_completes::par_typed::table::Table;
use par_refusals::refusal::{Findings, Refusal};
use par_scope::index::TableIndex;
use par_tree::decl::{Decl, Program};
use std::alloc::Global;

#[tactic(auto, using(crate::proofs::MethodForms::found_in))]
fn check_decl(
    alloc: Global,
    table: &Table,
    names: &TableIndex<'_>,
    decl: &Decl,
    findings: &mut Findings,
) -> Result<(), NoMemory>
    ensures { OnOk result (findings.new
        ≡ first_of findings.old (declaration_faults table.now names.now (declared decl.now))) }
{
    match decl {
        Decl::Actors(_) | Decl::Lock(_) | Decl::Policy(_) => Ok(()),
        Decl::Class(class) => {
            let number = names.class(&class.id.name);
            check_class(alloc, table, names, number, class, findings)
        }
    }
}

#[tactic(auto, using(crate::proofs::MethodForms::found_in))]
fn check_decls(
    alloc: Global,
    table: &Table,
    names: &TableIndex<'_>,
    decls: &[Decl],
    findings: &mut Findings,
) -> Result<(), NoMemory>
    ensures { OnOk result (findings.new
        ≡ first_of findings.old
        (declarations_faults table.now names.now (all_declared decls.now))) }
{
    for decl in decls {
        check_decl(alloc, table, names, decl, findings)?;
    }
    Ok(())
}

// The same by names that are looked up in an index.
#[tactic(auto, using(par_refusals::proofs::First::firsts))]
fn first_broken(
    alloc: Global,
    table: &Table,
    names: &TableIndex<'_>,
    program: &Program,
) -> Result<Option<Refusal>, NoMemory>
    ensures { IfOk result (λ first. first
        ≡ first_of None (declarations_faults table.now names.now (source program.now))) }
{
    let mut findings = Findings::new();
    let decls = program.decls.as_slice();
    check_decls(alloc, table, names, decls, &mut findings)?;
    Ok(findings.first())
}

/// The first broken rule on types of a program, whose table this is: the one at the least place,
/// and there the least rule.
pub fn check_bodies(
    alloc: Global,
    table: &Table,
    program: &Program,
) -> Result<Option<Refusal>, NoMemory>
    requires { IsFewTable table.now }
    ensures { IfOk result (λ first.
        first ≡ first_of None (type_faults table.now (source program.now))) }
{
    let names = TableIndex::of(alloc, table)?;
    let first = first_broken(alloc, table, &names, program);
    drop(names);
    first
}
