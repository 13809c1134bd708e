//! The rules on types in the members of a class.

ghost use Rattle.std.specs.Prelude.{◌≡◌, OnOk};
ghost use Rattle.par_tree.specs.Shown.{method, methods, class_of};
ghost use Rattle.par_refusals.specs.First.{first_of};
ghost use Rattle.par_scope.specs.Home.{seen};
ghost use Rattle.par_scope.specs.Locals.{no_locals};
ghost use Rattle.par_type_rules.specs.Methods as is;

use crate::fits::is_void;
use crate::stmts::{check_block, check_thrown, check_type};
use par_base::memory::NoMemory;
use par_completes::block_completes;
use par_completes::par_typed::table::Table;
use par_refusals::refusal::Findings;
use par_scope::home::{Home, result_written, type_written};
use par_scope::index::TableIndex;
use par_scope::locals::{Locals, Slot};
use par_tree::decl::{ClassDecl, FieldDecl, MethodDecl, ParamDecl, ThrowDecl};
use par_tree::types::TypeTree;
use std::alloc::Global;

fn param_slot(home: &Home<'_>, param: &ParamDecl) -> Slot
    ensures { result ≡ is.param_slot (seen home.now) param.now }
{
    Slot {
        ty: type_written(home.names, &param.ty),
        notnull: param.notnull,
    }
}

#[tactic(auto, using(crate::proofs::MethodForms::found_in))]
fn declare_params<'a>(
    home: &Home<'_>,
    locals: &mut Locals<'a>,
    params: &'a [ParamDecl],
) -> Result<(), NoMemory>
    ensures { OnOk result (
        locals.new ≡ is.with_params (seen home.now) locals.old params.now) }
{
    for param in params {
        locals.declare(&param.id.name, param_slot(home, param))?;
    }
    Ok(())
}

#[tactic(auto, using(crate::proofs::MethodForms::found_in))]
fn check_params(home: &Home<'_>, params: &[ParamDecl], findings: &mut Findings)
    ensures { findings.new
        ≡ first_of findings.old (is.params_faults (seen home.now) params.now) }
{
    for param in params {
        check_type(home, &param.ty, findings);
    }
}

#[tactic(auto, using(crate::proofs::MethodForms::found_in))]
fn check_throws(home: &Home<'_>, throws: &[ThrowDecl], findings: &mut Findings)
    ensures { findings.new
        ≡ first_of findings.old (is.throws_faults (seen home.now) throws.now) }
{
    for throw in throws {
        check_thrown(home, &throw.class, findings);
    }
}

#[tactic(auto, using(crate::proofs::MethodForms::found_in))]
fn check_fields(home: &Home<'_>, fields: &[FieldDecl], findings: &mut Findings)
    ensures { findings.new
        ≡ first_of findings.old (is.fields_faults (seen home.now) fields.now) }
{
    for field in fields {
        check_type(home, &field.ty, findings);
    }
}

#[tactic(auto, using(crate::proofs::MethodForms::found_in))]
fn check_result(home: &Home<'_>, ty: &Option<TypeTree>, findings: &mut Findings)
    ensures { findings.new
        ≡ first_of findings.old (is.result_fault (seen home.now) ty.now) }
{
    match ty {
        None => {}
        Some(ty) => check_type(home, ty, findings),
    }
}

// What stands in a body, before which no local is in scope.
#[tactic(auto, using(crate::proofs::MethodForms::found_in))]
fn check_within<'a>(
    home: &Home<'_>,
    locals: &mut Locals<'a>,
    decl: &'a MethodDecl,
    findings: &mut Findings,
) -> Result<(), NoMemory>
    requires { locals.old ≡ no_locals }
    ensures { OnOk result (findings.new
        ≡ first_of findings.old (is.inner_faults (seen home.now) (method decl.now))) }
{
    declare_params(home, locals, decl.params.as_slice())?;
    check_block(home, false, locals, &decl.body, findings)?;
    let ends = is_void(home.result) || !block_completes(&decl.body);
    findings.expect(ends, 203, decl.id.at);
    Ok(())
}

#[tactic(auto, using(crate::proofs::MethodForms::found_in))]
fn check_body(
    alloc: Global,
    home: &Home<'_>,
    decl: &MethodDecl,
    findings: &mut Findings,
) -> Result<(), NoMemory>
    ensures { OnOk result (findings.new
        ≡ first_of findings.old (is.body_faults (seen home.now) (method decl.now))) }
{
    check_result(home, &decl.result, findings);
    check_params(home, decl.params.as_slice(), findings);
    check_throws(home, decl.throws.as_slice(), findings);
    let mut locals = Locals::new(alloc);
    let checked = check_within(home, &mut locals, decl, findings);
    drop(locals);
    checked
}

#[tactic(auto, using(crate::proofs::MethodForms::found_in))]
fn check_method(
    alloc: Global,
    table: &Table,
    names: &TableIndex<'_>,
    class: u16,
    decl: &MethodDecl,
    findings: &mut Findings,
) -> Result<(), NoMemory>
    ensures { OnOk result (findings.new
        ≡ first_of findings.old
        (is.method_faults table.now names.now class (method decl.now))) }
{
    let home = Home {
        table,
        names,
        class,
        result: result_written(names, &decl.result),
    };
    check_body(alloc, &home, decl, findings)
}

#[tactic(auto, using(crate::proofs::MethodForms::found_in))]
fn check_methods(
    alloc: Global,
    table: &Table,
    names: &TableIndex<'_>,
    class: u16,
    decls: &[MethodDecl],
    findings: &mut Findings,
) -> Result<(), NoMemory>
    ensures { OnOk result (findings.new
        ≡ first_of findings.old
        (is.methods_faults table.now names.now class (methods decls.now))) }
{
    for decl in decls {
        check_method(alloc, table, names, class, decl, findings)?;
    }
    Ok(())
}

/// Notes the broken rules of the class of this number.
#[tactic(auto, using(crate::proofs::MethodForms::found_in))]
pub(crate) fn check_class(
    alloc: Global,
    table: &Table,
    names: &TableIndex<'_>,
    class: Option<u16>,
    decl: &ClassDecl,
    findings: &mut Findings,
) -> Result<(), NoMemory>
    ensures { OnOk result (findings.new
        ≡ first_of findings.old
        (is.class_faults table.now names.now class (class_of decl.now))) }
{
    match class {
        None => Ok(()),
        Some(class) => {
            let home = Home {
                table,
                names,
                class,
                result: None,
            };
            check_fields(&home, decl.fields.as_slice(), findings);
            let methods = decl.methods.as_slice();
            check_methods(alloc, table, names, class, methods, findings)
        }
    }
}
