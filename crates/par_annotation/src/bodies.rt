//! The typed bodies of a program.

ghost use Rattle.std.specs.Prelude.{◌≡◌, ◌+◌, ◌<◌, ◌^◌, ◌++◌, length, IfOk, OnOk};
ghost use Rattle.par_tree.specs.Shown as tree;
ghost use Rattle.par_typed.specs.Shown.{body, bodies};
ghost use Rattle.par_scope.specs.Home.{seen, class_named};
ghost use Rattle.par_scope.specs.Names.{IsFewTable, names_of};
ghost use Rattle.par_type_rules.specs.Methods.{param_slot};
ghost use Rattle.par_type_rules.specs.TypedBodies as is;
ghost use Rattle.par_annotation.specs.Seen.{frame_seen};
ghost use Rattle.par_annotation.specs.Numbers.{written_by};
ghost use Rattle.par_annotation.specs.Small.{IsSmall, AreSmall, IsSmallClass};
ghost use Rattle.par_annotation.specs.Small.{IsSmallDeclaration, IsSmallSource};

use crate::frame::Frame;
use crate::node::numbered;
use crate::stmts::type_block;
use crate::written::Numbering;
use par_base::list::List;
use par_base::memory::NoMemory;
use par_scope::home::{Home, result_written, type_written};
use par_scope::index::TableIndex;
use par_scope::locals::Slot;
use par_tree::decl::{ClassDecl, Decl, MethodDecl, ParamDecl, Program};
use par_typed::program::TBody;
use par_typed::table::Table;
use std::alloc::Global;

fn param_slot(home: &Home<'_>, param: &ParamDecl) -> Slot
    ensures { result ≡ param_slot (seen home.now) param.now }
{
    Slot {
        ty: type_written(home.names, &param.ty),
        notnull: param.notnull,
    }
}

#[tactic(auto, using(crate::proofs::BodyForms::typed_bodies))]
fn declare_params<'a>(
    home: &Home<'_>,
    frame: &mut Frame<'a>,
    params: &'a [ParamDecl],
) -> Result<(), NoMemory>
    requires { frame.old.next + length params.now < 2 ^ 16 }
    ensures declared { OnOk result (frame_seen frame.new
        ≡ is.with_params (seen home.now) (frame_seen frame.old) params.now) }
    ensures counted { OnOk result (frame.new.next ≡ frame.old.next + length params.now) }
{
    for param in params {
        frame.declare(&param.id.name, param_slot(home, param), None)?;
    }
    Ok(())
}

// The typed body of a method, in a frame with no locals but `this`.
#[tactic(auto, using(crate::proofs::BodyForms::typed_bodies))]
fn type_within<'a>(
    alloc: Global,
    home: &Home<'_>,
    numbering: &Numbering<'_>,
    frame: &mut Frame<'a>,
    decl: &'a MethodDecl,
) -> Result<TBody, NoMemory>
    requires empty { frame_seen frame.old ≡ is.no_frame decl.now.is_static }
    requires small { IsSmall (tree.method decl.now) }
    ensures { IfOk result (λ b. body b
        ≡ is.typed_body (written_by numbering.now) (seen home.now) (tree.method decl.now)) }
{
    declare_params(home, frame, decl.params.as_slice())?;
    let mut next = 0;
    let body = type_block(alloc, home, numbering, frame, &mut next, &decl.body)?;
    Ok(TBody {
        class: home.class,
        method: numbered(home.names.method(home.class, &decl.id.name)),
        body,
    })
}

// The typed body of a method, where it stands.
fn type_body(
    alloc: Global,
    home: &Home<'_>,
    numbering: &Numbering<'_>,
    decl: &MethodDecl,
) -> Result<TBody, NoMemory>
    requires { IsSmall (tree.method decl.now) }
    ensures { IfOk result (λ b. body b
        ≡ is.typed_body (written_by numbering.now) (seen home.now) (tree.method decl.now)) }
{
    let mut frame = Frame::new(alloc, decl.is_static);
    let body = type_within(alloc, home, numbering, &mut frame, decl);
    drop(frame);
    body
}

// The typed body of a method of the class of this number.
#[tactic(auto, using(crate::proofs::BodyForms::typed_bodies))]
fn type_method(
    alloc: Global,
    table: &Table,
    names: &TableIndex<'_>,
    numbering: &Numbering<'_>,
    class: u16,
    decl: &MethodDecl,
) -> Result<TBody, NoMemory>
    requires { IsSmall (tree.method decl.now) }
    ensures { IfOk result (λ b. body b
        ≡ is.typed_method (written_by numbering.now) table.now names.now class
        (tree.method decl.now)) }
{
    let home = Home {
        table,
        names,
        class,
        result: result_written(names, &decl.result),
    };
    type_body(alloc, &home, numbering, decl)
}

#[tactic(auto, using(crate::proofs::BodyForms::typed_bodies))]
fn type_methods(
    alloc: Global,
    table: &Table,
    names: &TableIndex<'_>,
    numbering: &Numbering<'_>,
    class: u16,
    decls: &[MethodDecl],
    found: &mut List<TBody>,
) -> Result<(), NoMemory>
    requires { AreSmall (tree.methods decls.now) }
    ensures { OnOk result (bodies found.new
        ≡ bodies found.old
        ++ is.typed_methods (written_by numbering.now) table.now names.now class
        (tree.methods decls.now)) }
{
    for decl in decls {
        let body = type_method(alloc, table, names, numbering, class, decl)?;
        found.push(body)?;
    }
    Ok(())
}

#[tactic(auto, using(crate::proofs::BodyForms::typed_bodies))]
fn type_class(
    alloc: Global,
    table: &Table,
    names: &TableIndex<'_>,
    numbering: &Numbering<'_>,
    decl: &ClassDecl,
    found: &mut List<TBody>,
) -> Result<(), NoMemory>
    requires { IsSmallClass (class_named names.now decl.now.id.name) (tree.class_of decl.now) }
    ensures { OnOk result (bodies found.new
        ≡ bodies found.old
        ++ is.typed_class (written_by numbering.now) table.now names.now
        (class_named names.now decl.now.id.name) (tree.class_of decl.now)) }
{
    match names.class(&decl.id.name) {
        None => Ok(()),
        Some(class) => {
            let decls = decl.methods.as_slice();
            type_methods(alloc, table, names, numbering, class, decls, found)
        }
    }
}

#[tactic(auto, using(crate::proofs::BodyForms::typed_bodies))]
fn type_decl(
    alloc: Global,
    table: &Table,
    names: &TableIndex<'_>,
    numbering: &Numbering<'_>,
    decl: &Decl,
    found: &mut List<TBody>,
) -> Result<(), NoMemory>
    requires { IsSmallDeclaration names.now (tree.declared decl.now) }
    ensures { OnOk result (bodies found.new
        ≡ bodies found.old
        ++ is.typed_declaration (written_by numbering.now) table.now names.now
        (tree.declared decl.now)) }
{
    match decl {
        Decl::Actors(_) | Decl::Lock(_) | Decl::Policy(_) => Ok(()),
        Decl::Class(class) => type_class(alloc, table, names, numbering, class, found),
    }
}

#[tactic(auto, using(crate::proofs::BodyForms::typed_bodies))]
fn type_decls(
    alloc: Global,
    table: &Table,
    names: &TableIndex<'_>,
    numbering: &Numbering<'_>,
    decls: &[Decl],
    found: &mut List<TBody>,
) -> Result<(), NoMemory>
    requires { IsSmallSource names.now (tree.all_declared decls.now) }
    ensures { OnOk result (bodies found.new
        ≡ bodies found.old
        ++ is.typed_declarations (written_by numbering.now) table.now names.now
        (tree.all_declared decls.now)) }
{
    for decl in decls {
        type_decl(alloc, table, names, numbering, decl, found)?;
    }
    Ok(())
}

#[tactic(auto, using(crate::proofs::BodyForms::typed_bodies))]
fn type_all(
    alloc: Global,
    table: &Table,
    names: &TableIndex<'_>,
    numbering: &Numbering<'_>,
    decls: &[Decl],
) -> Result<List<TBody>, NoMemory>
    requires { IsSmallSource names.now (tree.all_declared decls.now) }
    ensures { IfOk result (λ found. bodies found
        ≡ is.typed_declarations (written_by numbering.now) table.now names.now
        (tree.all_declared decls.now)) }
{
    let mut found = List::new(alloc);
    type_decls(alloc, table, names, numbering, decls, &mut found)?;
    Ok(found)
}

/// The typed bodies of all methods of a program, in the order of the source.
#[tactic(auto, using(crate::proofs::BodyForms::typed_bodies))]
pub fn type_bodies(
    alloc: Global,
    table: &Table,
    program: &Program,
    numbering: &Numbering<'_>,
) -> Result<List<TBody>, NoMemory>
    requires few { IsFewTable table.now }
    requires small { IsSmallSource (names_of table.now) (tree.source program.now) }
    ensures { IfOk result (λ found. bodies found
        ≡ is.typed_program (written_by numbering.now) table.now (tree.source program.now)) }
{
    let names = TableIndex::of(alloc, table)?;
    type_all(alloc, table, &names, numbering, program.decls.as_slice())
}
