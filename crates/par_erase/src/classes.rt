//! Classes and methods without policies, and the plain program of a typed one.

ghost use Rattle.std.specs.Prelude.{◌≡◌, IfOk, map, drop};
ghost use Rattle.std.specs.List.{AllByRecursion};
ghost use Rattle.par_base.specs.Names.{IsName};
ghost use Rattle.par_typed.specs.par_policy.Numbers.{has};
ghost use Rattle.par_typed.specs.Shown.{bodies};
ghost use Rattle.par_erase.specs.Shown.{does, field_info, method_info, param_info, class_info};
ghost use Rattle.par_erase.specs.Shown.{own_bodies};
ghost use Rattle.par_erase.specs.Named.{IsNamed, AreNamed};
ghost use Rattle.par_erase.specs.Shown.{class_bodies, table_of, bodies_of};
ghost use Rattle.par_erase.specs.Erased.{inputs_in, inputs_among, outputs_among, erased_param};
ghost use Rattle.par_erase.specs.Erased.{erased_field};
ghost use Rattle.par_erase.specs.Erased.{erased_method, erased_class};
ghost use Rattle.par_erase.specs.Erased.{erased_table, erased_bodies, first_body, handed};
ghost use Rattle.par_erase.specs.Erased.{classes_bodies};

use crate::asked::asked_in;
use crate::members::{
    ChannelNames, copy_name, copy_types, erase_fields, erase_params, part_channels,
};
use crate::program::{Plain, PlainClass, PlainField, PlainMethod};
use crate::stmt::PStmt;
use crate::stmts::erase_stmt;
use par_base::list::List;
use par_base::memory::NoMemory;
use par_base::name::Name;
use par_typed::par_policy::Lockset;
use par_typed::program::{TBody, Typed};
use par_typed::table::{ClassInfo, MethodInfo, Table};
use par_typed::ty::Ty;
use std::alloc::Global;

// What is left of the body at this place; where none is, nothing is done.
#[tactic(auto, using(crate::proofs::Bodies::hands))]
fn erase_body(
    alloc: Global,
    table: &Table,
    asked: &Lockset,
    all: &[TBody],
    place: usize,
) -> Result<PStmt, NoMemory>
    ensures { IfOk result (λ s. does (inputs_in table.now) s
        ≡ first_body table.now (has asked.now) (bodies (drop place all.now))) }
{
    match all.get(place) {
        None => Ok(PStmt::Block(List::new(alloc))),
        Some(body) => erase_stmt(alloc, table, asked, &body.body),
    }
}

// What a method has beside its body.
#[derive(Drop)]
struct Head {
    name: Name,
    params: List<Ty>,
    locals: List<Ty>,
}

fn erase_head(alloc: Global, method: &MethodInfo) -> Result<Head, NoMemory>
    ensures name { IfOk result (λ h. h.name ≡ method.now.name) }
    ensures named { IfOk result (λ h. IsName h.name) }
    ensures params { IfOk result (λ h.
        map param_info h.params ≡ map erased_param method.now.params) }
    ensures locals { IfOk result (λ h. h.locals ≡ method.now.locals) }
{
    Ok(Head {
        name: copy_name(alloc, &method.name)?,
        params: erase_params(alloc, method.params.as_slice())?,
        locals: copy_types(alloc, method.locals.as_slice())?,
    })
}

// The method to which the body at this place belongs.
fn erase_method(
    alloc: Global,
    table: &Table,
    asked: &Lockset,
    method: &MethodInfo,
    all: &[TBody],
    place: usize,
) -> Result<PlainMethod, NoMemory>
    ensures info { IfOk result (λ m. method_info m ≡ erased_method method.now) }
    ensures named { IfOk result (λ m. IsName m.name) }
    ensures body { IfOk result (λ m. does (inputs_in table.now) m.body
        ≡ first_body table.now (has asked.now) (bodies (drop place all.now))) }
{
    let head = erase_head(alloc, method)?;
    let body = erase_body(alloc, table, asked, all, place)?;
    Ok(PlainMethod {
        name: head.name,
        is_static: method.is_static,
        result: method.result,
        params: head.params,
        locals: head.locals,
        body,
    })
}

// The methods of a class, to which the first of these bodies belong.
#[tactic(auto, using(crate::proofs::Bodies::hands))]
fn erase_methods(
    alloc: Global,
    table: &Table,
    asked: &Lockset,
    methods: &[MethodInfo],
    all: &[TBody],
) -> Result<List<PlainMethod>, NoMemory>
    ensures infos { IfOk result (λ ms. map method_info ms ≡ map erased_method methods.now) }
    ensures named { IfOk result (λ ms. AllByRecursion (λ m. IsName m.name) (map method_info ms)) }
    ensures bodies { IfOk result (λ ms. map (λ m. does (inputs_in table.now) m.body) ms
        ≡ handed table.now (has asked.now) methods.now (bodies all.now)) }
{
    let mut found = List::new(alloc);
    for (place, method) in methods.iter().enumerate() {
        let method = erase_method(alloc, table, asked, method, all, place)?;
        found.push(method)?;
    }
    Ok(found)
}

// What a class has beside its methods.
#[derive(Drop)]
struct Outline {
    name: Name,
    fields: List<PlainField>,
    channels: ChannelNames,
}

fn erase_outline(alloc: Global, class: &ClassInfo) -> Result<Outline, NoMemory>
    ensures name { IfOk result (λ o. o.name ≡ class.now.name) }
    ensures named { IfOk result (λ o. IsName o.name) }
    ensures fields { IfOk result (λ o.
        map field_info o.fields ≡ map erased_field class.now.fields) }
    ensures fields_named { IfOk result (λ o.
        AllByRecursion (λ f. IsName f.name) (map field_info o.fields)) }
    ensures inputs { IfOk result (λ o.
        o.channels.inputs ≡ inputs_among class.now.channels) }
    ensures outputs { IfOk result (λ o.
        o.channels.outputs ≡ outputs_among class.now.channels) }
    ensures inputs_named { IfOk result (λ o. AllByRecursion IsName o.channels.inputs) }
    ensures outputs_named { IfOk result (λ o. AllByRecursion IsName o.channels.outputs) }
{
    Ok(Outline {
        name: copy_name(alloc, &class.name)?,
        fields: erase_fields(alloc, class.fields.as_slice())?,
        channels: part_channels(alloc, class.channels.as_slice())?,
    })
}

fn erase_class(
    alloc: Global,
    table: &Table,
    asked: &Lockset,
    class: &ClassInfo,
    all: &[TBody],
) -> Result<PlainClass, NoMemory>
    ensures info { IfOk result (λ k. class_info k ≡ erased_class class.now) }
    ensures named { IfOk result (λ k. IsNamed (class_info k)) }
    ensures inputs { IfOk result (λ k. k.inputs ≡ inputs_among class.now.channels) }
    ensures bodies { IfOk result (λ k. own_bodies (inputs_in table.now) k
        ≡ handed table.now (has asked.now) class.now.methods (bodies all.now)) }
{
    let methods = erase_methods(alloc, table, asked, class.methods.as_slice(), all)?;
    let outline = erase_outline(alloc, class)?;
    Ok(PlainClass {
        name: outline.name,
        exception: class.exception,
        fields: outline.fields,
        inputs: outline.channels.inputs,
        outputs: outline.channels.outputs,
        methods,
    })
}

// The bodies behind so many.
fn behind(all: &[TBody], count: usize) -> &[TBody]
    ensures { result.now ≡ drop count all.now }
{
    match all.get(count..) {
        None => &[],
        Some(rest) => rest,
    }
}

// The classes, to whose methods the bodies belong in their order.
fn erase_classes(
    alloc: Global,
    table: &Table,
    asked: &Lockset,
    classes: &[ClassInfo],
    all: &[TBody],
) -> Result<List<PlainClass>, NoMemory>
    ensures infos { IfOk result (λ ks. map class_info ks ≡ map erased_class classes.now) }
    ensures named { IfOk result (λ ks. AllByRecursion IsNamed (map class_info ks)) }
    ensures inputs { IfOk result (λ ks. map (λ k. k.inputs) ks
        ≡ map (λ c. inputs_among c.channels) classes.now) }
    ensures bodies { IfOk result (λ ks. class_bodies (inputs_in table.now) 0 ks
        ≡ classes_bodies table.now (has asked.now) 0 classes.now (bodies all.now)) }
{
    let mut found = List::new(alloc);
    let mut left = all;
    for class in classes {
        let made = erase_class(alloc, table, asked, class, left)?;
        found.push(made)?;
        left = behind(left, class.methods.len());
    }
    Ok(found)
}

/// The plain program of a typed one.
pub fn erase(alloc: Global, typed: &Typed) -> Result<Plain, NoMemory>
    ensures table { IfOk result (λ p. table_of p ≡ erased_table typed.now.table) }
    ensures named { IfOk result (λ p. AreNamed (table_of p)) }
    ensures bodies { IfOk result (λ p. bodies_of p
        ≡ erased_bodies typed.now.table (bodies typed.now.bodies)) }
{
    let table = &typed.table;
    let all = typed.bodies.as_slice();
    let asked = asked_in(alloc, all)?;
    let classes = erase_classes(alloc, table, &asked, table.classes.as_slice(), all)?;
    Ok(Plain {
        classes,
        main: table.main,
    })
}
