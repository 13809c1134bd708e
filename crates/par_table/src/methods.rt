//! The methods of a class.

ghost use Rattle.std.specs.Prelude.{◌≡◌, ◌<◌, ◌^◌, ◌++◌, map, sum_by, IfOk, OnOk};
ghost use Rattle.par_tree.specs.Shown as tree;
ghost use Rattle.par_tree.specs.Nodes.{method_nodes};
ghost use Rattle.par_parts.specs.Gathered.{all_of};
ghost use Rattle.par_resolved.specs.Numbers.{type_of};
ghost use Rattle.par_resolved.specs.Resolved as info;
ghost use Rattle.par_table.specs.Seen.{resolved_seen};

use crate::resolved::Resolved;
use par_lexer::list::List;
use par_lexer::name::Name;
use par_parts::types::declared_types;
use par_policy::Lockset;
use par_resolved::NoMemory;
use par_resolved::known::lock_set;
use par_tree::decl::{MethodDecl, ParamDecl, ThrowDecl};
use par_tree::nodes::nodes;
use par_tree::types::TypeTree;
use par_typed::table::{MethodInfo, ParamInfo, ThrowInfo};
use par_typed::ty::Ty;
use std::alloc::Global;

fn param_info(
    alloc: Global,
    resolved: &Resolved<'_>,
    param: &ParamDecl,
) -> Result<ParamInfo, NoMemory>
    ensures { IfOk result (λ made.
        made ≡ info.param_info (resolved_seen resolved.now) param.now) }
{
    Ok(ParamInfo {
        ty: resolved.type_of(&param.ty),
        policy: resolved.may_number(alloc, param.policy.as_ref())?,
        notnull: param.notnull,
    })
}

#[tactic(auto, using(par_parts::proofs::Pushes::pushes))]
fn param_infos(
    alloc: Global,
    resolved: &Resolved<'_>,
    params: &[ParamDecl],
) -> Result<List<ParamInfo>, NoMemory>
    ensures { IfOk result (λ made.
        made ≡ map (info.param_info (resolved_seen resolved.now)) params.now) }
{
    let mut made = List::new(alloc);
    for param in params {
        made.push(param_info(alloc, resolved, param)?)?;
    }
    Ok(made)
}

fn throw_info(
    alloc: Global,
    resolved: &Resolved<'_>,
    throw: &ThrowDecl,
) -> Result<ThrowInfo, NoMemory>
    ensures { IfOk result (λ made.
        made ≡ info.throw_info (resolved_seen resolved.now) throw.now) }
{
    Ok(ThrowInfo {
        class: resolved.class_number(&throw.class.name),
        policy: resolved.expression_number(alloc, &throw.policy)?,
    })
}

#[tactic(auto, using(par_parts::proofs::Pushes::pushes))]
fn throw_infos(
    alloc: Global,
    resolved: &Resolved<'_>,
    throws: &[ThrowDecl],
) -> Result<List<ThrowInfo>, NoMemory>
    ensures { IfOk result (λ made.
        made ≡ map (info.throw_info (resolved_seen resolved.now)) throws.now) }
{
    let mut made = List::new(alloc);
    for throw in throws {
        made.push(throw_info(alloc, resolved, throw)?)?;
    }
    Ok(made)
}

// ---- locals

fn this_type(alloc: Global, class: u16, is_static: bool) -> Result<List<Ty>, NoMemory>
    ensures { IfOk result (λ types. types ≡ info.this_type class is_static) }
{
    let mut types = List::new(alloc);
    if !is_static {
        types.push(Ty::Class(class))?;
    }
    Ok(types)
}

#[tactic(auto, using(par_parts::proofs::Pushes::pushes))]
fn push_params(
    types: &mut List<Ty>,
    resolved: &Resolved<'_>,
    params: &[ParamDecl],
) -> Result<(), NoMemory>
    ensures { OnOk result (types.new ≡ types.old
        ++ map (λ p. type_of (resolved_seen resolved.now).classes p.ty) params.now) }
{
    for param in params {
        types.push(resolved.type_of(&param.ty))?;
    }
    Ok(())
}

#[tactic(auto, using(par_parts::proofs::Pushes::pushes))]
fn push_types(
    types: &mut List<Ty>,
    resolved: &Resolved<'_>,
    items: &[&TypeTree],
) -> Result<(), NoMemory>
    ensures { OnOk result (types.new ≡ types.old
        ++ map (type_of (resolved_seen resolved.now).classes) (all_of items.now)) }
{
    for item in items {
        types.push(resolved.type_of(item))?;
    }
    Ok(())
}

fn local_types(
    alloc: Global,
    resolved: &Resolved<'_>,
    class: u16,
    method: &MethodDecl,
) -> Result<List<Ty>, NoMemory>
    ensures { IfOk result (λ types. types
        ≡ info.local_types (resolved_seen resolved.now).classes class (tree.method method.now)) }
{
    let mut types = this_type(alloc, class, method.is_static)?;
    push_params(&mut types, resolved, method.params.as_slice())?;
    let declared = declared_types(alloc, &method.body)?;
    push_types(&mut types, resolved, declared.as_slice())?;
    Ok(types)
}

// ---- methods

// What a method is called with.
#[derive(Drop)]
struct Shape {
    name: Name,
    params: List<ParamInfo>,
    locals: List<Ty>,
}

fn shape_of(
    alloc: Global,
    resolved: &Resolved<'_>,
    class: u16,
    method: &MethodDecl,
) -> Result<Shape, NoMemory>
    ensures name { IfOk result (λ shape. shape.name ≡ (tree.method method.now).id.name) }
    ensures params { IfOk result (λ shape. shape.params
        ≡ map (info.param_info (resolved_seen resolved.now)) (tree.method method.now).params) }
    ensures locals { IfOk result (λ shape. shape.locals
        ≡ info.local_types (resolved_seen resolved.now).classes class (tree.method method.now)) }
{
    Ok(Shape {
        name: method.id.name.copy(alloc)?,
        params: param_infos(alloc, resolved, method.params.as_slice())?,
        locals: local_types(alloc, resolved, class, method)?,
    })
}

// What a method says of locks.
#[derive(Drop)]
struct Locking {
    expects: Lockset,
    opens: Lockset,
    closes: Lockset,
}

fn locking_of(
    alloc: Global,
    resolved: &Resolved<'_>,
    method: &MethodDecl,
) -> Result<Locking, NoMemory>
    ensures expects { IfOk result (λ locking. locking.expects
        ≡ (info.method_info (resolved_seen resolved.now) 0 (tree.method method.now)).expects) }
    ensures opens { IfOk result (λ locking. locking.opens
        ≡ (info.method_info (resolved_seen resolved.now) 0 (tree.method method.now)).opens) }
    ensures closes { IfOk result (λ locking. locking.closes
        ≡ (info.method_info (resolved_seen resolved.now) 0 (tree.method method.now)).closes) }
{
    let numbers = &resolved.known.numbers;
    Ok(Locking {
        expects: lock_set(alloc, numbers, method.expects.as_slice())?,
        opens: lock_set(alloc, numbers, method.opens.as_slice())?,
        closes: lock_set(alloc, numbers, method.closes.as_slice())?,
    })
}

// A method of the class of this number.
fn method_info(
    alloc: Global,
    resolved: &Resolved<'_>,
    class: u16,
    method: &MethodDecl,
) -> Result<MethodInfo, NoMemory>
    requires { method_nodes (tree.method method.now) < 2 ^ 32 }
    ensures { IfOk result (λ made. made
        ≡ info.method_info (resolved_seen resolved.now) class (tree.method method.now)) }
{
    let policy = resolved.may_number(alloc, method.policy.as_ref())?;
    let effect = resolved.may_number(alloc, method.effects.get(0))?;
    let shape = shape_of(alloc, resolved, class, method)?;
    let locking = locking_of(alloc, resolved, method)?;
    let throws = throw_infos(alloc, resolved, method.throws.as_slice())?;
    Ok(MethodInfo {
        name: shape.name,
        at: method.id.at,
        nodes: nodes(method),
        is_static: method.is_static,
        result: resolved.result_of(&method.result),
        policy,
        params: shape.params,
        locals: shape.locals,
        effect,
        expects: locking.expects,
        opens: locking.opens,
        closes: locking.closes,
        throws,
    })
}

/// The methods of the class of this number.
pub fn method_infos(
    alloc: Global,
    resolved: &Resolved<'_>,
    class: u16,
    methods: &[MethodDecl],
) -> Result<List<MethodInfo>, NoMemory>
    requires { sum_by method_nodes (tree.methods methods.now) < 2 ^ 32 }
    ensures { IfOk result (λ made. made
        ≡ map (info.method_info (resolved_seen resolved.now) class) (tree.methods methods.now)) }
{
    let mut made = List::new(alloc);
    for method in methods {
        made.push(method_info(alloc, resolved, class, method)?)?;
    }
    Ok(made)
}
