// The policy expressions of a program.
ghost use Rattle.std.specs.Prelude.{◌≡◌, ◌++◌, map, flat_map, IfOk, OnOk};
ghost use Rattle.std.specs.Option.{option_to_list};
ghost use Rattle.par_tree.specs.Shown.{source, declared, class_of, method, methods, does};
ghost use Rattle.par_parts.specs.Written as policies;
ghost use Rattle.par_parts.specs.Gathered.{statements_of, all_of};

use crate::statements::statements;
use par_base::memory::NoMemory;
use par_tree::decl::{
    ChannelDecl, ClassDecl, Decl, FieldDecl, MethodDecl, ParamDecl, Program, ThrowDecl,
};
use par_tree::policy::PolicyExpr;
use par_tree::stmt::{Stmt, StmtKind};
use std::alloc::Global;

/// Every policy expression of a program.
#[tactic(auto, using(crate::proofs::Pushes::pushes))]
pub fn written(alloc: Global, program: &Program) -> Result<Vec<&PolicyExpr>, NoMemory>
    ensures { IfOk result (λ found. all_of found.items ≡ policies.written (source program.now)) }
{
    let mut found = Vec::new(alloc);
    for decl in program.decls.as_slice() {
        push_declaration(alloc, &mut found, decl)?;
    }
    Ok(found)
}

#[tactic(auto, using(crate::proofs::Pushes::pushes))]
fn push_declaration<'a>(
    alloc: Global,
    found: &mut Vec<&'a PolicyExpr>,
    decl: &'a Decl,
) -> Result<(), NoMemory>
    ensures { OnOk result (all_of found.new.items
        ≡ all_of found.old.items ++ policies.declaration_policies (declared decl.now)) }
{
    match decl {
        Decl::Actors(_) => Ok(()),
        Decl::Lock(lock) => push_may(found, &lock.policy),
        Decl::Policy(policy) => {
            found.push(&policy.policy)?;
            Ok(())
        }
        Decl::Class(class) => push_class(alloc, found, class),
    }
}

#[tactic(auto, using(crate::proofs::Pushes::pushes))]
fn push_class<'a>(
    alloc: Global,
    found: &mut Vec<&'a PolicyExpr>,
    class: &'a ClassDecl,
) -> Result<(), NoMemory>
    ensures { OnOk result (all_of found.new.items
        ≡ all_of found.old.items ++ policies.class_policies (class_of class.now)) }
{
    push_may(found, &class.birth)?;
    push_fields(found, class.fields.as_slice())?;
    push_channels(found, class.channels.as_slice())?;
    push_methods(alloc, found, class.methods.as_slice())
}

#[tactic(auto, using(crate::proofs::Pushes::pushes))]
fn push_methods<'a>(
    alloc: Global,
    found: &mut Vec<&'a PolicyExpr>,
    items: &'a [MethodDecl],
) -> Result<(), NoMemory>
    ensures { OnOk result (all_of found.new.items
        ≡ all_of found.old.items ++ flat_map policies.method_policies (methods items.now)) }
{
    for item in items {
        push_method(alloc, found, item)?;
    }
    Ok(())
}

#[tactic(auto, using(crate::proofs::Pushes::pushes))]
fn push_method<'a>(
    alloc: Global,
    found: &mut Vec<&'a PolicyExpr>,
    item: &'a MethodDecl,
) -> Result<(), NoMemory>
    ensures { OnOk result (all_of found.new.items
        ≡ all_of found.old.items ++ policies.method_policies (method item.now)) }
{
    push_may(found, &item.policy)?;
    push_params(found, item.params.as_slice())?;
    push_effects(found, item.effects.as_slice())?;
    push_throws(found, item.throws.as_slice())?;
    let body = statements(alloc, &item.body)?;
    push_locals(found, body.as_slice())
}

fn push_may<'a>(
    found: &mut Vec<&'a PolicyExpr>,
    policy: &'a Option<PolicyExpr>,
) -> Result<(), NoMemory>
    ensures { OnOk result (all_of found.new.items
        ≡ all_of found.old.items ++ option_to_list policy.now) }
{
    match policy {
        None => Ok(()),
        Some(policy) => {
            found.push(policy)?;
            Ok(())
        }
    }
}

#[tactic(auto, using(crate::proofs::Pushes::pushes))]
fn push_fields<'a>(found: &mut Vec<&'a PolicyExpr>, items: &'a [FieldDecl]) -> Result<(), NoMemory>
    ensures { OnOk result (all_of found.new.items
        ≡ all_of found.old.items ++ flat_map (λ f. option_to_list f.policy) items.now) }
{
    for item in items {
        push_may(found, &item.policy)?;
    }
    Ok(())
}

#[tactic(auto, using(crate::proofs::Pushes::pushes))]
fn push_channels<'a>(
    found: &mut Vec<&'a PolicyExpr>,
    items: &'a [ChannelDecl],
) -> Result<(), NoMemory>
    ensures { OnOk result (all_of found.new.items
        ≡ all_of found.old.items ++ flat_map (λ h. option_to_list h.policy) items.now) }
{
    for item in items {
        push_may(found, &item.policy)?;
    }
    Ok(())
}

#[tactic(auto, using(crate::proofs::Pushes::pushes))]
fn push_params<'a>(found: &mut Vec<&'a PolicyExpr>, items: &'a [ParamDecl]) -> Result<(), NoMemory>
    ensures { OnOk result (all_of found.new.items
        ≡ all_of found.old.items ++ flat_map (λ p. option_to_list p.policy) items.now) }
{
    for item in items {
        push_may(found, &item.policy)?;
    }
    Ok(())
}

#[tactic(auto, using(crate::proofs::Pushes::pushes))]
fn push_effects<'a>(
    found: &mut Vec<&'a PolicyExpr>,
    items: &'a [PolicyExpr],
) -> Result<(), NoMemory>
    ensures { OnOk result (all_of found.new.items ≡ all_of found.old.items ++ items.now) }
{
    for item in items {
        found.push(item)?;
    }
    Ok(())
}

#[tactic(auto, using(crate::proofs::Pushes::pushes))]
fn push_throws<'a>(found: &mut Vec<&'a PolicyExpr>, items: &'a [ThrowDecl]) -> Result<(), NoMemory>
    ensures { OnOk result (all_of found.new.items
        ≡ all_of found.old.items ++ map (λ t. t.policy) items.now) }
{
    for item in items {
        found.push(&item.policy)?;
    }
    Ok(())
}

#[tactic(auto, using(crate::proofs::Pushes::pushes))]
fn push_locals<'a>(found: &mut Vec<&'a PolicyExpr>, items: &[&'a Stmt]) -> Result<(), NoMemory>
    ensures { OnOk result (all_of found.new.items
        ≡ all_of found.old.items ++ flat_map policies.stmt_policies (statements_of items.now)) }
{
    for item in items {
        push_local(found, item)?;
    }
    Ok(())
}

#[tactic(auto, using(crate::proofs::Pushes::push), unfolding(crate::specs::Written::stmt_policies))]
fn push_local<'a>(found: &mut Vec<&'a PolicyExpr>, item: &'a Stmt) -> Result<(), NoMemory>
    ensures { OnOk result (all_of found.new.items
        ≡ all_of found.old.items ++ policies.stmt_policies (does item.now)) }
{
    match &item.kind {
        StmtKind::Local(local) => push_may(found, &local.policy),
        StmtKind::Block(_)
        | StmtKind::If(_, _, _)
        | StmtKind::While(_, _)
        | StmtKind::Try(_, _)
        | StmtKind::Return(_)
        | StmtKind::Break
        | StmtKind::Continue
        | StmtKind::Throw(_)
        | StmtKind::OpenLock(_)
        | StmtKind::CloseLock(_)
        | StmtKind::Assign(_, _)
        | StmtKind::Call(_)
        | StmtKind::When(_, _, _) => Ok(()),
    }
}
