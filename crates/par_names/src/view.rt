//! What a program declares, and what a place of it sees.

ghost use Rattle.std.specs.Prelude.{◌≡◌, ◌++◌, map, IfOk, OnOk};
ghost use Rattle.par_tree.specs.Shown.{source, class_of, declared as shown};
ghost use Rattle.par_names.specs.Declarations.{actors_in, locks_in, policies_in, classes_in};
ghost use Rattle.par_names.specs.Declarations as declared;
ghost use Rattle.par_names.specs.Seen.{classes_seen, locks_seen, ShowsProgram};
ghost use Rattle.par_index.specs.Texts.{texts};

use crate::lookup::{ClassNames, Classes, Locks};
use crate::named::{index, index_named, push_ids};
use par_index::NameIndex;
use par_index::par_base::memory::NoMemory;
use par_tree::decl::{ClassDecl, Decl, LockDecl, PolicyDecl, Program};
use par_tree::ident::Ident;
use std::alloc::Global;

/// What a program declares, each kind in the order of the source.
pub struct Declared<'a> {
    pub actors: NameIndex<'a>,
    pub locks: Locks<'a>,
    pub policies: NameIndex<'a>,
    pub classes: Classes<'a>,
}

impl Drop for Declared<'_> {
    fn drop(self) {
        let Declared {
            actors: _,
            locks: _,
            policies: _,
            classes: _,
        } = self;
    }
}

/// What a place of a program sees: all that is declared, but of the policies only as many as end
/// before it.
#[derive(Clone, Copy)]
pub struct View<'a> {
    pub declared: &'a Declared<'a>,
    pub policies: usize,
}

/// The class that a body stands in, and whether its method is static.
#[derive(Clone, Copy)]
pub struct Home<'a> {
    pub own: &'a ClassNames<'a>,
    pub is_static: bool,
}

impl<'a> Declared<'a> {
    /// What the program declares, its classes behind the built-in ones.
    pub fn of(
        alloc: Global,
        builtins: &'a [ClassDecl],
        program: &'a Program,
    ) -> Result<Declared<'a>, NoMemory>
        ensures { IfOk result (λ shown.
            ShowsProgram (map class_of builtins.now) (source program.now) shown) }
    {
        let actors = actor_index(alloc, program)?;
        let policies = policy_index(alloc, program)?;
        let locks = lock_index(alloc, program)?;
        let classes = class_index(alloc, builtins, program)?;
        Ok(Declared {
            actors,
            locks,
            policies,
            classes,
        })
    }
}

fn actor_index<'a>(alloc: Global, program: &'a Program) -> Result<NameIndex<'a>, NoMemory>
    ensures { IfOk result (λ index. texts index.names.items
        ≡ map (λ id. id.name) (declared.actors (source program.now))) }
{
    let ids = actors(alloc, program)?;
    index(alloc, ids.as_slice())
}

fn lock_index<'a>(alloc: Global, program: &'a Program) -> Result<Locks<'a>, NoMemory>
    ensures { IfOk result (λ index. locks_seen index ≡ declared.locks (source program.now)) }
{
    let decls = locks(alloc, program)?;
    Locks::of(alloc, decls)
}

#[tactic(auto, using(crate::proofs::Lookups::mapped))]
fn policy_index<'a>(alloc: Global, program: &'a Program) -> Result<NameIndex<'a>, NoMemory>
    ensures { IfOk result (λ index. texts index.names.items
        ≡ map (λ policy. policy.id.name) (declared.policies (source program.now))) }
{
    let policies = policies(alloc, program)?;
    index_named(alloc, policies.as_slice())
}

fn class_index<'a>(
    alloc: Global,
    builtins: &'a [ClassDecl],
    program: &'a Program,
) -> Result<Classes<'a>, NoMemory>
    ensures { IfOk result (λ shown. classes_seen shown
        ≡ map class_of builtins.now ++ declared.declared_classes (source program.now)) }
{
    let decls = classes(alloc, builtins, program)?;
    let classes = Classes::of(alloc, decls.as_slice())?;
    Ok(classes)
}

/// The declared actors.
pub fn actors<'a>(alloc: Global, program: &'a Program) -> Result<Vec<&'a Ident>, NoMemory>
    ensures { IfOk result (λ found.
        map (λ id. id.now) found.items ≡ declared.actors (source program.now)) }
{
    let mut found = Vec::new(alloc);
    for decl in program.decls.as_slice() {
        push_actors(&mut found, decl)?;
    }
    Ok(found)
}

fn push_actors<'a>(found: &mut Vec<&'a Ident>, decl: &'a Decl) -> Result<(), NoMemory>
    ensures { OnOk result (map (λ id. id.now) found.new.items
        ≡ map (λ id. id.now) found.old.items ++ actors_in (shown decl.now)) }
{
    match decl {
        Decl::Actors(ids) => push_ids(found, ids.as_slice()),
        Decl::Lock(_) | Decl::Policy(_) | Decl::Class(_) => Ok(()),
    }
}

/// The declared locks.
pub fn locks<'a>(alloc: Global, program: &'a Program) -> Result<Vec<&'a LockDecl>, NoMemory>
    ensures { IfOk result (λ found.
        map (λ lock. lock.now) found.items ≡ declared.locks (source program.now)) }
{
    let mut found = Vec::new(alloc);
    for decl in program.decls.as_slice() {
        push_lock(&mut found, decl)?;
    }
    Ok(found)
}

/// The declared policies.
pub fn policies<'a>(alloc: Global, program: &'a Program) -> Result<Vec<&'a PolicyDecl>, NoMemory>
    ensures { IfOk result (λ found.
        map (λ policy. policy.now) found.items ≡ declared.policies (source program.now)) }
{
    let mut found = Vec::new(alloc);
    for decl in program.decls.as_slice() {
        push_policy(&mut found, decl)?;
    }
    Ok(found)
}

/// The built-in classes, and behind them the declared ones.
pub fn classes<'a>(
    alloc: Global,
    builtins: &'a [ClassDecl],
    program: &'a Program,
) -> Result<Vec<&'a ClassDecl>, NoMemory>
    ensures { IfOk result (λ found. map (λ class. class_of class.now) found.items
        ≡ map class_of builtins.now ++ declared.declared_classes (source program.now)) }
{
    let mut found = Vec::new(alloc);
    for class in builtins {
        found.push(class)?;
    }
    push_classes(&mut found, program)?;
    Ok(found)
}

/// The declared classes.
pub fn declared_classes<'a>(
    alloc: Global,
    program: &'a Program,
) -> Result<Vec<&'a ClassDecl>, NoMemory>
    ensures { IfOk result (λ found. map (λ class. class_of class.now) found.items
        ≡ declared.declared_classes (source program.now)) }
{
    let mut found = Vec::new(alloc);
    push_classes(&mut found, program)?;
    Ok(found)
}

fn push_classes<'a>(found: &mut Vec<&'a ClassDecl>, program: &'a Program) -> Result<(), NoMemory>
    ensures { OnOk result (map (λ class. class_of class.now) found.new.items
        ≡ map (λ class. class_of class.now) found.old.items
        ++ declared.declared_classes (source program.now)) }
{
    for decl in program.decls.as_slice() {
        push_class(found, decl)?;
    }
    Ok(())
}

fn push_lock<'a>(found: &mut Vec<&'a LockDecl>, decl: &'a Decl) -> Result<(), NoMemory>
    ensures { OnOk result (map (λ x. x.now) found.new.items
        ≡ map (λ x. x.now) found.old.items ++ locks_in (shown decl.now)) }
{
    match decl {
        Decl::Lock(lock) => found.push(lock)?,
        Decl::Actors(_) | Decl::Policy(_) | Decl::Class(_) => {}
    }
    Ok(())
}

fn push_policy<'a>(found: &mut Vec<&'a PolicyDecl>, decl: &'a Decl) -> Result<(), NoMemory>
    ensures { OnOk result (map (λ x. x.now) found.new.items
        ≡ map (λ x. x.now) found.old.items ++ policies_in (shown decl.now)) }
{
    match decl {
        Decl::Policy(policy) => found.push(policy)?,
        Decl::Actors(_) | Decl::Lock(_) | Decl::Class(_) => {}
    }
    Ok(())
}

fn push_class<'a>(found: &mut Vec<&'a ClassDecl>, decl: &'a Decl) -> Result<(), NoMemory>
    ensures { OnOk result (map (λ x. class_of x.now) found.new.items
        ≡ map (λ x. class_of x.now) found.old.items ++ classes_in (shown decl.now)) }
{
    match decl {
        Decl::Class(class) => found.push(class)?,
        Decl::Actors(_) | Decl::Lock(_) | Decl::Policy(_) => {}
    }
    Ok(())
}
