//! Names of what is declared, in the order of the source.

ghost use Rattle.std.specs.Prelude.{◌≡◌, ◌++◌, map, IfOk, OnOk};
ghost use Rattle.par_tree.specs.declared.ident.Ident.{Ident};
ghost use Rattle.par_index.specs.Texts.{texts};

use par_index::NameIndex;
use par_index::par_base::memory::NoMemory;
use par_tree::decl::{
    ChannelDecl, ClassDecl, FieldDecl, LockDecl, MethodDecl, ParamDecl, PolicyDecl, ThrowDecl,
};
use par_tree::ident::Ident;
use std::alloc::Global;

/// What is told apart by a name.
pub trait Named {
    ghost named: { Self → Ident };

    /// The name.
    fn id(&self) -> &Ident
        ensures { result.now ≡ named self.now };
}

impl Named for Ident {
    ghost named = { λ id. id };

    fn id(&self) -> &Ident {
        self
    }
}

impl Named for LockDecl {
    ghost named = { λ lock. lock.id };

    fn id(&self) -> &Ident {
        &self.id
    }
}

impl Named for PolicyDecl {
    ghost named = { λ policy. policy.id };

    fn id(&self) -> &Ident {
        &self.id
    }
}

impl Named for ClassDecl {
    ghost named = { λ class. class.id };

    fn id(&self) -> &Ident {
        &self.id
    }
}

impl Named for FieldDecl {
    ghost named = { λ field. field.id };

    fn id(&self) -> &Ident {
        &self.id
    }
}

impl Named for ChannelDecl {
    ghost named = { λ channel. channel.id };

    fn id(&self) -> &Ident {
        &self.id
    }
}

impl Named for MethodDecl {
    ghost named = { λ method. method.id };

    fn id(&self) -> &Ident {
        &self.id
    }
}

impl Named for ParamDecl {
    ghost named = { λ param. param.id };

    fn id(&self) -> &Ident {
        &self.id
    }
}

/// Of two `throws` of a method the second may not be of the class of the first.
impl Named for ThrowDecl {
    ghost named = { λ throw. throw.class };

    fn id(&self) -> &Ident {
        &self.class
    }
}

/// Puts the names of these behind the others.
pub fn push_ids<'a, T: Named>(ids: &mut Vec<&'a Ident>, items: &'a [T]) -> Result<(), NoMemory>
    ensures { OnOk result (map (λ id. id.now) ids.new.items
        ≡ map (λ id. id.now) ids.old.items ++ map T.named items.now) }
{
    for item in items {
        ids.push(item.id())?;
    }
    Ok(())
}

/// Puts the names of these, which stand apart, behind the others.
pub fn push_named<'a, T: Named>(ids: &mut Vec<&'a Ident>, items: &[&'a T]) -> Result<(), NoMemory>
    ensures { OnOk result (map (λ id. id.now) ids.new.items
        ≡ map (λ id. id.now) ids.old.items ++ map T.named (map (λ item. item.now) items.now)) }
{
    for item in items {
        ids.push(item.id())?;
    }
    Ok(())
}

/// An index of these names.
pub fn index<'a>(alloc: Global, ids: &[&'a Ident]) -> Result<NameIndex<'a>, NoMemory>
    ensures { IfOk result (λ index.
        texts index.names.items ≡ map (λ id. id.name) (map (λ id. id.now) ids.now)) }
{
    let mut names = Vec::new(alloc);
    for id in ids {
        names.push(id.name.bytes())?;
    }
    NameIndex::of(alloc, names)
}

/// An index of the names of these, which stand apart.
pub fn index_named<'a, T: Named>(alloc: Global, items: &[&'a T]) -> Result<NameIndex<'a>, NoMemory>
    ensures { IfOk result (λ index. texts index.names.items
        ≡ map (λ id. id.name) (map T.named (map (λ item. item.now) items.now))) }
{
    let mut ids = Vec::new(alloc);
    push_named(&mut ids, items)?;
    index(alloc, ids.as_slice())
}

/// An index of the names of these.
pub fn index_of<'a, T: Named>(alloc: Global, items: &'a [T]) -> Result<NameIndex<'a>, NoMemory>
    ensures { IfOk result (λ index.
        texts index.names.items ≡ map (λ id. id.name) (map T.named items.now)) }
{
    let mut ids = Vec::new(alloc);
    push_ids(&mut ids, items)?;
    index(alloc, ids.as_slice())
}
