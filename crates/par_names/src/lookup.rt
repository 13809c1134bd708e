//! What a program declares, found by name.

ghost use Rattle.std.specs.Prelude.{◌≡◌, map, IfOk, Some};
ghost use Rattle.std.specs.Option.{option_copied, option_map};
ghost use Rattle.par_tree.specs.Shown.{class_of, method};
ghost use Rattle.par_names.specs.Declarations.{lock_named, class_named};
ghost use Rattle.par_names.specs.Members.{field_named, channel_named, method_named};
ghost use Rattle.par_names.specs.Members.{earlier_callee, selected_named, callee_named};
ghost use Rattle.par_names.specs.Indexed.{AreLocks, AreMembers, AreClasses};

use crate::named::{index_named, index_of};
use par_index::NameIndex;
use par_index::par_base::list::List;
use par_index::par_base::memory::NoMemory;
use par_index::par_base::name::Name;
use par_tree::decl::{ChannelDecl, ClassDecl, FieldDecl, LockDecl, MethodDecl};
use std::alloc::Global;

/// Locks in the order of their declarations, each found by its name.
pub struct Locks<'a> {
    decls: List<&'a LockDecl>,
    names: NameIndex<'a>,
    ghost named: { AreLocks (map (λ decl. decl.now) decls) names },
}

impl Drop for Locks<'_> {
    fn drop(self) {
        let Locks { decls: _, names: _ } = self;
    }
}

impl<'a> Locks<'a> {
    /// These locks.
    pub fn of(alloc: Global, decls: Vec<&'a LockDecl>) -> Result<Locks<'a>, NoMemory>
        ensures { IfOk result (λ locks. locks.decls ≡ decls.entry.items) }
    {
        let names = index_named(alloc, decls.as_slice())?;
        Ok(Locks {
            decls: List::wrap(decls),
            names,
        })
    }

    /// All locks, in their order.
    pub fn decls(&self) -> &[&'a LockDecl]
        ensures { result.now ≡ self.now.decls }
    {
        self.decls.as_slice()
    }

    /// The lock that the name stands for: the first one of it.
    pub fn named(&self, name: &Name) -> Option<&'a LockDecl>
        ensures { option_copied result
            ≡ lock_named (map (λ lock. lock.now) self.now.decls) name.now }
    {
        match self.names.place(name) {
            None => None,
            Some(place) => self.decls.get(place).copied(),
        }
    }
}

/// A class whose members are found by their names.
pub struct ClassNames<'a> {
    decl: &'a ClassDecl,
    fields: NameIndex<'a>,
    channels: NameIndex<'a>,
    methods: NameIndex<'a>,
    ghost named: { AreMembers decl.now fields channels methods },
}

impl Drop for ClassNames<'_> {
    fn drop(self) {
        let ClassNames {
            decl: _,
            fields: _,
            channels: _,
            methods: _,
        } = self;
    }
}

impl<'a> ClassNames<'a> {
    /// This class.
    pub fn of(alloc: Global, decl: &'a ClassDecl) -> Result<ClassNames<'a>, NoMemory>
        ensures { IfOk result (λ class. class.decl ≡ decl.entry) }
    {
        let fields = index_of(alloc, decl.fields.as_slice())?;
        let channels = index_of(alloc, decl.channels.as_slice())?;
        let methods = index_of(alloc, decl.methods.as_slice())?;
        Ok(ClassNames {
            decl,
            fields,
            channels,
            methods,
        })
    }

    /// Its declaration.
    pub fn decl(&self) -> &'a ClassDecl
        ensures { result.now ≡ self.now.decl.now }
    {
        self.decl
    }

    /// The first field of this name.
    pub fn field_named(&self, name: &Name) -> Option<&'a FieldDecl>
        ensures { option_copied result ≡ field_named (class_of self.now.decl.now) name.now }
    {
        match self.fields.place(name) {
            None => None,
            Some(place) => self.decl.fields.get(place),
        }
    }

    /// The first channel of this name.
    pub fn channel_named(&self, name: &Name) -> Option<&'a ChannelDecl>
        ensures { option_copied result ≡ channel_named (class_of self.now.decl.now) name.now }
    {
        match self.channels.place(name) {
            None => None,
            Some(place) => self.decl.channels.get(place),
        }
    }

    /// The first method of this name.
    pub fn method_named(&self, name: &Name) -> Option<&'a MethodDecl>
        ensures { option_map (λ m. method m.now) result
            ≡ method_named (class_of self.now.decl.now) name.now }
    {
        match self.methods.place(name) {
            None => None,
            Some(place) => self.decl.methods.get(place),
        }
    }

    /// Whether the field of this name is static, if there is one.
    #[tactic(auto, using(crate::proofs::Callees::callees))]
    pub fn selected_named(&self, name: &Name) -> Option<bool>
        ensures { result ≡ selected_named (class_of self.now.decl.now) name.now }
    {
        match self.field_named(name) {
            None => None,
            Some(field) => Some(field.is_static),
        }
    }

    /// Whether what a call of this name calls is static, if there is such a member.
    pub fn callee_named(&self, name: &Name) -> Option<bool>
        ensures { result ≡ callee_named (class_of self.now.decl.now) name.now }
    {
        match self.channel_named(name) {
            None => self.method_static(name),
            Some(channel) => self.earlier_callee(channel, name),
        }
    }

    #[tactic(auto, using(crate::proofs::Callees::callees))]
    fn method_static(&self, name: &Name) -> Option<bool>
        ensures { result
            ≡ earlier_callee None (method_named (class_of self.now.decl.now) name.now) }
    {
        match self.method_named(name) {
            None => None,
            Some(method) => Some(method.is_static),
        }
    }

    #[tactic(auto, using(crate::proofs::Callees::callees))]
    fn earlier_callee(&self, channel: &ChannelDecl, name: &Name) -> Option<bool>
        ensures { result ≡ earlier_callee (Some channel.now)
            (method_named (class_of self.now.decl.now) name.now) }
    {
        match self.method_named(name) {
            None => Some(true),
            Some(method) => {
                if channel.id.at < method.id.at {
                    Some(true)
                } else {
                    Some(method.is_static)
                }
            }
        }
    }
}

/// Classes in an order, each found by its name.
pub struct Classes<'a> {
    members: List<ClassNames<'a>>,
    names: NameIndex<'a>,
    ghost named: { AreClasses (map (λ class. class.decl.now) members) names },
}

impl Drop for Classes<'_> {
    fn drop(self) {
        let Classes {
            members: _,
            names: _,
        } = self;
    }
}

impl<'a> Classes<'a> {
    /// These classes.
    pub fn of(alloc: Global, decls: &[&'a ClassDecl]) -> Result<Classes<'a>, NoMemory>
        ensures { IfOk result (λ classes.
            map (λ class. class.decl.now) classes.members ≡ map (λ decl. decl.now) decls.now) }
    {
        let names = index_named(alloc, decls)?;
        let members = all_members(alloc, decls)?;
        Ok(Classes { members, names })
    }

    /// All classes, in their order.
    pub fn all(&self) -> &[ClassNames<'a>]
        ensures { result.now ≡ self.now.members }
    {
        self.members.as_slice()
    }

    /// The class that the name stands for: the first one of it.
    pub fn named(&self, name: &Name) -> Option<&ClassNames<'a>>
        ensures { option_map (λ class. class_of class.now.decl.now) result
            ≡ class_named (map (λ class. class_of class.decl.now) self.now.members) name.now }
    {
        match self.names.place(name) {
            None => None,
            Some(place) => self.members.get(place),
        }
    }
}

fn all_members<'a>(alloc: Global, decls: &[&'a ClassDecl]) -> Result<List<ClassNames<'a>>, NoMemory>
    ensures { IfOk result (λ members.
        map (λ class. class.decl.now) members ≡ map (λ decl. decl.now) decls.now) }
{
    let mut members = List::new(alloc);
    for decl in decls {
        let class = ClassNames::of(alloc, decl)?;
        members.push(class)?;
    }
    Ok(members)
}
