//! What a program declares, by numbers.

ghost use Rattle.std.specs.Prelude.{◌≡◌, ◌<◌, length, slice_get, Some, IfSome};
ghost use Rattle.par_typed.specs.Birth.{birth_of};

use crate::ty::Ty;
use par_lexer::list::List;
use par_lexer::name::Name;
use par_policy::{Lockset, Policy};

/// A lock, or one lock of a family with the actors that choose it.
pub struct GroundLock {
    pub name: Name,
    pub actors: List<u8>,
    /// Who may learn whether it is open. None exactly where the lock has no written policy and no
    /// `when` asks for it.
    pub policy: Option<u16>,
}

impl Drop for GroundLock {
    fn drop(self) {
        let GroundLock {
            name: _,
            actors: _,
            policy: _,
        } = self;
    }
}

pub struct FieldInfo {
    pub name: Name,
    pub is_static: bool,
    pub ty: Ty,
    pub policy: u16,
    /// Whether its policy is written `?_`. It then has a policy number of its own, whose entry is
    /// `bottom`.
    pub inferred: bool,
}

impl Drop for FieldInfo {
    fn drop(self) {
        let FieldInfo {
            name: _,
            is_static: _,
            ty: _,
            policy: _,
            inferred: _,
        } = self;
    }
}

/// A channel of numbers, into the program or out of it.
pub struct ChannelInfo {
    pub name: Name,
    pub is_input: bool,
    pub policy: u16,
}

impl Drop for ChannelInfo {
    fn drop(self) {
        let ChannelInfo {
            name: _,
            is_input: _,
            policy: _,
        } = self;
    }
}

#[derive(Drop)]
pub struct ParamInfo {
    pub ty: Ty,
    pub policy: u16,
    pub notnull: bool,
}

/// A class that a method may throw, and who may learn of it.
#[derive(Drop)]
pub struct ThrowInfo {
    pub class: u16,
    pub policy: u16,
}

pub struct MethodInfo {
    pub name: Name,
    pub at: u32,
    /// The nodes of its declaration's body, as the tree of the source counts them.
    pub nodes: u32,
    pub is_static: bool,
    pub result: Ty,
    pub policy: u16,
    pub params: List<ParamInfo>,
    /// The declared types of all locals by their numbers: `this` first in an instance method, with
    /// its class, then the parameters, then the declarations in source order.
    pub locals: List<Ty>,
    pub effect: u16,
    pub expects: Lockset,
    pub opens: Lockset,
    pub closes: Lockset,
    pub throws: List<ThrowInfo>,
}

impl Drop for MethodInfo {
    fn drop(self) {
        let MethodInfo {
            name: _,
            at: _,
            nodes: _,
            is_static: _,
            result: _,
            policy: _,
            params: _,
            locals: _,
            effect: _,
            expects: _,
            opens: _,
            closes: _,
            throws: _,
        } = self;
    }
}

/// A class, whose fields, channels and methods are each numbered in source order.
pub struct ClassInfo {
    pub name: Name,
    pub at: u32,
    pub exception: bool,
    /// Who may learn that an object of it is made.
    pub birth: u16,
    pub fields: List<FieldInfo>,
    pub channels: List<ChannelInfo>,
    pub methods: List<MethodInfo>,
}

impl Drop for ClassInfo {
    fn drop(self) {
        let ClassInfo {
            name: _,
            at: _,
            exception: _,
            birth: _,
            fields: _,
            channels: _,
            methods: _,
        } = self;
    }
}

/// What a program declares. Each list is by numbers.
pub struct Table {
    /// In source order.
    pub actors: List<Name>,
    /// By the source order of their declarations, and those of one family by their first actor and
    /// then by their second.
    pub locks: List<GroundLock>,
    /// Policy 0 is `bottom`.
    pub policies: List<Policy>,
    /// Class 0 is ArithmeticException and class 1 NullPointerException; the declared classes follow
    /// in source order.
    pub classes: List<ClassInfo>,
    /// The class of the method `main`.
    pub main: u16,
}

impl Drop for Table {
    fn drop(self) {
        let Table {
            actors: _,
            locks: _,
            policies: _,
            classes: _,
            main: _,
        } = self;
    }
}

/// Who may learn that an object of this class is made. It takes no memory.
pub fn birth(table: &Table, class: u16) -> &Policy
    requires class { class < length table.now.classes }
    requires policy { IfSome (slice_get table.now.classes class)
        (λ c. c.birth < length table.now.policies) }
    ensures { Some result.now ≡ birth_of table.now class }
{
    let number = table.classes.as_slice()[usize::from(class)].birth;
    &table.policies.as_slice()[usize::from(number)]
}
