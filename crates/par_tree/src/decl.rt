//! Declarations.

use crate::ident::Ident;
use crate::policy::{LockTree, PolicyExpr};
use crate::stmt::Block;
use crate::types::TypeTree;
use par_grammar::par_base::list::List;

/// A source, declaration by declaration.
#[derive(Drop)]
pub struct Program {
    pub decls: List<Decl>,
}

pub enum Decl {
    Actors(List<Ident>),
    Lock(LockDecl),
    Policy(PolicyDecl),
    Class(ClassDecl),
}

impl Drop for Decl {
    fn drop(self) {
        match self {
            Decl::Actors(_) | Decl::Lock(_) | Decl::Policy(_) | Decl::Class(_) => {}
        }
    }
}

/// A lock, or a family of locks.
pub struct LockDecl {
    pub id: Ident,
    /// How many actors choose a lock of the family: none, one or two.
    pub arity: u8,
    /// Who may learn whether it is open.
    pub policy: Option<PolicyExpr>,
}

impl Drop for LockDecl {
    fn drop(self) {
        let LockDecl {
            id: _,
            arity: _,
            policy: _,
        } = self;
    }
}

pub struct PolicyDecl {
    pub id: Ident,
    pub policy: PolicyExpr,
}

impl Drop for PolicyDecl {
    fn drop(self) {
        let PolicyDecl { id: _, policy: _ } = self;
    }
}

/// A class, or an exception class, which has no members.
pub struct ClassDecl {
    pub id: Ident,
    pub exception: bool,
    /// Who may learn that an object of it is made.
    pub birth: Option<PolicyExpr>,
    pub fields: List<FieldDecl>,
    pub channels: List<ChannelDecl>,
    pub methods: List<MethodDecl>,
}

impl Drop for ClassDecl {
    fn drop(self) {
        let ClassDecl {
            id: _,
            exception: _,
            birth: _,
            fields: _,
            channels: _,
            methods: _,
        } = self;
    }
}

pub struct FieldDecl {
    pub id: Ident,
    pub is_static: bool,
    pub ty: TypeTree,
    pub policy: Option<PolicyExpr>,
    /// Whether its policy is written `?_`.
    pub inferred: bool,
}

impl Drop for FieldDecl {
    fn drop(self) {
        let FieldDecl {
            id: _,
            is_static: _,
            ty: _,
            policy: _,
            inferred: _,
        } = self;
    }
}

/// A channel of numbers, into the program or out of it.
pub struct ChannelDecl {
    pub id: Ident,
    pub is_input: bool,
    pub policy: Option<PolicyExpr>,
}

impl Drop for ChannelDecl {
    fn drop(self) {
        let ChannelDecl {
            id: _,
            is_input: _,
            policy: _,
        } = self;
    }
}

pub struct ParamDecl {
    pub id: Ident,
    pub ty: TypeTree,
    pub policy: Option<PolicyExpr>,
    pub notnull: bool,
}

impl Drop for ParamDecl {
    fn drop(self) {
        let ParamDecl {
            id: _,
            ty: _,
            policy: _,
            notnull: _,
        } = self;
    }
}

/// A class that a method may throw, and who may learn of it.
pub struct ThrowDecl {
    pub class: Ident,
    pub policy: PolicyExpr,
}

impl Drop for ThrowDecl {
    fn drop(self) {
        let ThrowDecl {
            class: _,
            policy: _,
        } = self;
    }
}

pub struct MethodDecl {
    pub id: Ident,
    pub is_static: bool,
    /// None of a `void` method.
    pub result: Option<TypeTree>,
    pub policy: Option<PolicyExpr>,
    pub params: List<ParamDecl>,
    /// Each `!`, in the order of the source.
    pub effects: List<PolicyExpr>,
    /// Each `~`, `+` and `-`, in the order of the source.
    pub expects: List<LockTree>,
    pub opens: List<LockTree>,
    pub closes: List<LockTree>,
    pub throws: List<ThrowDecl>,
    pub body: Block,
}

impl Drop for MethodDecl {
    fn drop(self) {
        let MethodDecl {
            id: _,
            is_static: _,
            result: _,
            policy: _,
            params: _,
            effects: _,
            expects: _,
            opens: _,
            closes: _,
            throws: _,
            body: _,
        } = self;
    }
}
