//! Plain programs.

use crate::stmt::PStmt;
use par_base::list::List;
use par_base::name::Name;
use par_typed::ty::Ty;

#[derive(Drop)]
pub struct PlainField {
    pub name: Name,
    pub is_static: bool,
    pub ty: Ty,
}

#[derive(Drop)]
pub struct PlainMethod {
    pub name: Name,
    pub is_static: bool,
    pub result: Ty,
    pub params: List<Ty>,
    /// The declared types of all locals by their numbers: `this` first in an instance method, then
    /// the parameters, then the declarations in source order.
    pub locals: List<Ty>,
    pub body: PStmt,
}

/// A class, whose fields, input channels, output channels and methods are each numbered in source
/// order.
#[derive(Drop)]
pub struct PlainClass {
    pub name: Name,
    pub exception: bool,
    pub fields: List<PlainField>,
    pub inputs: List<Name>,
    pub outputs: List<Name>,
    pub methods: List<PlainMethod>,
}

/// A program without policies. Its classes have the numbers that they have in the typed program.
#[derive(Drop)]
pub struct Plain {
    pub classes: List<PlainClass>,
    /// The class of the method `main`.
    pub main: u16,
}
