//! Where a body stands.

ghost use Rattle.std.specs.Prelude.{◌≡◌};
ghost use Rattle.par_scope.specs.Home.{class_type, type_written, result_written};

use crate::index::TableIndex;
use par_tree::types::TypeTree;
use par_typed::table::Table;
use par_typed::ty::Ty;

/// The table with its names, the number of the own class, and the type of the result.
#[derive(Clone, Copy)]
pub struct Home<'a> {
    pub table: &'a Table,
    pub names: &'a TableIndex<'a>,
    pub class: u16,
    /// `Void` of a method that gives nothing; none where the type names no class.
    pub result: Option<Ty>,
}

/// The type of the objects of a class.
pub fn class_type(class: Option<u16>) -> Option<Ty>
    ensures { result ≡ class_type class }
{
    match class {
        None => None,
        Some(class) => Some(Ty::Class(class)),
    }
}

/// The type that is written.
pub fn type_written(names: &TableIndex<'_>, ty: &TypeTree) -> Option<Ty>
    ensures { result ≡ type_written names.now ty.now }
{
    match ty {
        TypeTree::Int(_) => Some(Ty::Int),
        TypeTree::Boolean(_) => Some(Ty::Boolean),
        TypeTree::Class(id) => class_type(names.class(&id.name)),
    }
}

/// The type of what a method gives.
pub fn result_written(names: &TableIndex<'_>, ty: &Option<TypeTree>) -> Option<Ty>
    ensures { result ≡ result_written names.now ty.now }
{
    match ty {
        None => Some(Ty::Void),
        Some(ty) => type_written(names, ty),
    }
}
