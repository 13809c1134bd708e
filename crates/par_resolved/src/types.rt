// Types by the numbers of their classes.
ghost use Rattle.std.specs.Prelude.{◌≡◌, ◌≤◌, ◌^◌, length};
ghost use Rattle.par_names.specs.par_index.Texts.{texts};
ghost use Rattle.par_resolved.specs.Numbers.{number, type_of, result_of};

use par_base::name::Name;
use par_names::par_index::NameIndex;
use par_tree::types::TypeTree;
use par_typed::ty::Ty;

/// The number of the class of this name.
pub fn class_number(classes: &NameIndex<'_>, name: &Name) -> u16
    requires { length (texts classes.now.names.items) ≤ 2 ^ 16 }
    ensures { result ≡ number (texts classes.now.names.items) name.now }
{
    match classes.place(name) {
        None => 0,
        Some(place) => place as u16,
    }
}

/// The type that is written.
#[tactic(auto, unfolding(crate::specs::Numbers::type_of))]
pub fn type_of(classes: &NameIndex<'_>, ty: &TypeTree) -> Ty
    requires { length (texts classes.now.names.items) ≤ 2 ^ 16 }
    ensures { result ≡ type_of (texts classes.now.names.items) ty.now }
{
    match ty {
        TypeTree::Int(_) => Ty::Int,
        TypeTree::Boolean(_) => Ty::Boolean,
        TypeTree::Class(class) => Ty::Class(class_number(classes, &class.name)),
    }
}

/// The type of a result, which a `void` method has not.
#[tactic(auto, unfolding(crate::specs::Numbers::result_of))]
pub fn result_of(classes: &NameIndex<'_>, result_type: &Option<TypeTree>) -> Ty
    requires { length (texts classes.now.names.items) ≤ 2 ^ 16 }
    ensures { result ≡ result_of (texts classes.now.names.items) result_type.now }
{
    match result_type {
        None => Ty::Void,
        Some(ty) => type_of(classes, ty),
    }
}
