//! What the indices of a constant pool name, once names are looked up.

use crate::kind::Kind;
use par_base::list::List;
use par_base::name::Name;

/// A field.
#[derive(Drop)]
pub struct FieldLink {
    pub class: Name,
    pub name: Name,
    pub is_static: bool,
    pub kind: Kind,
    /// Its place among the static fields of all classes, or among those of an object.
    pub place: u32,
}

/// A class.
#[derive(Drop)]
pub struct ClassLink {
    pub name: Name,
    pub number: u16,
    /// The kinds of the fields of its objects, in their order.
    pub fields: List<Kind>,
    pub is_exception: bool,
    /// Objects of it are made: it is not that of all objects, nor that of all exceptions.
    pub is_made: bool,
}

/// What a method does when it is called.
#[derive(Drop)]
pub enum Target {
    /// It takes the next number of the input channel of this class and name.
    Input(Name, Name),
    /// It puts its argument out on the output channel of this class and name.
    Output(Name, Name),
    /// It runs its code: the number of its class, its number among the methods of that class, and
    /// the number of its locals.
    Code(u16, u16, u16),
    /// It does nothing.
    Nothing,
}

/// A method.
#[derive(Drop)]
pub struct MethodLink {
    pub is_static: bool,
    /// Its name is `<init>` and its descriptor `()V`.
    pub is_initializer: bool,
    /// What an object has to be to be given to it.
    pub receiver: Kind,
    /// The kinds of its arguments, in their order.
    pub takes: List<Kind>,
    /// Whether it gives a result.
    pub gives: bool,
    pub target: Target,
}

/// What an index names.
#[derive(Drop)]
pub enum Link {
    Number(i32),
    Field(FieldLink),
    Method(MethodLink),
    Class(ClassLink),
    /// Nothing that an instruction names.
    Other,
}
