use par_base::name::Name;

/// What kind of value a place of a machine takes.
#[derive(Drop)]
pub enum Kind {
    /// An `int`; a `boolean` is kept as one.
    Number,
    /// Null, or an object of the class of this name.
    Object(Name),
    /// Null, or an object of any class.
    AnyObject,
    /// Any value.
    Anything,
}
