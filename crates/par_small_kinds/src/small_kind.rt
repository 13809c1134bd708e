//! Kinds in few bytes.

/// What kind of value a place holds, each class by a number.
#[derive(Clone, Copy)]
pub enum SmallKind {
    /// No value came there yet.
    Unset,
    Int,
    /// Null alone.
    Null,
    /// Null, or an object of the class of this number, which is one of exceptions.
    Exception(u16),
    /// Null, or an object of another class of this number.
    Object(u16),
    /// Null, or an object of any exception class.
    AnyException,
    /// Null, or an object of any class.
    AnyObject,
    /// Any value, or none.
    Top,
}
