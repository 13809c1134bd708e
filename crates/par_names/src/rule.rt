//! The rules on names, by their numbers.

/// A name that stands for nothing at its place.
pub const UNKNOWN_NAME: u16 = 101;
/// A second declaration of a name.
pub const SECOND_NAME: u16 = 102;
/// An actor that is not declared.
pub const UNKNOWN_ACTOR: u16 = 103;
/// A lock with another number of actors than its declaration has.
pub const OTHER_ARITY: u16 = 104;
