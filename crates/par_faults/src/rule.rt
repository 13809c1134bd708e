//! The rules on names that are looked at here, by their numbers.

/// A second `!` of a method.
pub const SECOND_EFFECT: u16 = 102;
/// No method `main` where a program can begin, or one too many.
pub const WRONG_MAIN: u16 = 105;
/// An inferred field of objects whose birth policy is not written.
pub const UNKNOWN_BIRTH: u16 = 108;
