//! The numbers of the rules, by what breaks each.

/// An opcode that is not listed.
pub(crate) const UNLISTED: u16 = 20;

/// An opcode whose operands run past the end of the code.
pub(crate) const CUT: u16 = 21;

/// A class that is named and is not there.
pub(crate) const NO_CLASS: u16 = 40;

/// A field that is named and is not there.
pub(crate) const NO_FIELD: u16 = 41;

/// A method that is named and is not there.
pub(crate) const NO_METHOD: u16 = 42;

/// A class, a field or a method that is there twice.
pub(crate) const TWICE: u16 = 43;

/// A field, a method or a channel without the name or the descriptor that it needs.
pub(crate) const ILL_DESCRIBED: u16 = 44;

/// More files than are linked.
pub(crate) const TOO_MANY: u16 = 45;
