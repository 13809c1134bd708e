//! Kinds of values, and frames of them.

use par_step_laws::par_pool::par_base::list::List;
use par_step_laws::par_pool::par_base::name::Name;

/// What kind of value a local or an operand holds. The exception classes that are built in stand
/// under their simple names.
#[derive(Drop)]
pub enum VKind {
    /// Any value, or none.
    Top,
    /// An `int`; a `boolean` is kept as one.
    Int,
    /// Null alone.
    Null,
    /// Null, or an object of the class of this name.
    Object(Name),
    /// Null, or an object of any exception class (true) or of any class (false).
    Base(bool),
}

/// What locals and operands hold; the operand that was pushed last comes last.
#[derive(Drop)]
pub struct Frame {
    pub locals: List<VKind>,
    pub stack: List<VKind>,
}

/// The frame at an offset of a method's code.
#[derive(Drop)]
pub struct PlacedFrame {
    pub offset: u32,
    pub frame: Frame,
}

/// The frames that are told of a method, by ascending offset.
#[derive(Drop)]
pub struct MethodFrames {
    pub at: List<PlacedFrame>,
}
