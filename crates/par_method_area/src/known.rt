//! What is handed out of what is told once.

use par_actions::{Field, Fit, Gives};
use par_starts::Starts;

/// The code of a method.
#[derive(Clone, Copy)]
pub struct Code<'a> {
    pub bytes: &'a [u8],
    /// The most operands.
    pub room: u16,
    pub locals: u16,
    pub gives: Gives,
    pub starts: &'a Starts,
}

/// A field that an index names.
#[derive(Clone, Copy)]
pub struct NamedField {
    pub field: Field,
    /// The objects that have it.
    pub owner: Fit,
    /// It says whether a lock is open, so that a write to it is no event.
    pub is_lock: bool,
}

/// The names of a field or of a channel.
#[derive(Clone, Copy)]
pub struct MemberNames<'a> {
    pub class: &'a [u8],
    pub name: &'a [u8],
}
