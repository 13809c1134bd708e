//! What an instruction asks of a frame, and what it leaves.

use par_place_kinds::PlaceKind;

/// What is asked of an operand or of a local.
#[derive(Clone, Copy)]
pub enum Asked<'f> {
    Number,
    /// Null, or an object of the class of this name.
    Object(&'f [u8]),
    AnyObject,
    Anything,
}

/// What is asked beside the operands that are taken.
#[derive(Clone, Copy)]
pub enum Also<'f> {
    Nothing,
    /// The first operand can be thrown.
    Throwable,
    /// The first operand is null or of an exception class.
    Exceptional,
    /// The first operand is of the kind of the method's result.
    Result(Asked<'f>),
    /// A local is of a kind.
    Local(u8, Asked<'f>),
    /// There is such a local.
    InRange(u8),
}

/// What is done to locals and operands, once those that are taken are gone.
#[derive(Clone, Copy)]
pub enum Leaves<'f> {
    /// Pushes this, where it is something.
    Gives(Option<PlaceKind<'f>>),
    /// Pushes a local.
    Loads(u8),
    /// Pushes twice what was taken.
    Copies,
    /// Sets a local to what was taken.
    Stores(u8),
}

/// Where a run goes on.
#[derive(Clone, Copy)]
pub enum Flow {
    Onward,
    Jumps(i16),
    Branches(i16),
    Nowhere,
}

/// An instruction.
pub struct Act<'f> {
    /// It is never run: an index of a wrong kind, static and instance, or a return that does not
    /// fit.
    pub wrong: bool,
    /// The operands that it takes, the last pushed first.
    pub takes: Vec<Asked<'f>>,
    pub also: Also<'f>,
    pub leaves: Leaves<'f>,
    pub flow: Flow,
}

// Written out, so that what owns one is proved without its parts.
impl Drop for Act<'_> {
    fn drop(self) {
        let Act {
            wrong: _,
            takes: _,
            also: _,
            leaves: _,
            flow: _,
        } = self;
    }
}
