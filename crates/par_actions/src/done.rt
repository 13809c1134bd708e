use par_values::value::MVal;

/// What an instruction came to.
#[derive(Clone, Copy)]
pub enum Done {
    /// It goes on behind itself.
    Goes,
    /// It goes on at its distance.
    Jumps,
    /// It throws a new exception of division by zero.
    ThrowsArithmetic,
    /// It throws a new exception of null, where neither this reason stands against it nor a lesser
    /// one that comes of its handler.
    ThrowsNull(Option<u8>),
    /// It throws this object, in the same way.
    Throws(MVal, Option<u8>),
    /// It writes this value to a static field, and goes on behind itself.
    Sets(MVal),
    /// It writes this value to a field of the object of this number, and goes on behind itself.
    Puts(u32, MVal),
    /// It makes the object of this number, and goes on behind itself.
    Born(u32),
    /// It puts this number out, and goes on behind itself.
    Outs(i32),
    /// It calls a method, whose frame runs. The frame that waits for it stands where it stood.
    Calls,
    /// It leaves its method.
    Returns,
    /// It leaves its method with this result.
    ReturnsWith(MVal),
    /// It cannot be run, for the reason of this number, and nothing is changed.
    Bad(u8),
}

/// Whether instructions stand where one may go on.
#[derive(Clone, Copy)]
pub struct Ways {
    /// Behind it.
    pub ahead: bool,
    /// At its distance.
    pub aside: bool,
}
