/// Where a frame stands in the code of a program.
#[derive(Clone, Copy, Debug, PartialEq, Eq)]
pub struct Point {
    /// The number of its class, and of its method in that class.
    pub class: u16,
    pub method: u16,
    /// The offset of the instruction that is next, or of the invoke that has not returned.
    pub at: u32,
}

/// Where the places of a frame lie among those of all.
#[derive(Clone, Copy)]
pub(crate) struct Extent {
    pub(crate) point: Point,
    /// The first local.
    pub(crate) base: usize,
    /// The first operand.
    pub(crate) floor: usize,
    /// The place behind the last operand.
    pub(crate) top: usize,
    /// The place behind the room of the operands.
    pub(crate) end: usize,
}
