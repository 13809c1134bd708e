use par_instr::Instr;
use par_stack::Point;

/// An instruction where it stands.
#[derive(Clone, Copy)]
pub(crate) struct Site {
    pub(crate) point: Point,
    pub(crate) instr: Instr,
    /// The offset behind it.
    pub(crate) next: u32,
    /// An instruction starts where it goes on if it branches; at its own offset if it is no branch.
    pub(crate) aside: bool,
}
