//! The forms of frames.

use par_base::list::List;

/// What is spelled of a local or an operand.
#[derive(Drop)]
pub enum PlaceType {
    Top,
    Int,
    Null,
    /// An object of a class, by the index of its constant.
    Class(u16),
}

/// A frame as an attribute spells it. Each form but the last two leaves the listed locals as they
/// are or cuts them, and the first number of each but `Cut` is the distance from the frame before.
#[derive(Drop)]
pub enum FrameForm {
    /// Tags 0 to 63: no operands.
    Same(u8),
    /// Tags 64 to 127: one operand.
    OneOperand(u8, PlaceType),
    /// Tag 247: one operand, farther away.
    OneOperandFar(u16, PlaceType),
    /// Tags 248 to 250: so many locals are cut, and then the distance; no operands.
    Cut(u8, u16),
    /// Tags 251 to 254: up to three locals more; no operands.
    More(u16, List<PlaceType>),
    /// Tag 255: all locals and all operands.
    Full(u16, List<PlaceType>, List<PlaceType>),
}
