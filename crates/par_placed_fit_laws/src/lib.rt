//! That frames which fit labelled code fit it where it is placed, as laws of definitions.
//!
//! Frames of kinds fit labelled code where each item has the frame in which it finds locals and
//! operands, and each label what comes there. What an item takes and leaves is asked as a function,
//! so that the definitions hold for any meaning of the names that items have.
//!
//! Placed, each instruction has the frame of its item at its offset, a branch goes to the offset of
//! its label, and a handler covers the bytes between its labels. The frames that are written of it
//! are a part of these. An instruction of placed code takes and leaves what its item does, whatever
//! its index; and where names are what a layout says, items take and leave what typed code relies
//! on. The crate has no code.
#![tactic(auto)]

mod item_laws;
mod laws;

pub use item_laws::{items_act_as_placed, named_items_tell};
pub use laws::{placed_code_fits, written_frames_are_given};
