//! The frames of a running program: the locals and the operand lists of all in one vector.
//!
//! A frame takes its locals and the room of its operands at the end of the vector when its method
//! is called, and gives them back when it is dropped, so that nothing else in a run takes memory
//! for a frame. Contracts see the frames as a list, the one that runs first.
//!
//! The crate knows no instruction, no class file and no name, and decides nothing: what an
//! instruction may do is for its callers to look at first.
#![tactic(auto)]

mod places;
pub mod point;
pub mod stack;

pub use point::Point;
pub use stack::Stack;
