//! Frames of kinds: what an instruction asks of the kinds of locals and operands and what it
//! leaves, when the frames that are given for a method fit its code, and which are the least.
//!
//! The definitions are stated for any meaning of the indices of a constant pool. One instance is at
//! linked class files, where an index is what it is to the machine; another reads the texts of a
//! constant pool, for any map of members and any list of exception classes.
//!
//! The least frames are found by passes over the code: what each instruction leaves is merged into
//! the frames of those at which it goes on, until nothing rises. What is found are the least frames
//! that fit, or nothing exactly where none fit; frames that are told from the start do not rise.
//! These need no state of a machine and no links. The crate has no code.
#![tactic(auto)]

pub mod frame;
mod laws;

pub use frame::{Frame, MethodFrames, PlacedFrame, VKind};
pub use laws::{frames_as_told_are_least, least_frames_are_least, merges_are_least};
