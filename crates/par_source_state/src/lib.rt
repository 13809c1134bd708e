//! What a run of a typed program looks up, and what it remembers.
//!
//! The program with its inputs stays as it is: bodies, members and input lists are found by number.
//! What a step changes are the values that calls have so far, the locals of the methods that run,
//! and what fields, objects, input channels and locks have come to. The crate takes no step and
//! tells no event; where the numbers of a tree name nothing, nothing is found.
#![tactic(auto)]

mod bodies;
mod frames;
mod lines;
pub mod names;
mod program;
mod stack;
mod store;

pub use bodies::main_body;
pub use frames::Frames;
pub use program::Program;
pub use stack::Stack;
pub use store::Store;
