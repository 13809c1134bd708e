//! Frames as a verifier keeps them: what fits into what, how frames are merged, and what an
//! instruction asks of a frame and leaves.
//!
//! A class stands by its name as the class files have it, so that kinds are copied and no name is.
//! The crate knows no method and no constant pool: an instruction is what it asks and leaves.
#![tactic(auto)]

pub mod act;
mod changes;
mod demands;
mod fits;
pub mod frame;
mod merges;
mod outcome;
mod pieces;
pub mod pile;

pub use act::{Act, Also, Asked, Flow, Leaves};
pub use frame::PlaceFrame;
pub use merges::Merges;
pub use par_place_kinds::PlaceKind;
pub use pile::Pile;
