//! Where a thrown exception goes through the frames of a running program: to the first frame, from
//! the one that runs outward, of which a handler takes it; there to the first handler of its method
//! that covers the offset at which it stands and takes the class of the exception.
//!
//! The frame is found before anything is changed, so that what stands against its handler can be
//! told of the instruction that throws. The crate makes no object, compares no name and takes no
//! memory.
#![tactic(auto)]

mod catches;
mod landings;

pub use catches::handler;
pub use landings::{Landing, land, landing_of};
