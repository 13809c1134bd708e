//! Labelled code in a class file, with its frames or without them.
//!
//! Each slot of a frame becomes the kind of what it holds, and of frames at one offset the last
//! stays. They stand in one attribute of the code. Whether they fit the code is not asked here.
#![tactic(auto)]

mod attribute;
mod first;
mod kinds;
mod offsets;
mod placement;

pub use kinds::kinds_of;
pub use offsets::frames_at;
pub use placement::place;
