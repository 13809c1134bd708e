//! The way through the code of a method: what each instruction leaves is merged into the frames of
//! those at which it goes on, until nothing rises.
//!
//! The way goes by offset, and back to a frame that rose. A frame is handed on, and kept no longer
//! once its instruction was looked at, but where code goes back to it. The crate says of one method
//! whether frames fit it, and knows nothing of the order of methods and files.
#![tactic(auto)]

mod course;
mod fixpoint;
mod goes;
mod landings;
mod outcome;
mod spared;
mod sweep;
mod table;
mod told_frames;
mod visit;

pub use fixpoint::passes;
pub use par_frame_guesses::Method;
pub use table::{Table, put};
