//! Each method of the class files of a well-typed program has frames, so none of them is refused
//! for want of them.
//!
//! A law crate: no code is in it. The frames of labelled code stand where control comes by a jump
//! or by an exception, and nowhere does control run into what no frame says. Of bodies whose
//! statements are all reached: each label that a branch or an exception goes to has a frame, and so
//! has the label behind what never goes straight on. Of placed code with such frames: each offset
//! at which a frame is needed has one. And the frames that stand in placed code are those that are
//! read from its attributes.
#![tactic(auto)]

mod laws;
mod needed_laws;
mod read_laws;

pub use laws::loaded_files_are_framed;
pub use needed_laws::{bodies_have_frames, placed_code_is_framed};
pub use read_laws::placed_frames_are_read;
