//! The frames that the methods of a class file have, read from the attributes of their code, or the
//! first method that has none (number 46).
//!
//! `first_unframed` looks at the frames alone: what it keeps are their forms and where they stand.
//! `frames_of` also gives their kinds, and `method_forms` of one method what its frames are said
//! by. What is written as frames is read as these frames again.
//! Whether frames fit the code is not asked here.
#![tactic(auto)]

mod error;
mod files;
mod form_reader;
mod frames;
mod kinds;
mod laws;
mod methods;
mod needed;
mod sizes;
mod takes;

pub use files::{UNFRAMED, first_unframed, frames_of};
pub use laws::written_frames_are_read;
pub use methods::method_forms;
pub use sizes::delta;
