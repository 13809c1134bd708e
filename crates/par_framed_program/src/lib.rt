//! The frames of all methods of linked class files, or the first method that has none.
//!
//! `framed` is asked before a run and keeps no frame; `program_frames` also gives the frames, which
//! a verifier needs. What is told of a class file that is refused is its class, number 46 and the
//! place of the method.
#![tactic(auto)]

mod frames;
mod look;

pub use frames::program_frames;
pub use look::framed;
