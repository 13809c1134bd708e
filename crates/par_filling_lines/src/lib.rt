//! The lines that tell which policies are inferred for fields.
//!
//! The crate infers nothing, and puts nothing. Locks and actors are spelled as in the lines of a
//! source run.
#![tactic(auto)]

mod lines;
mod text;

pub use lines::filling_lines;
