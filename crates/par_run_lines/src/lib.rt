//! Tells of a run: runs a machine for so many instructions, and puts a line for each event as it
//! happens and one for the ending.
//!
//! The crate knows no file and no word of a command line, and reads nothing.
#![tactic(auto)]

mod run;
mod step;

pub use run::tell_run;
pub use step::MOST_STEPS;
