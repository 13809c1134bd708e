//! Reads input files: each line names a channel and gives its numbers.
//!
//! The crate turns the bytes of a file into inputs or names the first line that is wrong. It knows
//! no program, so whether a channel exists is not its matter, and it never repairs a line.
#![tactic(auto)]

mod cuts;
pub mod error;
mod laws;
mod line;
mod number;
mod place;
mod read;
mod seen;

pub use laws::{entries_stand_on_their_lines, files_are_right_or_broken};
pub use par_values;
pub use par_values::par_instr;
pub use place::line_of_entry;
pub use read::{LONGEST_INPUTS, read_inputs};
