//! That labelled code runs as the program that it was made of, and that a program without policies
//! has the runs of the typed program that it was made of, as laws of definitions.
//!
//! A step of the program costs at most sixteen instructions. Handlers, frames, initializers of
//! objects, calls, early exits, loops and queried locks are all part of it. Without policies a
//! program has the same events, in their order, and the same ending, at each number of steps: of
//! types it is used that a body is proper, so that what is never null needs no test. The crate
//! makes no code and runs none.
#![tactic(auto)]

mod erase_laws;
mod laws;

pub use erase_laws::{plain_fronts_are_fronts, plain_runs_show};
pub use laws::labelled_code_shows;
