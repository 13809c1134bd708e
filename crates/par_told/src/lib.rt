//! Which policies of those that stand for an inferred field are told: those that are below no
//! other, so that nothing is said twice; and that what is told is still the least filling.
//!
//! The crate knows no text, and infers nothing.
#![tactic(auto)]

mod laws;
mod order;

pub use laws::told_is_least;
pub use order::told_numbers;
