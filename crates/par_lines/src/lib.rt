//! What the input channels of a running program have left of the numbers that they give.
//!
//! A line is looked up by its place, so that no name is compared while a program runs, and a number
//! is taken in constant time.
//!
//! The crate reads no file and knows no program: which channel has which line is for its callers
//! to know.
#![tactic(auto)]

pub mod lines;

pub use lines::Lines;
