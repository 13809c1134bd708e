//! What every floor builds of: lists, names, numbers as text, and the one refusal for want of
//! memory.
//!
//! The crate knows no token, no file and no program. What a word or a number stands for is for its
//! callers.
#![tactic(auto)]

pub mod letters;
pub mod list;
pub mod memory;
pub mod name;
pub mod numbers;
