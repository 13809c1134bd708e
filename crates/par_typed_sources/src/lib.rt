//! Sources that crates of tests share, and their typed programs. Nothing but tests stands on it.
#![tactic(auto)]

pub mod auction_tree;
pub mod large_classes;
pub mod large_methods;
mod sources;

pub use sources::{typed, with_main};
