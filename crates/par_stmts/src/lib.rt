//! The reader of blocks and statements.
//!
//! Each name of the grammar has a function, and so has each longer alternative. A function never
//! goes back, and it answers what the derivation of its symbols comes to: what is built, or the
//! fault at that very token. Statements in a block and catches are read by loops; what nests is
//! read by recursion, at most 64 deep.
#![tactic(auto)]

pub mod chain;
pub mod head;
pub mod local;
pub mod make;
pub mod simple;
pub mod stmt;

pub use par_policy_reader;
pub use par_policy_reader::par_reader;
