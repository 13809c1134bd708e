//! The least facts of the bodies of a program, by points.
//!
//! The crate keeps what the rounds over the tree of rules find: each different environment once,
//! and ways with the numbers of theirs. Who asks facts but once has them as they are found. Either
//! way they answer the same questions. The crate knows no rule that can be broken.
#![tactic(auto)]

mod found;
mod keep;
mod kept;
pub mod known;
mod same;
mod statements;
mod table;

pub use found::{FoundFacts, found_facts};
pub use kept::{KeptWay, KeptWays};
pub use table::{FactTable, facts_of, table_of};
