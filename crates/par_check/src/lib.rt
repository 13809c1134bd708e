//! The verdict on the flows of a program: the first broken rule, if one is broken.
//!
//! The crate asks the facts of each body for all rules on locks, flows and exceptions, and tells
//! the one that is broken at the least place. An accepted program keeps its facts; who wants the
//! verdict alone keeps none. The crate finds no facts: par_flow does.
#![tactic(auto)]

mod accepted;
mod error;
mod first;
mod keeps;
mod listed;
mod locks;
mod order;
mod policies;
mod program;
mod row;
mod ways;

pub use accepted::{Accepted, all_facts, check};
pub use error::CheckError;
pub use first::first_broken;
pub use keeps::{is_met, value_of};
pub use policies::Policies;
pub use program::verdict;
pub use ways::known_at;
