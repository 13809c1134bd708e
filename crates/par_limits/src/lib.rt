//! Whether the policies of a program are within their limits.
//!
//! The crate lists the policies of a program in the order in which its table numbers them, finds
//! the first that is one too many, and tells the first limit or birth policy that is broken. The
//! crate that makes the table takes the list from here, and the distinct ones of it, and what is
//! known of the program. No names are read: those are looked at before, and so are the limits of
//! actors and of locks.
#![tactic(auto)]

mod asked;
mod distinct;
mod listed;
mod many;
mod outcome;
mod policies;
mod same;

pub use distinct::distinct_entries;
pub use listed::entries;
pub use outcome::Outcome;
pub use par_resolved;
pub use policies::look;
pub use same::same_policy;
