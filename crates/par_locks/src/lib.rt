//! The locks that are open whenever a point of a body is reached.
//!
//! They are those of the least facts of the body, as the rounds over its rules find them. The crate
//! keeps of these facts the locks of the entering ways alone.
#![tactic(auto)]

mod locks;

pub use locks::{LockFacts, locks_of};
