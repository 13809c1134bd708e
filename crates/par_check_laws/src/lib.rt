//! What is asked of the facts of a body: the rules on locks, flows and exceptions.
//!
//! The crate has definitions and their laws alone. A rule is a condition on what is known at a
//! spot, and the conditions of a body are listed without regard to any facts. How facts are found,
//! and which broken rule is told, is no matter of this crate.
#![tactic(auto)]

mod laws;

pub use laws::{closed_facts_that_keep_accept, least_facts_that_fail_refuse};
