//! What is asked of the facts of a body, as a list of data.
//!
//! The crate goes over a typed body once and lists its rules on locks, flows and exceptions: the
//! spot where each is asked, the place where it is told, and the condition. It knows no facts and
//! keeps no rule.
#![tactic(auto)]

mod ask;
pub mod body;
pub mod check;
mod expr;
mod method;
mod stmt;
