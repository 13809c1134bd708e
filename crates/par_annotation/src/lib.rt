//! The maker of typed trees.
//!
//! The crate makes the typed body of each method of a program: names become numbers, each node gets
//! its point and its type, and a receiver that is not written becomes a node. It looks at no rule:
//! what it makes of a program that breaks one is whatever the definition says.
#![tactic(auto)]

mod bodies;
mod exprs;
mod frame;
mod members;
mod node;
mod stmts;
mod targets;
mod written;

pub use bodies::type_bodies;
pub use written::Numbering;
