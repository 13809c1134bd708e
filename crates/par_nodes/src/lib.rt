//! The rules of a typed body as a tree of data.
//!
//! The crate takes typed statements apart into the rules that their flow obeys: which part is
//! entered from which way, what leaves the node, what its value is made of. How a node can complete
//! is known as soon as it is made, from what is known of its parts, so no part is looked at twice.
//! It finds no facts: passes over the tree do.
#![tactic(auto)]

mod call;
pub mod declared;
pub mod draft;
pub mod expr;
pub mod kinds;
pub mod make;
pub mod possible;
pub mod rule;
pub mod stmt;
