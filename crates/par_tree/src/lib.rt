//! What a Paragon source is as a tree, and the grammar that it is read by.
//!
//! The crate has the types of the whole language, the same as plain data for definitions, the
//! grammar with what a derivation builds, and the number of nodes of a method. It reads no token:
//! readers stand in the crates above.
#![tactic(auto)]

pub mod decl;
pub mod expr;
pub mod ident;
pub mod nodes;
pub mod policy;
pub mod stmt;
pub mod types;
