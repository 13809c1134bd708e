//! The rules on types, and the typed tree of a program.
//!
//! The crate finds the first place where a program whose names are known breaks a rule on types:
//! what does not fit where it stands, what is never reached, and what may be null. It makes no
//! typed tree: that is done where nothing is broken.
//!
//! As definitions, it says which typed tree a source has over its table: numbers in place of names,
//! a type and a point for each node, and a node for each `this` that is not written. Of sources
//! that break a rule it says nothing: there the tree is whatever its parts make of it.
#![tactic(auto)]

mod exprs;
mod fits;
mod inferred;
pub mod laws;
mod methods;
mod program;
mod stmts;

pub use inferred::first_inferred;
pub use program::check_bodies;
