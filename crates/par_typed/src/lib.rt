//! A program whose names have become numbers and whose expressions have types.
//!
//! The crate has the table of a program, and its typed tree with the same as plain data for
//! definitions. It resolves no name and checks no type: that is done in the crates above.
#![tactic(auto)]

pub mod expr;
pub mod program;
pub mod stmt;
pub mod table;
pub mod ty;

pub use par_lexer;
pub use par_lexer::par_base;
pub use par_policy;
