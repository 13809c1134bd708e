//! The reader of expressions: from tokens to the tree that a derivation of them builds.
//!
//! It has a function for each name of the grammar of expressions and for each longer alternative.
//! Operators are rows of a table. It never goes back to a token that it has taken, and it looks up
//! no name.
#![tactic(auto)]

pub mod expr;
pub mod make;
pub mod operator;
mod parse;

pub use parse::parse_expr;
