//! The parser: from the tokens of a source to its tree, or the token at which they are no sentence.
//!
//! Each name of the grammar of declarations has a function, and so has each longer alternative.
//! Declarations, members, parameters and effects are loops; expressions and statements are read by
//! the crates below. The parser never goes back to a token that it has taken, and looks up no name.
#![tactic(auto)]

pub mod class;
pub mod decl;
pub mod effect;
pub mod member;
pub mod method;
mod source;

pub use par_stmts::par_reader::error::ParseError;
pub use source::parse;
