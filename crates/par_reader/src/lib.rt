//! Reading tokens by a grammar, whichever it is.
//!
//! The crate says once what it means that a function reads some symbols of a grammar: it gives
//! what the derivation of them builds and stops where that does, or it tells the fault of the
//! derivation at that very token. It has the place among the tokens, with what is read there, and
//! the laws by which readers of names and of alternatives are put together. None of this knows a
//! language. The one language, which readers above name, stands beside it, for proofs alone.
#![tactic(auto)]

pub mod cursor;
pub mod error;
pub mod language;
pub mod limit;
pub mod source_language;
