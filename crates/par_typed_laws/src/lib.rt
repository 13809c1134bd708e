//! What a well-typed program is, over its table and the plain tree of its bodies.
//!
//! The crate has definitions and their laws alone, and no code. The definitions speak of numbers,
//! members and points, and of no source. The laws say that the typed tree of a source that breaks
//! no rule on names and types and exceeds no limit is such a program. It makes no tree and looks at
//! no rule.
#![tactic(auto)]

pub mod laws;
