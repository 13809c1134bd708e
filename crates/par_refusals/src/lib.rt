//! Why a source is refused: a broken rule with its place, and which of several is told.
//!
//! The crate knows no rule: those on names, limits, types and flows are told by it in the crates
//! that have them.
#![tactic(auto)]

pub mod refusal;
