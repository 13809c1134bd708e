//! The judgement of a source: its passes in order, and the first refusal of the earliest pass in
//! which a rule is broken.
//!
//! The crate composes the passes. A judgement tells a broken rule on flows by the line and the
//! column of the check that failed, which only a place within the source has: the one law here says
//! that the checks of a source's bodies lie where the places of its tree do. The crate holds no
//! other reasoning of its own about trees, names, policies or facts. It reads no file and says
//! nothing.
#![tactic(auto)]

mod error;
mod sentence;
mod span_law;
mod tree;
mod verdict;

pub use error::JudgeError;
pub use par_alike::alike;
pub use span_law::checks_lie_within;
pub use verdict::{judge, program_of, typed_of};
