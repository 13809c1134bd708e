//! What the policies, locks and types of a program come to, by numbers.
//!
//! The names of a program that keeps the rules on names become numbers here, its policy
//! expressions policies in normal form, and its declarations the table. The crate looks at the
//! limits of policies, and at no rule on names: those are looked at before.
#![tactic(auto)]

pub mod births;
pub mod entries;
mod firsts;
mod forms;
mod joins;
pub mod known;
pub mod limits;
pub mod literals;
mod near;
pub mod numbers;
mod read;
mod same;
pub mod scope;
mod settled;
pub mod types;

pub use par_base::memory::NoMemory;
pub use par_names;
