//! The parts of a program, as its tree has them, in lists.
//!
//! The statements of a body with those inside them, the policy expressions of a program, the locks
//! that it asks for and the types of its locals, each in the order of the source.
#![tactic(auto)]

pub mod queried;
mod statements;
pub mod types;
pub mod written;

pub use par_base::memory::NoMemory;
