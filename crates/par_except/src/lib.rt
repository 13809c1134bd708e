//! Ways and exits, as the code keeps them: what is known at a spot, and how a part is left.
//!
//! The calls join exits kind by kind, raise a context, and take out what a catch or a loop absorbs.
//! This crate knows no tree and no rule: contracts say of each kind of exit what becomes of it.
#![tactic(auto)]

mod absorb;
mod env;
mod merge;
mod throws;
mod way;
mod ways;

pub use absorb::{absorb_loop, absorb_throw};
pub use merge::join;
pub use way::{Way, raise};
pub use ways::Ways;
