//! Environments, each different one kept once, under a number.
//!
//! Facts name an environment at every way, and few of a body's are different. One that comes is
//! found by the questions that tell those apart which are kept: each is asked of one local.
#![tactic(auto)]

mod apart;
mod env;
mod envs;

pub use env::Env;
pub use envs::Envs;
