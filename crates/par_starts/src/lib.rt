//! Where the instructions of code start, told once for all offsets.
//!
//! A machine asks at each step whether an instruction starts where a run goes on. The walk through
//! code answers that for one offset in the time of a walk; here it is walked once, when a run
//! begins.
//!
//! The crate runs nothing, and knows no method and no class file.
#![tactic(auto)]

pub mod instructions;
pub mod starts;

pub use instructions::{Instructions, Standing, distance, standing_at};
pub use starts::Starts;
