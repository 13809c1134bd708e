//! The verifier of class files: whether frames fit the code of each method, and are those that the
//! files tell where they tell some.
//!
//! Of each method the least frames are found on a way through its code. What verified files are
//! kept from is told elsewhere: they never come to bad code.
#![tactic(auto)]

mod begun;
mod error;
mod first;
mod judgement;
mod names;
mod sizes;
mod told;
mod verifier;

pub use error::{Unfit, VerifyError};
pub use verifier::{verify, verify_linked};
