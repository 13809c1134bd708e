//! The first broken rule of those on names and limits, over a whole program.
//!
//! The crate looks at all declarations, counts what is limited, and puts the passes together: the
//! rules on names, and where they are kept, what is counted and the limits of policies. What names
//! a body may say is for par_names.
#![tactic(auto)]

mod classes;
mod counts;
mod faults;
mod laws;
pub mod limit;
mod locals;
mod locks;
mod mains;
mod members;
mod methods;
mod names;
mod places;
mod rule;

pub use counts::{check_class_counts, check_declared};
pub use faults::{first_fault, look};
pub use laws::faults_lie_within;
pub use names::first_broken_name;
