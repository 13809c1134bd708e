//! The table of a program: what it declares, by numbers.
//!
//! The crate makes the table of a program that keeps the rules on names and the limits, and tells
//! the first broken rule of any other. It looks at no rule and no limit itself, and it types no
//! expression.
#![tactic(auto)]

mod classes;
mod error;
mod fields;
mod locks;
mod made;
mod methods;
mod policies;
mod resolved;
mod table;

pub use error::NameError;
pub use table::{Built, build, build_known};
