//! Whether control comes behind a statement.
//!
//! The crate says of each statement whether it can complete normally and whether a break of the
//! loop around it is inside. It says so of source trees and of typed trees, by the form of the
//! tree alone: no test but the literal `true` is looked at, and nothing takes memory.
#![tactic(auto)]

mod break_inside;
mod completion;

pub use break_inside::breaks;
pub use completion::{block_completes, completes};
pub use par_typed;
pub use par_typed::par_lexer;
