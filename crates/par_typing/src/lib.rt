//! The typed program, or the first broken rule on types.
//!
//! The crate puts the pass over the rules on types before the maker of typed trees, for a program
//! whose names and limits are right and whose table is made. It looks at no rule itself, and makes
//! no node. Its laws prove of the table of such a source what `par_program_laws` says that later
//! layers may ask of it.
#![tactic(auto)]

mod error;
mod program;
pub mod table_laws;

pub use error::TypeError;
pub use program::{type_known, type_program};
