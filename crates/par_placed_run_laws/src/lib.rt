//! That class files whose code is labelled code at offsets run as the labelled code does, as laws
//! of definitions.
//!
//! A program runs alike wherever its instructions stand. Instruction by instruction both are the
//! same, but for places: an offset in bytes there, a position in a list of items here. Nothing is
//! placed and nothing runs in this crate.
#![tactic(auto)]

mod laws;
mod relocation_laws;

pub use laws::{handlers_name_made_classes, placed_code_runs_as_labelled};
pub use relocation_laws::{places_do_not_matter, places_do_not_matter_to_runs};
