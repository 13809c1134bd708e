//! The forms in which an attribute spells the frames of a method (Java Virtual Machine
//! Specification, Java SE 7, section 4.7.4, narrowed to types of ints, nulls and named classes).
//!
//! A form says a frame by what differs from the locals that the frame before lists. The crate says
//! what bytes spell a form and which form is written for a frame; it knows no constant pool and no
//! code, and reads and writes nothing.
#![tactic(auto)]

pub mod form;
mod laws;

pub use form::{FrameForm, PlaceType};
pub use laws::{read_forms_are_spelled, spelled_forms_are_read, written_is_shortest};
pub use par_pool;
