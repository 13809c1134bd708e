//! What linked class files do when they run: the state of a machine, one instruction, and a run
//! of as many as are allowed (Java Virtual Machine Specification, Java SE 7, chapters 2 and 6,
//! narrowed to the listed instructions).
//!
//! The crate is definitions and their laws. It runs nothing, reads nothing and knows no policy; a
//! lock is to it a static field. Frames are lists and objects go by class and number here, whatever
//! way a machine lays them out.
#![tactic(auto)]

mod laws;

pub use laws::{more_instructions_extend, own_fields_stand_apart, static_fields_stand_apart};
pub use par_link;
pub use par_link::par_pool;
