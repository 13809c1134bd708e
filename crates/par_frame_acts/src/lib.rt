//! What each instruction of linked class files asks of a frame of kinds, and what it leaves.
//!
//! An index of a constant pool is looked at where an instruction has it: what it names is told by
//! the linked files, and descriptors are read where they stand. The crate works on no frame.
#![tactic(auto)]

mod acts;
mod descriptor;
mod forms;
mod handler;
mod indexed;
mod returns;
mod shape;

pub use acts::act;
pub use descriptor::{arguments_at, asked_kind, gives_at};
pub use handler::caught;
