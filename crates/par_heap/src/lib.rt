//! The objects and the static fields of a running program.
//!
//! A machine looks fields up by numbers alone: an object by its class and its place among the
//! objects of that class, a static field by its place. The fields of all objects of one class lie
//! in one vector, so that a birth takes no memory of its own but for the growth of that vector.
//!
//! The crate knows no name, no type of a field and no event. It gives nothing back: an object
//! lives as long as the heap.
#![tactic(auto)]

mod block;
pub mod heap;
pub mod statics;

pub use heap::Heap;
pub use statics::Statics;
