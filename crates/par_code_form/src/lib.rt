//! What code each form of the language has, as definitions, and the labelled code itself; and what
//! it is for such code to stand as bytes at offsets, over a constant pool.
//!
//! Labelled code is a list of items in which branches go to labels: no byte offset and no constant
//! pool is there yet. The definitions say of each expression and each statement which items,
//! handlers and frames it has and how many operands lie there.
//!
//! Of placed code they say which instruction each item is, by the index of what it names, where
//! each label stands, and what a method's code then is in a class file. They also say which
//! labelled code has such a form, and what the pool needs for it. The crate writes no code: that is
//! done in crates above.
#![tactic(auto)]

pub mod item;
pub mod labelled;
pub mod opcode;

pub use item::Item;
pub use labelled::{Handler, LabelFrame, Labelled, Slot};
