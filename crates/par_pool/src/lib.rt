//! The constant pool of a class file: its entries, how they are spelled, and how one is made.
//!
//! A class file names everything by an index into its pool (Java Virtual Machine Specification,
//! Java SE 7, section 4.4). Here is the one place that knows how a constant is laid out, so that
//! the reader of class files and the compiler can't disagree. The crate never resolves a name to
//! a class or a member, and a pool that it made is never refused by its own reader.
#![tactic(auto)]

mod builder;
pub mod constant;
pub mod error;
pub mod item;
pub mod kind;
mod reader;
pub mod writer;

pub use builder::PoolBuilder;
pub use constant::{Constant, Pool};
pub use error::ClassError;
pub use par_base;
pub use reader::{LONGEST_CLASS, entries_of, read_pool};
