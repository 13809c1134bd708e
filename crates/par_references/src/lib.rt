//! What the constants of class files name: a class, a field or a method of one of some files, or
//! of what every program has.
//!
//! Each text of the files' constant pools is looked up once, and has a number. Classes are found by
//! their names, and fields and methods by the numbers of their names and descriptors, so that what
//! a constant names is found by places and without a copy of a name. The crate judges no file: a
//! constant that names nothing, and a class or a member that is there twice, are told as they are.
#![tactic(auto)]

mod builtin;
mod classes;
mod entry;
mod keys;
mod members;
mod places;
mod tables;
mod texts;

pub use entry::{Builtin, Declared, Named};
pub use members::Members;
pub use tables::Tables;
pub use texts::Texts;
