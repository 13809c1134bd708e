//! The class files of a program: that of the class it begins with, and each that one of those that
//! were read names.
//!
//! `main_file` reads the first of them, and `linked_program` all others, first named first, and
//! links them. What is told of class files that are refused is a class, a number and a value
//! (specs/Loaded.antt and specs/Judged.antt have the definitions).
//!
//! The crate takes files apart and links them by the crates below it, and knows no rule of either.
//! It never asks for a file twice, and it runs nothing.
#![tactic(auto)]

mod builtin;
pub mod error;
pub mod file_names;
mod found;
mod mention;
mod program;
mod read_files;

pub use error::Unloaded;
pub use file_names::class_file_name;
pub use program::{linked_program, main_file};
