//! Writes the class files of a program, each under the name of its class.
//!
//! The files come made: nothing is written before all of them are. What a folder holds when a write
//! fails is said class by class. The crate makes no file and reads none.
#![tactic(auto)]

mod class_files;

pub use class_files::write_classes;
