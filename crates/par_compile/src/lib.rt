//! The class files of a program.
//!
//! Each declared class has one file: its fields, an initializer, its channels and its methods, over
//! one pool of what these name. It is written as par_compile_laws says, in version 51 with
//! frames, or in version 49 without them where it would be too long; the code comes from the crates
//! below. Here no instruction is chosen, and nothing is checked.
#![tactic(auto)]

mod access;
mod bytes;
mod channels;
mod class;
pub mod compiled;
pub mod draft;
mod entries;
mod fields;
mod initializer;
mod methods;
mod program;

pub use compiled::CompiledClass;
pub use program::{compile, compile_plain};
