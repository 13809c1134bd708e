//! The class files of a program link: all of them, and each part that is loaded.
//!
//! The laws say that no rule of linking is broken by the files of a program whose code names what
//! the program has, that no refusal comes where they are loaded for its class `main`, and what is
//! loaded then. And they say of the well-typed program that is compiled, which has no policies any
//! more, that it is what linking asks: names are names and differ, and its code names what it has.
//! The crate reads and writes no file.
#![tactic(auto)]

pub mod laws;
pub mod linkable_laws;
