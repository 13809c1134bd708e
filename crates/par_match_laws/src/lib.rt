//! The machine over what it asks of a program, as definitions: labelled code and linked class files
//! are both such programs, and what one instruction does is said once.
//!
//! A program tells what stands at a place of a method's code and where the next place is, which
//! handler takes an exception there, and what names and numbers are. A place is an offset in bytes
//! in a class file, and a position in the list of items of labelled code, that of an item that is
//! no label. A run of the machine matches a run of a program where each is met in the other: one
//! relation for both, with a rule for each way in which one instruction, or one step, is taken off.
//!
//! Labelled code names classes and members by texts, where code in a class file has an index of
//! its constant pool. What a text is here is what an index whose entry spells it is there. No
//! constant pool is read and nothing runs.
#![tactic(auto)]

mod engine_laws;

pub use engine_laws::{files_run_as_a_program, files_turn_as_a_program};
