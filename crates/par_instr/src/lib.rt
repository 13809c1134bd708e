//! The instructions of the Java virtual machine that this product writes and runs.
//!
//! Compiler and runner share one table of opcodes, so neither can read what the other did not
//! write. The crate knows single instructions: how one is spelled in bytes (Java Virtual Machine
//! Specification, Java SE 7, section 6.5) and how it changes the length of the operand list. It
//! never looks into a constant pool, follows a branch or runs anything.
//!
//! An opcode is one line of the table `opcodes!` in opcodes.rt and one row of `row` in
//! specs/Spelling.antt; a variant that is new is named in `variants` there.
#![tactic(auto)]

mod instr;
mod laws;
mod numbers;
mod opcodes;
mod operands;
mod spelling;

pub use instr::{Instr, InstrError};
pub use laws::{
    decoded_is_what_stands, spelling_ends_itself, spelling_is_one, spelling_is_read_again,
};
pub use par_base::memory::NoMemory;
pub use spelling::{decode, encode, stack_effect};
