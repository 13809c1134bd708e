//! That the labelled code of a well-typed program is code of typed bodies, and meets what placing
//! asks, as laws of definitions.
//!
//! A well-typed program says of each expression what its parts are, and code asks of it what a
//! machine needs: values of their types, locals that are set, and room for operands. The crate has
//! no code. What a layout owes is asked one by one of what a body names, so that a layout of a part
//! of the program will do.
//!
//! The code of each node has at most 16 bytes and needs at most eight entries of a constant pool,
//! each label that it uses stands in it once, and control comes behind no code that has no
//! instruction left.
#![tactic(auto)]

pub mod laws;
pub mod placeable_laws;
