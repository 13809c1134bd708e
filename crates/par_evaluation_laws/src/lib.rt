//! What a program is as labelled code, as definitions, and that the code of an expression shows its
//! evaluation: calls, the null test of a receiver and the initializers of new objects among it.
//!
//! The state of a program and that of a machine agree in values of their types, locals that are
//! set, fields, objects, input lists and open locks, where classes and members have other numbers
//! on both sides; and definitions say what is asked of typed bodies. The law of whole programs
//! stands in the crate above, which has the statements.
#![tactic(auto)]
