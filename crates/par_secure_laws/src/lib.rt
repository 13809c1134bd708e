//! Security of accepted programs.
//!
//! The crate has definitions and their laws alone, and no code. The laws say that a program whose
//! facts keep all rules on flows is secure, and that a first difference of what an observer is
//! shown is explained by a release. How facts are found is no matter of this crate.
//!
//! Expressions, statements, bodies and whole runs go in step, over closed facts that pass the
//! checks: the lemmas read what facts and checks say of each form, and put the forms together by
//! what is known of tasks. At their end stands what two runs show that begin with inputs which an
//! observer cannot tell apart.
#![tactic(auto)]

mod laws;

pub use laws::{accepted_programs_are_secure, differences_are_explained};
