//! What names stand for in the body of a method.
//!
//! The crate finds the classes and members of a table by their names, keeps the locals that are in
//! scope, and says which field or which method a place of a body means. Each look-up takes constant
//! time. It refuses nothing: a name that stands for nothing has no number.
#![tactic(auto)]

pub mod home;
pub mod index;
pub mod locals;
pub mod meaning;
mod member_index;
pub mod members;
mod named;
