//! The reader of policies, of locks and of types: what declarations and statements say of who may
//! see what.
//!
//! It has a function for each name of the grammar of policies and for each longer alternative. None
//! of them calls itself: lists are loops. It looks up no name, and compares no policies.
#![tactic(auto)]

pub mod clause;
pub mod ident;
pub mod lock;
pub mod policy;
pub mod types;

pub use par_reader;
