//! A program as an observer meets it, and which inputs an observer cannot tell apart.
//!
//! The crate runs nothing. What a program's runs and policies are is said by definitions alone, on
//! which what is promised of two runs stands. Lemmas say what a task of a run does to a state,
//! where nothing of it is shown, and what two tasks that go in step show. They speak of no facts
//! and no checks.
#![tactic(auto)]

mod observers;

pub use observers::alike;
