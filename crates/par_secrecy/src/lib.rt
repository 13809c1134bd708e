//! What it means that a program is secure: an observer that was shown equal events of two runs is
//! shown equal next events, where it cannot tell their inputs apart.
//!
//! The definitions are stated once, over any program that is given as its runs and its policies,
//! and over any files that are given as theirs. They know no language, no type and no check, and
//! nothing here runs.
#![tactic(auto)]

mod files;
mod laws;

pub use files::shown_files_are_secure;
pub use laws::{
    alike_is_reflexive, alike_is_symmetric, alike_is_transitive, fitting_gives_the_same,
};
