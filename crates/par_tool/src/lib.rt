//! The one call that both programs make: it reads the words and the files, judges, compiles or
//! runs, and says what came of it.
//!
//! The call composes what the layers below promise, and holds no reasoning of its own about
//! tokens, trees, policies, instructions or constant pools.
#![tactic(auto)]

pub mod answer;
mod audits;
mod classes;
mod inferences;
mod input_file;
mod lines;
mod reads;
mod samples;
mod sources;
mod spots;
pub mod tool;
mod traces;
mod verifications;

pub use par_words::Which;
