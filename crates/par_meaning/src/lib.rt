//! The machine of source runs: what a typed program does on its inputs, event by event, within a
//! bound on its steps.
//!
//! The work that is left lies in a vector, so that neither calls nor deep expressions nest calls of
//! the machine's own. Members, locals and bodies are found by number, and names are made only where
//! an event is handed out. The crate looks at no policy and checks no type; where the numbers of a
//! tree name nothing, nothing happens there.
#![tactic(auto)]

mod accept;
mod calls;
mod events;
mod exprs;
mod fields;
mod machine;
mod operators;
mod run;
mod source;
mod steps;
mod stmts;
mod unwind;
mod work;

pub use par_base::memory::NoMemory;
pub use run::{SourceEvent, SourceRun};
pub use source::run_source;
