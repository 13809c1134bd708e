//! What a run of a program is, as definitions: the events of a typed program on its inputs, each
//! with the locks that are open, and how the run ends.
//!
//! A run is told by what follows each way in which an expression or a statement can complete, and
//! has a bound on its steps. The crate runs nothing: that is done in a crate above. It looks at no
//! policy and checks no type; where the numbers of a tree name nothing, nothing happens there.
#![tactic(auto)]

mod laws;

pub use laws::{deeper_runs_extend, source_runs_extend};
