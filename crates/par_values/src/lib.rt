//! What a run of a program gives and takes: values, events, endings and inputs; and, as
//! definitions, what one instruction does to a frame and a program.
//!
//! Types with names are made where a run is handed out, where inputs are read or where names are
//! looked up. The crate is plain data: it runs nothing, and knows no policy and no lock.
#![tactic(auto)]

pub mod inputs;
pub mod kind;
mod laws;
pub mod link;
pub mod run;
pub mod value;

pub use laws::stack_effect_is_what_is_done;
pub use par_base;
pub use par_instr;
