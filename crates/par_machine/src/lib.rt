//! A machine that runs linked class files, one instruction a step.
//!
//! A step asks the method area for what an index names, lets an action do what the instruction
//! does, and goes on from what it came to; exceptions land where par_unwinding finds. The crate
//! compares no name and takes no descriptor apart. Names are made only where an event, an ending or
//! bad code is handed out.
#![tactic(auto)]

mod births;
mod branches;
mod calls;
mod departures;
mod dispatch;
mod events;
mod field_writes;
mod frame_work;
mod index_reads;
pub mod machine;
mod outcome;
mod quiet;
mod returns;
mod run;
mod site;
mod start;
mod step;
mod throws;
pub mod turn;
