//! Tells of a source run: a line for each event, with the locks that are open when it happens, and
//! one for the ending. It also finds the first line of the inputs that names no input channel.
//!
//! The crate runs nothing and reads no file: a run is handed in whole, and what is told of it is
//! what it holds. Numbers of locks and actors that name nothing have no text. Who tells of policies
//! spells locks and actors by it too.
#![tactic(auto)]

mod channels;
mod run_lines;
mod text;

pub use channels::inputs_fit;
pub use run_lines::tell_source;
pub use text::{actor_name, add_lock};
