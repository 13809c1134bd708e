//! Lines that tell of a run: the text of each event and ending, and what comes of a line that is
//! not put.
//!
//! Runs of sources and of class files are told by the same lines, so the crate knows no machine. It
//! opens no file and knows no word of a command line.
#![tactic(auto)]

mod laws;
mod puts;
mod text;

pub use laws::equal_lines_are_equal_events;
pub use puts::{Closing, Untold, put_closing, put_event, put_line, status_of, untold_status};
pub use text::{add_event, bad_code_line, ending_line, event_line};
