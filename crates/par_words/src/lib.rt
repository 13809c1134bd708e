//! The words behind a program's name, and what they ask for.
//!
//! Each program is one simple command with flags and values (specs/Commands.antt), and has its
//! forms (specs/Words.antt). The crate reads words alone: it opens no file, and what the words ask
//! for is not its matter.
#![tactic(auto)]

mod commands;
mod words;

pub use words::{Request, Unread, Which, read_words};
