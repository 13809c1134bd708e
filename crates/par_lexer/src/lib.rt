//! The words of a Paragon source: its bytes are cut into tokens, with their places.
//!
//! It knows no grammar and no name that a program declares, and it never repairs a faulty source.
//! The list and the name of which every layer builds are handed on.
#![tactic(auto)]

mod bytes;
mod cut;
mod laws;
pub mod operator;
mod piece;
mod place;
mod runs;
mod scan;
pub mod sign;
mod table;
pub mod token;
pub mod word;

pub use cut::{LONGEST_SOURCE, lex};
pub use laws::sources_are_cut_one_way;
pub use par_base;
pub use par_base::{list, memory, name};
pub use place::place_of;
