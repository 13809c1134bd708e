//! A method whose frames are looked for, and frames that it may have where its code goes back.
//!
//! Nothing is promised of a guess but that it is made or is none: who asks for it looks at it as at
//! all frames that are told. The crate knows what pieces of code make of kinds in few bits, and
//! merges no frames.
#![tactic(auto)]

mod back;
mod bounds;
mod due;
mod facts;
mod frames;
mod guess;
mod handler;
mod likes;
mod method;
mod piece;
mod spots;

pub use back::{back_offsets, is_marked, mark};
pub use frames::kept;
pub use guess::{Guess, guessed};
pub use handler::is_around;
pub use method::Method;
