//! Kinds of places in few bits, and what straight code makes of them; and sets of numbers in bits,
//! of which the next one is found at once.
//!
//! Frames are guessed from these. Nothing is promised of a guess, which is looked at as each frame
//! that is told is, so that no contract here says which kinds come out. The crate knows no method.
#![tactic(auto)]

mod before;
mod classes;
mod effect;
mod kinds;
mod ordered;
mod small_kind;

pub use before::Before;
pub use classes::Classes;
pub use effect::{Change, Effect, Held};
pub use ordered::Ordered;
pub use small_kind::SmallKind;
