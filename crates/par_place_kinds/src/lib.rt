//! Kinds of places as a verifier keeps them, and how lists of them are told and compared.
//!
//! A class stands by its name as the class files have it, so that kinds are copied and no name is.
//! The crate knows no frame and no instruction.
#![tactic(auto)]

mod different;
mod few;
pub mod kind;
pub mod kinds;
mod lookup;
mod piece;
mod spelling;

pub use few::{FewKinds, Telling};
pub use kind::PlaceKind;
pub use piece::Piece;
