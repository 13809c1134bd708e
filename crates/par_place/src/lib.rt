//! Labelled code as bytes at offsets, over the constant pool of its class file.
//!
//! Each item gets the index of what it names, then each label its offset, and then the bytes are
//! written. The crate chooses no instruction but between the short and the long forms of a
//! constant, and knows nothing of what the code does.
#![tactic(auto)]

mod code_bytes;
mod handlers;
mod instruction;
mod laws;
mod name;
mod named;
mod offsets;
mod place;

pub use laws::placed_instructions_stand;
pub use place::{PlacedCode, place_code, place_labels};
