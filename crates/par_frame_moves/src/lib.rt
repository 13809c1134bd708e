//! What instructions that name no class make of a frame of kinds, where it stands.
//!
//! Most instructions take numbers or objects of any class, and push a number, null or a local. Of
//! these no more is told than a few bytes, and a frame is changed in place. The crate knows no
//! constant pool.
#![tactic(auto)]

pub mod brief;
mod changes;
mod fit;

pub use brief::{Brief, in_brief};
