//! What a class file says of itself: the texts that its constant pool has, its members, and what
//! their descriptors say.
//!
//! The definitions also say what each index of a constant pool names once names are looked up among
//! some files (specs/Links.antt), and where instructions start in code (specs/Walk.antt).
//!
//! The crate runs nothing and knows no second file.
#![tactic(auto)]

pub mod described;
pub mod descriptor;
pub mod member;

pub use par_class;
pub use par_class::par_pool;
