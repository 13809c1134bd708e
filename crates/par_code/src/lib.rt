//! The labelled code of a plain program's methods.
//!
//! Each form appends its items to a draft, and labels are numbered as they are handed out. The
//! crate knows no byte offset and no constant pool, and checks nothing.
#![tactic(auto)]

pub mod again;
pub mod draft;
pub mod exprs;
pub mod method;
pub mod shape;
pub mod stmts;
pub mod ways;
pub mod words;

pub use method::code_of;
pub use par_code_form::{Handler, Item, LabelFrame, Labelled, Slot};
