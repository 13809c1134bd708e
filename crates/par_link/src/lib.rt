//! Class files that are linked: what each of them names is looked up among all.
//!
//! A machine needs of a list of class files that each class, field and method that one of them
//! names is there, that descriptors say kinds, and that code is listed instructions to its end.
//! `link` tells the first rule that is broken (specs/Rules.antt has the rules, specs/Order.antt
//! their order), or keeps the files with what each index of each constant pool names, by places and
//! without a copy of a name, so that a machine looks nothing up.
//!
//! The crate reads no file and runs nothing. It never asks whether an instruction fits what it
//! works on, or whether an index is of the kind that an instruction needs, which shows only in a
//! run.
#![tactic(auto)]

mod channels;
pub mod error;
mod fault;
mod fit;
pub mod linked;
mod linker;
mod rules;
mod sort;
mod walk;

pub use error::LinkError;
pub use fit::inputs_fit;
pub use linked::Linked;
pub use linker::link;
pub use par_references::{Builtin, Declared, Named};
pub use par_single::par_pool;
