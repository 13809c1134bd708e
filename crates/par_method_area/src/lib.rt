//! The method area of a machine: what is told of classes, fields and methods once, when a run
//! begins (Java Virtual Machine Specification, Java SE 7, section 2.5.4).
//!
//! A machine asks at each step for the code of a method, or for what an index of a constant pool
//! names. Descriptors are taken apart here, names of classes become numbers, static fields and
//! input channels get their places; afterwards each answer is one look into a row by class and
//! place.
//!
//! The crate runs nothing and holds no value of a run. It keeps no copy of a name: names are read
//! from the class files where an event or an ending is handed out.
#![tactic(auto)]

mod area;
mod channels;
mod classes;
mod exceptions;
mod fields;
mod known;
mod members;
mod methods;
mod names;
mod signatures;
mod statics;
mod told;

pub use area::MethodArea;
pub use known::{Code, MemberNames, NamedField};
pub use par_actions;
pub use par_step_laws::par_link;
