//! The class files of a program, as definitions: flags, members, code and constants (Java Virtual
//! Machine Specification, Java SE 7, chapter 4). Nothing is written here.
//!
//! The frames of labelled code are those of its labels. Placed, each stands at the offset of its
//! label, in one attribute of the code.
//!
//! A descriptor is written from a type and read as the kind of a machine's values. That these two
//! fit, whatever types and names there are, is a law: it is asked both where class files are linked
//! and where their code is run.
#![tactic(auto)]

mod descriptor_laws;

pub use descriptor_laws::descriptors_say_types;
