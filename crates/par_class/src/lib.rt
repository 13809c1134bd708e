//! Class files as bytes: what is read is spelled so, and what is written is read again.
//!
//! The format is that of the Java Virtual Machine Specification, Java SE 7, chapter 4, narrowed to
//! what this product writes: the versions 45 to 51, no interfaces, one of two superclasses, and no
//! attribute that is looked into but the Code of a method. The crate knows nothing of what a class
//! means: it never resolves a name, and never looks at an instruction.
#![tactic(auto)]

mod attribute;
mod code;
pub mod file;
mod laws;
mod member;
mod name;
mod place;
mod reader;
mod whole;
mod writer;

pub use file::{Attribute, Catch, ClassFile, CodeAttr, FieldFile, MethodFile};
pub use laws::{spelling_is_one, written_is_read_again};
pub use member::is_native;
pub use par_pool;
pub use par_pool::LONGEST_CLASS;
pub use reader::read_class;
pub use whole::write_class;
