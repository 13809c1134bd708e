//! That the loaded class files of a well-typed program show its run, as laws of definitions.
//!
//! The layout of a program is where its classes and members stand once some of its files are
//! loaded: those that its code names, in whichever order they were read. Names and numbers in these
//! files are those of the program. Nothing is said of a class that is not loaded.
//!
//! What is known of erased programs, of labelled code, of code at offsets and of the places of
//! classes and members is put together here. The crate makes no file and runs none.
#![tactic(auto)]

mod laws;
mod layout_laws;
mod loaded_laws;

pub use laws::{files_show, files_show_whole};
pub use layout_laws::{
    code_is_placed, files_are_laid_out, initializers_stand, names_are_laid_out,
    programs_begin_at_main, states_begin_alike,
};
pub use loaded_laws::{erased_tables_have_kinds, loaded_files_are_known};
