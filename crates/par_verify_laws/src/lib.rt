//! When class files are verified: frames fit the code of each of their methods, and are those that
//! the files tell of it where they tell some.
//!
//! Files that link and are verified never come to bad code, whatever a run reads and however long
//! it is. The state of a machine fits frames that are given for its methods: values are of their
//! kinds, and each object that is named is there. Where the frames fit, each instruction is run and
//! leaves a state that fits. The links of a machine say what is so where the files link; what an
//! instruction asks is what the texts of its constant pool say; a run begins in the static `main`.
//! The crate has no code.
#![tactic(auto)]

mod laws;
mod linked_laws;
mod sound_laws;

pub use laws::verified_programs_are_never_bad;
pub use linked_laws::{
    frames_keep_from_bad_code, frames_keep_programs_from_bad_code, linked_files_are_right,
    mains_are_right, texts_tell_acts, texts_tell_handlers,
};
pub use sound_laws::{fitting_files_are_never_bad, states_stay_fit};
