//! That the class files of a well-typed program are verified, those that are loaded and all of
//! them, as laws of definitions.
//!
//! Frames of kinds fit the labelled code of typed bodies: the kinds at an instruction are those of
//! the declared types of the locals in scope, and of the types of the operands that lie there, for
//! any meaning of names that a layout of the program agrees with. With what is known of items among
//! linked class files and of placed code, frames fit each method of the loaded class files, and are
//! those that the files tell of it where they tell some. So a verifier refuses none of them. The
//! crate makes no frame and has no code.
#![tactic(auto)]

mod body_laws;
mod fit_laws;
mod laws;

pub use body_laws::typed_code_fits;
pub use fit_laws::loaded_methods_fit;
pub use laws::{all_files_are_verified, loaded_files_are_verified};
