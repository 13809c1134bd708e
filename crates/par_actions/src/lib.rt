//! What each instruction does to a running program.
//!
//! An instruction is one function, which finds the least reason why it cannot be run, and does it
//! where there is none. What it came to is told in numbers and is small, so that nothing is named
//! before it is handed out, and memory is taken for a new object alone.
//!
//! The crate knows no constant pool and compares no name. It moves no frame to another offset:
//! whether an instruction stands where it goes on is told to it.
#![tactic(auto)]

pub mod births;
mod branches;
pub mod callee;
mod calls;
mod departures;
pub mod done;
pub mod fields;
pub mod fit;
mod objects;
mod operands;
mod operators;
mod tests;
mod values;
mod wrong_indices;

pub use births::{Class, create};
pub use branches::{jump, jump_if, jump_if_both, jump_if_null, jump_if_same};
pub use callee::{Callee, Target};
pub use calls::{invoke_special, invoke_static, invoke_virtual};
pub use departures::{Gives, is_exception, leave, leave_number, leave_object, throw};
pub use done::{Done, Ways};
pub use fields::{Field, get_static, put_static};
pub use fit::{Fit, accepts};
pub use objects::{get_field, put_field};
pub use operators::{Operator, combine, increase, negate};
pub use values::{
    copy, discard, load_number, load_object, push_null, push_number, store_number, store_object,
};
pub use wrong_indices::{misnamed, misnamed_read, misnamed_write};
