//! What is made of numbers of 32 bits: sums, which wrap, and bits.
//!
//! Each function is one operator of the definitions of par_values. The crate knows no machine.
#![tactic(auto)]

mod bits;
mod sums;

pub use bits::{and, or, shift_left, shift_right, shift_right_unsigned, xor};
pub use sums::{minus, negated, plus, quotient, remainder, times};
