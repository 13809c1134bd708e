//! Finite sets of numbers below a bound, a bit for each: copied as they are, without memory.
//! Every contract speaks of members; that a set is a number or an array of words is for this crate
//! alone. It knows nothing of what the numbers stand for.
#![tactic(auto)]

mod bits;
mod laws;

pub use bits::Bits;
pub use laws::{same_members_are_equal, size_grows, size_grows_by_member, size_is_at_most_bound};
