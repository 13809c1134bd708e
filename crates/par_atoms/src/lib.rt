//! Joins of policies as sets of policy numbers, a bit for each. Contracts speak of who sees what,
//! in the words of par_policy, and of sets, in those of par_bits. No call takes memory, and this
//! crate neither makes policies nor looks into their clauses.
#![tactic(auto)]

mod atoms;
mod laws;
mod opened;

pub use atoms::{Atoms, is_below_at};
pub use laws::{join_is_below_where_each_is, members_are_those_had};
