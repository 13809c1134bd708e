//! Paralocks policies over fixed actors and ground locks: who sees what, and which policy is at
//! least as restrictive as which. Every contract here speaks of observers, an actor with a set of
//! locks, and of plain sets; a layer above never looks into clause lists.
//! This crate knows no names: actors, locks and policies of a program are numbers.
#![tactic(auto)]

mod clauses;
mod joins;
mod lattice;
mod laws;
mod locks;
mod normal;
mod numbers;
mod open;
mod order;
mod policies;
mod products;

pub use clauses::{Clause, clause_leq};
pub use joins::PolicySet;
pub use lattice::{join, join_front, meet, special};
pub use laws::{
    join_is_least_upper_bound, meet_is_greatest_lower_bound, open_locks_lower,
    order_is_antisymmetric, order_is_reflexive, order_is_transitive, specialised_is_below,
};
pub use locks::Lockset;
pub use open::OpenLocks;
pub use order::{leq, leq_at, leq_where, sees};
pub use par_base::memory::NoMemory;
pub use par_bits;
pub use policies::Policy;
