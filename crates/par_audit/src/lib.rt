//! The releases of an accepted program for an actor: the places where it can learn more than the
//! policies alone allow, since a lock is open there.
//!
//! The list is exact, and laws say what it is good for: where it is empty, the program is secure
//! for the actor whatever locks are open. Whether a value is released to a
//! policy is worked out once, and looked up from then on. The crate finds no facts and judges no
//! source.
#![tactic(auto)]

mod known;
mod laws;
mod release;
mod row;

pub use laws::{clauses_decide, no_release_is_secure, shown_files_are_secure_for};
pub use release::{Release, audit};
