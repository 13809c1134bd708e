//! Public calls of the crates of policies, their sets and exits, each run once with ample memory.
//! The crate is tests alone, and nothing stands on it.
#![tactic(auto)]

#[cfg(test)]
mod exits;
#[cfg(test)]
mod lattice;
#[cfg(test)]
mod policies;
