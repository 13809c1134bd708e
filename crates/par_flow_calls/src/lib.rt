//! Public calls of the crates that type programs, find what flows in them, run them and say what an
//! observer sees, each run once with ample memory. The crate is tests alone, and nothing stands on
//! it.
#![tactic(auto)]

#[cfg(test)]
mod auction;
#[cfg(test)]
mod facts;
#[cfg(test)]
mod inferred;
#[cfg(test)]
mod insecure;
#[cfg(test)]
mod keys;
#[cfg(test)]
mod observers;
#[cfg(test)]
mod releases;
#[cfg(test)]
mod source_runs;
#[cfg(test)]
mod typed_trees;
