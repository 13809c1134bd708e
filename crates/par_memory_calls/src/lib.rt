//! Public calls of what a run keeps: objects and static fields, frames, and the numbers that are
//! left of its inputs, of the lines that tell its events, of the long piles of kinds that a
//! verifier keeps, and of sets of numbers, each run with ample memory. The crate is tests alone,
//! and nothing stands on it.
#![tactic(auto)]

#[cfg(test)]
mod event_lines;
#[cfg(test)]
mod heaps;
#[cfg(test)]
mod input_lines;
#[cfg(test)]
mod piles;
#[cfg(test)]
mod place_frames;
#[cfg(test)]
mod sets;
#[cfg(test)]
mod stacks;
