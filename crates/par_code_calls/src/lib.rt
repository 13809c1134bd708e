//! What is left of worked programs without policies, and the labelled code of small bodies and of
//! the largest, item by item and by what it puts out where it runs, with ample memory. The crate is
//! tests alone, and nothing stands on it.
#![tactic(auto)]

#[cfg(test)]
mod bodies;
#[cfg(test)]
mod erased;
#[cfg(test)]
mod items;
#[cfg(test)]
mod large;
#[cfg(test)]
mod nested;
#[cfg(test)]
mod runs;
