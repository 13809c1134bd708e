//! Public calls of the crates that read sources, down to the table of a program, and of the one
//! that makes samples, each run once with ample memory: what a contract leaves open, as that a call
//! which may lack memory does not give up. The crate is tests alone, and nothing stands on it. So
//! are the other crates of calls. They stand here and not beside the calls, since a crate with
//! tests of its own is proved twice.
#![tactic(auto)]

#[cfg(test)]
mod first_faults;
#[cfg(test)]
mod samples;
#[cfg(test)]
mod sentences;
#[cfg(test)]
mod table;
#[cfg(test)]
mod tokens;
