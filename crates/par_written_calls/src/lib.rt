//! Public calls of what is written of whole programs: the class files that are made of them, and
//! the lines that tell their runs, each with ample memory. The crate is tests alone, and nothing
//! stands on it.
#![tactic(auto)]

#[cfg(test)]
mod files;
#[cfg(test)]
mod large_files;
#[cfg(test)]
mod numbers;
#[cfg(test)]
mod sources;
#[cfg(test)]
mod trace_lines;
#[cfg(test)]
mod versions;
