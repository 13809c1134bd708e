//! Public calls of the crates that read and write class files and read input files, and of the
//! outside, each run once with ample memory. The crate is tests alone, and nothing stands on it.
#![tactic(auto)]

#[cfg(test)]
mod class_files;
#[cfg(test)]
mod descriptors;
#[cfg(test)]
mod input_files;
#[cfg(test)]
mod instructions;
#[cfg(test)]
mod outside;
#[cfg(test)]
mod pools;
