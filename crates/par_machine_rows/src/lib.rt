//! Worked rows of class files and their runs: most are made by hand, some are compiled, with what
//! comes of them over files and output in memory. The expected answers were worked out by hand from
//! the rules. The crate is tests alone, and nothing stands on it.
#![tactic(auto)]

#[cfg(test)]
mod frames;
#[cfg(test)]
mod hand_made;
#[cfg(test)]
mod links;
#[cfg(test)]
mod machine_runs;
#[cfg(test)]
mod many_operands;
#[cfg(test)]
mod numbers;
#[cfg(test)]
mod objects;
#[cfg(test)]
mod programs;
#[cfg(test)]
mod reasons;
#[cfg(test)]
mod refused_files;
#[cfg(test)]
mod runs;
#[cfg(test)]
mod verified;
#[cfg(test)]
mod versions;
