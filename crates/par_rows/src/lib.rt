//! Worked rows of sources, and of the words and faults of both programs: sources with the
//! answers that they must have, over files and output in memory. The expected answers were
//! worked out by hand from the language's rules. The crate is tests alone, and nothing stands
//! on it.
//!
//! The rows stand in tables, as constant slices that one function of par_row_calls goes over: a
//! check proves each test function, and one that only hands on a table costs little.
#![tactic(auto)]

#[cfg(test)]
mod examples;
#[cfg(test)]
mod faults;
#[cfg(test)]
mod flow_refusals;
#[cfg(test)]
mod inferences;
#[cfg(test)]
mod limits;
#[cfg(test)]
mod name_refusals;
#[cfg(test)]
mod names;
#[cfg(test)]
mod refusals;
#[cfg(test)]
mod sentences;
#[cfg(test)]
mod sources;
#[cfg(test)]
mod statements;
#[cfg(test)]
mod tutorial;
#[cfg(test)]
mod type_refusals;
#[cfg(test)]
mod types;
#[cfg(test)]
mod verdicts;
