//! Worked rows of commands, over files and output in memory: what each form of words does, what is
//! told of audits and samples, and the class files of sources. Then rows of hostile use: reads,
//! writes and puts of which each fails in turn, class files that are cut or changed at each byte,
//! and input files at the border of what is read; such a row is a loop over positions, so that a
//! few functions stand for some thousand calls. The expected answers were worked out by hand from
//! the rules. The crate is tests alone, and nothing stands on it.
#![tactic(auto)]

#[cfg(test)]
mod audits;
#[cfg(test)]
mod compiled;
#[cfg(test)]
mod damage;
#[cfg(test)]
mod faults;
#[cfg(test)]
mod hostile_programs;
#[cfg(test)]
mod inputs;
#[cfg(test)]
mod many_channels;
#[cfg(test)]
mod puts;
#[cfg(test)]
mod samples;
#[cfg(test)]
mod worked;
