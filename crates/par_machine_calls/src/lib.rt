//! Public calls of the machine, of what it knows of classes, and of what loads, links and verifies
//! class files for it, each run once with ample memory. The crate is tests alone, and nothing
//! stands on it.
#![tactic(auto)]

#[cfg(test)]
mod landings;
#[cfg(test)]
mod linked;
#[cfg(test)]
mod linked_files;
#[cfg(test)]
mod machine_places;
#[cfg(test)]
mod machine_runs;
#[cfg(test)]
mod method_areas;
#[cfg(test)]
mod verified_files;
