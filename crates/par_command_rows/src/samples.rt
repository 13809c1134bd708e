//! Samples, which are made of a number and written nowhere.

use par_io::{MemFolder, NoMemory};
use par_row_calls::{Answer, answers};
use par_worked::expect;
use std::alloc::Global;
use std::rt::HostRuntime;
use std::test::Fail;

/// A method has 17 nodes, and `main` has 7.
const SAMPLES: &[(&str, Answer)] = &[
    (
        "paragonc --sample 7",
        (
            "sample 7 classes 101 methods 1001 nodes 17007 accepted 101\n",
            0,
        ),
    ),
    (
        "paragonc --sample 0",
        (
            "sample 0 classes 101 methods 1001 nodes 17007 accepted 101\n",
            0,
        ),
    ),
];

/// Whether a sample is summed up so, and no class file is written.
fn is_summed_up(alloc: Global, command: &str, answer: Answer) -> Result<bool, NoMemory> {
    let mut folder = MemFolder::new(alloc);
    let is_told = answers(alloc, command, &mut folder, answer)?;
    Ok(is_told && folder.get("Shop.class").is_none())
}

#[test]
fn samples_are_summed_up(rt: HostRuntime) -> Result<(), Fail> {
    for (command, answer) in SAMPLES {
        expect(is_summed_up(rt.alloc(), command, *answer)?, command)?;
    }
    Ok(())
}
