use par_sample::{Summary, sample};
use par_worked::expect;
use std::alloc::Global;
use std::test::Fail;

// A number for a text, which no other text at hand has.
fn checksum(bytes: &[u8]) -> u64 {
    let mut sum = 0u64;
    for byte in bytes {
        sum = sum.wrapping_mul(31).wrapping_add(u64::from(*byte));
    }
    sum
}

// A row's name, the number of a sample, its length and its checksum.
type Sample = (&'static str, u64, usize, u64);

// What a script of some lines makes of the same definition, by the number of the sample.
const SAMPLES: &[Sample] = &[
    ("the least", 0, 133_250, 15_785_707_589_938_619_503),
    ("any", 7, 133_257, 1_484_861_604_966_169_048),
    (
        "the greatest",
        18_446_744_073_709_551_615,
        133_221,
        18_419_415_756_760_014_854,
    ),
];

fn is_sample(text: &[u8], length: usize, sum: u64) -> bool {
    text.starts_with(b"actor alice, bob;\n") && text.len() == length && checksum(text) == sum
}

fn has_sample(alloc: Global, number: u64, length: usize, sum: u64) -> Result<bool, Fail> {
    let text = sample(alloc, number)?;
    let is_sample = is_sample(text.as_slice(), length, sum);
    drop(text);
    Ok(is_sample)
}

fn check_samples(alloc: Global, rows: &[Sample]) -> Result<(), Fail> {
    for (row, number, length, sum) in rows {
        expect(has_sample(alloc, *number, *length, *sum)?, row)?;
    }
    Ok(())
}

#[test]
fn samples_are_those_of_a_script(rt: HostRuntime) -> Result<(), Fail> {
    check_samples(rt.alloc(), SAMPLES)
}

#[test]
fn a_sample_has_its_line(rt: HostRuntime) -> Result<(), Fail> {
    let summary = Summary {
        number: 7,
        classes: 101,
        methods: 1001,
        nodes: 17_007,
        files: 101,
    };
    let line = summary.line(rt.alloc())?;
    let is_told = line.as_str() == "sample 7 classes 101 methods 1001 nodes 17007 accepted 101\n";
    drop(line);
    expect(is_told, "its counts are told")
}
