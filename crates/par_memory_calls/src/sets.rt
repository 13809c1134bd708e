//! What sets of numbers hold, in one word and in more, and what is made of two.

ghost use Rattle.std.specs.Prelude.{◌≤◌};

use par_bits::Bits;
use par_worked::expect;
use std::test::Fail;

fn has<const W: usize>(set: &Bits<W>, number: u32) -> bool
    requires { W ≤ 64 }
{
    (number as usize) < 64 * W && set.has(number)
}

// The set of those of the numbers that it can hold.
fn set_of<const W: usize>(numbers: &[u32]) -> Bits<W>
    requires { W ≤ 64 }
{
    let mut set = Bits::empty();
    for number in numbers {
        if (*number as usize) < 64 * W {
            set = set.with(*number);
        }
    }
    set
}

fn has_each<const W: usize>(set: &Bits<W>, numbers: &[u32]) -> bool
    requires { W ≤ 64 }
{
    for number in numbers {
        if !has(set, *number) {
            return false;
        }
    }
    true
}

fn has_one<const W: usize>(set: &Bits<W>, numbers: &[u32]) -> bool
    requires { W ≤ 64 }
{
    for number in numbers {
        if has(set, *number) {
            return true;
        }
    }
    false
}

// Whether the set of these numbers has them and none of the others.
fn holds<const W: usize>(numbers: &[u32], others: &[u32]) -> bool
    requires { W ≤ 64 }
{
    let set: Bits<W> = set_of(numbers);
    let count = set.count() as usize == numbers.len();
    count && has_each(&set, numbers) && !has_one(&set, others)
}

const IN_ONE_WORD: &[Edges] = &[
    ("none of a word", &[], &[0, 1, 62, 63]),
    ("the first of a word", &[0], &[1, 62, 63]),
    ("the last of a word", &[63], &[0, 1, 62]),
    ("both ends of a word", &[0, 63], &[1, 62]),
];

const IN_64_WORDS: &[Edges] = &[
    ("none of 64 words", &[], &[0, 63, 64, 4095]),
    ("the first of all", &[0], &[63, 64, 4032, 4095]),
    ("the last of the first word", &[63], &[0, 64, 127, 4095]),
    ("the first of the second word", &[64], &[0, 63, 128, 4095]),
    ("the last of all", &[4095], &[0, 63, 64, 4032, 4094]),
    ("all edges", &[0, 63, 64, 4095], &[1, 62, 65, 127, 4094]),
];

type Edges = (&'static str, &'static [u32], &'static [u32]);

fn check_one_word(rows: &[Edges]) -> Result<(), Fail> {
    for (name, numbers, others) in rows {
        expect(holds::<1>(numbers, others), name)?;
    }
    Ok(())
}

fn check_64_words(rows: &[Edges]) -> Result<(), Fail> {
    for (name, numbers, others) in rows {
        expect(holds::<64>(numbers, others), name)?;
    }
    Ok(())
}

#[test]
fn edges() -> Result<(), Fail> {
    check_one_word(IN_ONE_WORD)?;
    check_64_words(IN_64_WORDS)
}

// Two sets, what is in either, what is in both, and what is in the first alone.
const SETS: &[(&str, [&[u32]; 5])] = &[
    (
        "in four words",
        [
            &[0, 63, 64, 255],
            &[63, 128, 255],
            &[0, 63, 64, 128, 255],
            &[63, 255],
            &[0, 64],
        ],
    ),
    ("none, and one", [&[], &[255], &[255], &[], &[]]),
];

fn are_same(one: &Bits<4>, other: &Bits<4>) -> bool {
    one.within(other) && other.within(one)
}

fn sets_made(sets: &[&[u32]; 5]) -> bool {
    let one = set_of(sets[0]);
    let other = set_of(sets[1]);
    let union = are_same(&one.union(&other), &set_of(sets[2]));
    let meet = are_same(&one.meet(&other), &set_of(sets[3]));
    let minus = are_same(&one.minus(&other), &set_of(sets[4]));
    union && meet && minus
}

#[test]
fn sets_of_numbers() -> Result<(), Fail> {
    for (name, sets) in SETS {
        expect(sets_made(sets), name)?;
    }
    let ends: Bits<4> = set_of(&[0, 255]);
    expect(ends.count() == 2, "0 and 255 are two")?;
    expect(ends.within(&ends), "a set is within itself")?;
    expect(!ends.within(&Bits::empty()), "two are not within none")
}
