//! What words ask for.

ghost use Rattle.std.specs.Prelude.{◌≡◌, ◌≤◌, ℕ, MatchOption, MatchResult, map};
ghost use Rattle.par_words.specs.Words.{Asks, Wanted, IsSet, IsPlain, IsFlagged, OfOne, OfTwo};
ghost use Rattle.par_words.specs.Words.{OfThree, AskTrace, AskAudit, AskSample, AskVerify, AskRun};
ghost use Rattle.par_words.specs.Words.{Check, Compile, Infer, Counts};
ghost use Rattle.par_words.specs.Requests.{wanted};

use crate::commands::{Flag, set_flags, taken, values};
use par_base::name::Name;
use par_base::numbers::{long_magnitude_of, magnitude_of};
use std::alloc::{AllocError, Global};

/// Which program was called.
#[derive(Clone, Copy, Debug, PartialEq, Eq)]
pub enum Which {
    /// `paragonc`
    Compiler,
    /// `paragon`
    Runner,
}

/// What the words ask for.
#[derive(Clone, Copy)]
pub enum Request<'a> {
    /// To check the source in a file.
    Check(&'a str),
    /// To compile the source in a file.
    Compile(&'a str),
    /// To tell of the run of the source in a file on an input file, at most so many steps.
    Trace {
        file: &'a str,
        inputs: &'a str,
        bound: u32,
    },
    /// To audit the source in a file for the actor of this name.
    Audit {
        actor: &'a str,
        file: &'a str,
    },
    /// To infer the policies that the source in a file leaves open.
    Infer(&'a str),
    /// To judge and compile the source that is made of a number.
    Sample(u64),
    /// To verify the class files of the class of this name and of all that it names.
    Verify(&'a str),
    /// To run the class of this name on an input file, at most so many instructions.
    Run {
        main: &'a str,
        inputs: &'a str,
        steps: u32,
    },
}

/// Why words ask for nothing.
#[derive(Clone, Copy, Debug, PartialEq, Eq)]
pub enum Unread {
    /// They are of none of the program's forms.
    NoForm,
    /// Memory is wanting.
    Memory,
}

impl From<AllocError> for Unread {
    ghost use Rattle.par_words.specs.declared.words.Unread.TheVariants.{Memory};

    ghost from_gives = { λ _ unread. unread ≡ Memory };

    fn from(_: AllocError) -> Unread {
        Unread::Memory
    }
}

/// The most instructions that a run is given.
const MOST_STEPS: u32 = 1_000_000_000;

/// The most steps that the run of a source is given.
const MOST_BOUND: u32 = 10_000_000;

/// What the words ask for, where they are of a form of that program.
pub fn read_words<'a>(
    alloc: Global,
    which: Which,
    words: &'a [String],
) -> Result<Request<'a>, Unread>
    ensures { MatchResult result (λ request. Asks which words.entry.now (wanted request))
        (λ unread. unread ≡ Unread.NoForm → (w : Wanted) → Asks which words.entry.now w → ⊥) }
{
    let matches = taken(alloc, which, words)?;
    let flags = set_flags(alloc, which, &matches)?;
    match values(&matches) {
        Some(values) => request_of(which, &flags, values).ok_or(Unread::NoForm),
        None => Err(Unread::NoForm),
    }
}

/// What values ask of a program with these flags.
fn request_of<'a>(which: Which, flags: &[Flag], values: &[&'a str]) -> Option<Request<'a>>
    ensures { let texts = map (λ text. text.now) values.entry.now in MatchOption result
        ((w : Wanted) → IsSet which flags.now texts w → ⊥)
        (λ request. IsSet which flags.now texts (wanted request)) }
{
    match flags {
        [] => plain_request(which, values),
        [flag] => flagged_request(*flag, values),
        _ => None,
    }
}

/// What values ask of a program without a flag.
fn plain_request<'a>(which: Which, values: &[&'a str]) -> Option<Request<'a>>
    ensures { let texts = map (λ text. text.now) values.entry.now in MatchOption result
        ((w : Wanted) → IsPlain which texts w → ⊥)
        (λ request. IsPlain which texts (wanted request)) }
{
    match which {
        Which::Compiler => compile_request(values),
        Which::Runner => run_request(values),
    }
}

/// What values ask beside a flag.
fn flagged_request<'a>(flag: Flag, values: &[&'a str]) -> Option<Request<'a>>
    ensures { let texts = map (λ text. text.now) values.entry.now in MatchOption result
        ((w : Wanted) → IsFlagged flag texts w → ⊥)
        (λ request. IsFlagged flag texts (wanted request)) }
{
    match flag {
        Flag::Check => check_request(values),
        Flag::Trace => trace_request(values),
        Flag::Audit => audit_request(values),
        Flag::Infer => infer_request(values),
        Flag::Sample => sample_request(values),
        Flag::Verify => verify_request(values),
    }
}

/// A compilation, where there is one value.
fn compile_request<'a>(values: &[&'a str]) -> Option<Request<'a>>
    ensures { let texts = map (λ text. text.now) values.entry.now in MatchOption result
        ((w : Wanted) → OfOne (λ file v. v ≡ Compile file) texts w → ⊥)
        (λ request. OfOne (λ file v. v ≡ Compile file) texts (wanted request)) }
{
    match values {
        [file] => Some(Request::Compile(file)),
        _ => None,
    }
}

/// A check, where there is one value.
fn check_request<'a>(values: &[&'a str]) -> Option<Request<'a>>
    ensures { let texts = map (λ text. text.now) values.entry.now in MatchOption result
        ((w : Wanted) → OfOne (λ file v. v ≡ Check file) texts w → ⊥)
        (λ request. OfOne (λ file v. v ≡ Check file) texts (wanted request)) }
{
    match values {
        [file] => Some(Request::Check(file)),
        _ => None,
    }
}

/// An inference, where there is one value.
fn infer_request<'a>(values: &[&'a str]) -> Option<Request<'a>>
    ensures { let texts = map (λ text. text.now) values.entry.now in MatchOption result
        ((w : Wanted) → OfOne (λ file v. v ≡ Infer file) texts w → ⊥)
        (λ request. OfOne (λ file v. v ≡ Infer file) texts (wanted request)) }
{
    match values {
        [file] => Some(Request::Infer(file)),
        _ => None,
    }
}

/// The run of a source, where there are three values.
fn trace_request<'a>(values: &[&'a str]) -> Option<Request<'a>>
    ensures { let texts = map (λ text. text.now) values.entry.now in MatchOption result
        ((w : Wanted) → OfThree AskTrace texts w → ⊥)
        (λ request. OfThree AskTrace texts (wanted request)) }
{
    match values {
        [file, inputs, bound] => trace_of(file, inputs, bound),
        _ => None,
    }
}

/// The run of a source, where the last word is a number.
fn trace_of<'a>(file: &'a str, inputs: &'a str, bound: &str) -> Option<Request<'a>>
    ensures { MatchOption result ((w : Wanted) → AskTrace file.now inputs.now bound.now w → ⊥)
        (λ request. AskTrace file.now inputs.now bound.now (wanted request)) }
{
    let bound = number_in(bound.as_bytes(), MOST_BOUND)?;
    Some(Request::Trace {
        file,
        inputs,
        bound,
    })
}

/// An audit, where there are two values.
fn audit_request<'a>(values: &[&'a str]) -> Option<Request<'a>>
    ensures { let texts = map (λ text. text.now) values.entry.now in MatchOption result
        ((w : Wanted) → OfTwo AskAudit texts w → ⊥)
        (λ request. OfTwo AskAudit texts (wanted request)) }
{
    match values {
        [actor, file] => audit_of(actor, file),
        _ => None,
    }
}

/// An audit, where the first word is a name.
fn audit_of<'a>(actor: &'a str, file: &'a str) -> Option<Request<'a>>
    ensures { MatchOption result ((w : Wanted) → AskAudit actor.now file.now w → ⊥)
        (λ request. AskAudit actor.now file.now (wanted request)) }
{
    if !Name::is_name(actor.as_bytes()) {
        return None;
    }
    Some(Request::Audit { actor, file })
}

/// A sample, where there is one value.
fn sample_request<'a>(values: &[&'a str]) -> Option<Request<'a>>
    ensures { let texts = map (λ text. text.now) values.entry.now in MatchOption result
        ((w : Wanted) → OfOne AskSample texts w → ⊥)
        (λ request. OfOne AskSample texts (wanted request)) }
{
    match values {
        [number] => sample_of(number),
        _ => None,
    }
}

/// A sample, where the word is a number.
fn sample_of<'a>(number: &str) -> Option<Request<'a>>
    ensures { MatchOption result ((w : Wanted) → AskSample number.now w → ⊥)
        (λ request. AskSample number.now (wanted request)) }
{
    Some(Request::Sample(long_magnitude_of(number.as_bytes())?))
}

/// A verification, where there is one value.
fn verify_request<'a>(values: &[&'a str]) -> Option<Request<'a>>
    ensures { let texts = map (λ text. text.now) values.entry.now in MatchOption result
        ((w : Wanted) → OfOne AskVerify texts w → ⊥)
        (λ request. OfOne AskVerify texts (wanted request)) }
{
    match values {
        [main] => verify_of(main),
        _ => None,
    }
}

/// A verification, where the word is a name.
fn verify_of<'a>(main: &'a str) -> Option<Request<'a>>
    ensures { MatchOption result ((w : Wanted) → AskVerify main.now w → ⊥)
        (λ request. AskVerify main.now (wanted request)) }
{
    if !Name::is_name(main.as_bytes()) {
        return None;
    }
    Some(Request::Verify(main))
}

/// A run, where there are three values.
fn run_request<'a>(values: &[&'a str]) -> Option<Request<'a>>
    ensures { let texts = map (λ text. text.now) values.entry.now in MatchOption result
        ((w : Wanted) → OfThree AskRun texts w → ⊥)
        (λ request. OfThree AskRun texts (wanted request)) }
{
    match values {
        [main, inputs, steps] => run_of(main, inputs, steps),
        _ => None,
    }
}

/// A run, where the words are a name, a file and a number.
fn run_of<'a>(main: &'a str, inputs: &'a str, steps: &str) -> Option<Request<'a>>
    ensures { MatchOption result ((w : Wanted) → AskRun main.now inputs.now steps.now w → ⊥)
        (λ request. AskRun main.now inputs.now steps.now (wanted request)) }
{
    let steps = number_in(steps.as_bytes(), MOST_STEPS)?;
    if !Name::is_name(main.as_bytes()) {
        return None;
    }
    Some(Request::Run {
        main,
        inputs,
        steps,
    })
}

/// The number that a word writes, from 1 to the greatest.
fn number_in(word: &[u8], most: u32) -> Option<u32>
    requires { most ≤ 2147483648 }
    ensures { MatchOption result ((n : ℕ) → Counts most word.now n → ⊥) (Counts most word.now) }
{
    let number = magnitude_of(word, most)?;
    if number == 0 {
        return None;
    }
    Some(number)
}
