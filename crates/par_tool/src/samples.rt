//! What is done to make a sample: its source is judged and compiled, and what it has in it is
//! counted. Nothing is read and nothing is written.

ghost use Rattle.std.specs.Prelude.{◌≡◌, IfOk, IfErr};
ghost use Rattle.par_tool.specs.Failures.{IsFailure};
ghost use Rattle.par_tool.specs.Samples.{Sampled};

use crate::answer::Answer;
use crate::reads::Failure;
use crate::sources::{class_files, program};
use par_sample::{sample, summary_of};
use std::alloc::Global;

/// Makes the sample of a number.
pub fn make_sample(alloc: Global, number: u64) -> Result<Answer, Failure>
    ensures sampled { IfOk result (Sampled number) }
    ensures failed { IfErr result (IsFailure (Sampled number)) }
{
    let source = sample(alloc, number)?;
    let typed = program(alloc, source.as_slice())?;
    let classes = class_files(alloc, &typed)?;
    let files = classes.len() as u32;
    Ok(Answer::Sampled(summary_of(number, &typed.table, files)))
}
