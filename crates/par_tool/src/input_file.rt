//! The inputs in an input file.

ghost use Rattle.std.specs.Prelude.{◌≡◌, ◌≤◌, IsTrue, IfOk, IfErr, length};
ghost use Rattle.par_inputs.specs.Places as places;
ghost use Rattle.par_io.specs.Causes.{Makes, NoneFalls};
ghost use Rattle.par_tool.specs.declared.answer.Answer.TheVariants.{BadInputs};
ghost use Rattle.par_tool.specs.declared.reads.Failure.TheVariants.{Answered};
ghost use Rattle.par_tool.specs.Failures.{IsFailure, FaultsAreTold};
ghost use Rattle.par_tool.specs.Given.{Misfits, IsGiven, IsUngiven};

use crate::answer::Answer;
use crate::reads::{Failure, read};
use par_inputs::{LONGEST_INPUTS, line_of_entry, read_inputs};
use par_io::Folder;
use par_values::inputs::Inputs;
use std::alloc::Global;

/// An input file that breaks no rule.
#[derive(Drop)]
pub struct InputFile {
    pub text: Vec<u8>,
    pub inputs: Inputs,
}

/// The input file of this name. Whether there are channels for its inputs is not looked at.
pub fn input_file<F: Folder>(
    alloc: Global,
    folder: &mut F,
    name: &str,
) -> Result<InputFile, Failure>
    ensures kept { F.files folder.new ≡ F.files folder.old }
    ensures counted { Makes 1 0 (F.counts folder.old) (F.counts folder.new) }
    ensures none_falls { NoneFalls (F.counts folder.old) (F.counts folder.new) }
    ensures faults_are_told { IsTrue F.counts_faults_alone →
        FaultsAreTold result (F.counts folder.old).faults (F.counts folder.new).faults }
    ensures given { IfOk result (IsGiven (F.files folder.old) name.now) }
    ensures failed { (misfits : Misfits) → IfErr result (IsFailure (IsUngiven misfits
        (F.files folder.old) (F.counts folder.old) (F.counts folder.new) name.now)) }
{
    let text = read(alloc, folder, name, LONGEST_INPUTS as u64)?;
    match read_inputs(alloc, text.as_slice()) {
        Ok(inputs) => Ok(InputFile { text, inputs }),
        Err(bad) => Err(Failure::from(bad)),
    }
}

/// What is answered where there is no channel for the entry at this place of a text.
pub fn bad_entry(text: &[u8], place: usize) -> Failure
    requires { length text.now ≤ LONGEST_INPUTS }
    ensures { result ≡ Answered (BadInputs (places.line_of_entry text.now place)) }
{
    Failure::Answered(Answer::BadInputs(line_of_entry(text, place)))
}
