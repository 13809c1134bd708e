//! What is done to infer the policies that a source leaves open: the source is read and typed, the
//! least policies are found, and a line is made for each of its fields.

ghost use Rattle.std.specs.Prelude.{◌≡◌, ◌≤◌, IsTrue, IfOk, IfErr, length};
ghost use Rattle.par_io.specs.Causes.{Makes};
ghost use Rattle.par_infer.specs.Inferred.{IsInferred};
ghost use Rattle.par_observer.specs.Judgements.{IsTypedAs};
ghost use Rattle.par_observer.specs.Trees.{IsReady, ChecksLie};
ghost use Rattle.par_tool.specs.Failures.{IsFailure, FaultsAreTold};
ghost use Rattle.par_tool.specs.Inferences.{IsFilledAs, IsFillingOf, IsUnfilled, Unfilled};
ghost use Rattle.par_tool.specs.Inferences.{BreaksWithin};
ghost use Rattle.par_tool.specs.Inferences as spec;
ghost use Rattle.par_tool.specs.Lines.{texts_of};

use crate::reads::{Failure, read};
use crate::sources::{refused, unaccepted};
use par_filling_lines::filling_lines;
use par_infer::{Filling, InferError, infer_fields};
use par_io::Folder;
use par_lexer::LONGEST_SOURCE;
use par_observer::typed_of;
use par_typed::program::Typed;
use std::alloc::Global;

/// The typed program of a source.
fn typed(alloc: Global, source: &[u8]) -> Result<Typed, Failure>
    requires { length source.now ≤ LONGEST_SOURCE }
    ensures typed { IfOk result (IsTypedAs source.now) }
    ensures ready { IfOk result IsReady }
    ensures placed { IfOk result (ChecksLie (length source.now)) }
    ensures failed { IfErr result (IsFailure (IsUnfilled source.now)) }
{
    match typed_of(alloc, source) {
        Ok(typed) => Ok(typed),
        Err(error) => Err(unaccepted(source, error)),
    }
}

/// The least policies for the fields of a program that leave theirs open. The program stays, since
/// its names are told.
fn filled(alloc: Global, source: &[u8], typed: &Typed) -> Result<Filling, Failure>
    requires short { length source.now ≤ LONGEST_SOURCE }
    requires typed { IsTypedAs source.now typed.now }
    requires ready { IsReady typed.now }
    requires placed { ChecksLie (length source.now) typed.now }
    ensures filled { IfOk result (λ filling. IsInferred typed.now filling.fields) }
    ensures failed { IfErr result (IsFailure (IsUnfilled source.now)) }
{
    match infer_fields(alloc, typed) {
        Ok(filling) => Ok(filling),
        Err(error) => Err(unfilled(source, error)),
    }
}

/// Why no policies are found for a source, as it is told.
fn unfilled(source: &[u8], error: InferError) -> Failure
    requires within { BreaksWithin source.now error }
    requires short { length source.now ≤ LONGEST_SOURCE }
    ensures { result ≡ spec.unfilled source.now error }
{
    match error {
        InferError::Broken(refusal) => Failure::Answered(refused(source, refusal)),
        InferError::Memory => Failure::Memory,
    }
}

/// The lines of the policies that are inferred for the program of a source.
fn lines_for(alloc: Global, source: &[u8], typed: &Typed) -> Result<Vec<Vec<u8>>, Failure>
    requires short { length source.now ≤ LONGEST_SOURCE }
    requires typed { IsTypedAs source.now typed.now }
    requires ready { IsReady typed.now }
    requires placed { ChecksLie (length source.now) typed.now }
    ensures filled { IfOk result (λ lines. IsFilledAs source.now (texts_of lines.items)) }
    ensures failed { IfErr result (IsFailure (IsUnfilled source.now)) }
{
    let filling = filled(alloc, source, typed)?;
    match filling_lines(alloc, &typed.table, filling.fields.as_slice()) {
        Ok(lines) => Ok(lines),
        Err(_) => Err(Failure::Memory),
    }
}

/// The lines of the policies that are inferred for a source.
fn inferred(alloc: Global, source: &[u8]) -> Result<Vec<Vec<u8>>, Failure>
    requires { length source.now ≤ LONGEST_SOURCE }
    ensures filled { IfOk result (λ lines. IsFilledAs source.now (texts_of lines.items)) }
    ensures failed { IfErr result (IsFailure (IsUnfilled source.now)) }
{
    let typed = typed(alloc, source)?;
    let lines = lines_for(alloc, source, &typed);
    drop(typed);
    lines
}

/// The lines of the policies that are inferred for the source in a file.
pub fn infer_source<F: Folder>(
    alloc: Global,
    folder: &mut F,
    file: &str,
) -> Result<Vec<Vec<u8>>, Failure>
    ensures kept { F.files folder.new ≡ F.files folder.old }
    ensures counted { Makes 1 0 (F.counts folder.old) (F.counts folder.new) }
    ensures faults_are_told { IsTrue F.counts_faults_alone →
        FaultsAreTold result (F.counts folder.old).faults (F.counts folder.new).faults }
    ensures filled { IfOk result (λ lines.
        IsFillingOf (F.files folder.old) file.now (texts_of lines.items)) }
    ensures failed { IfErr result (IsFailure (Unfilled (F.files folder.old)
        (F.counts folder.old) (F.counts folder.new) file.now)) }
{
    let source = read(alloc, folder, file, LONGEST_SOURCE as u64)?;
    inferred(alloc, source.as_slice())
}
