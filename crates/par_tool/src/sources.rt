//! What is done with a source: it is read and judged, and its program is compiled.

ghost use Rattle.std.specs.Prelude.{◌≡◌, ◌≤◌, IsTrue, IfOk, IfErr, length, map};
ghost use Rattle.std.specs.List.{IsDistinct};
ghost use Rattle.std.specs.Str.{bytes_eq};
ghost use Rattle.par_io.specs.Causes.{Makes, NoneFalls};
ghost use Rattle.par_check_laws.specs.Accepted.{IsAcceptedBy};
ghost use Rattle.par_check.specs.par_flow.Table.{facts_in};
ghost use Rattle.par_observer.specs.Trees.{IsWellFormed};
ghost use Rattle.par_tool.specs.Failures.{IsFailure, FaultsAreTold};
ghost use Rattle.par_tool.specs.Outside.{Text, MakesAtMost};
ghost use Rattle.par_tool.specs.Sources.{IsSecureAs, ReadSource, Rejected, Checked, AreClassesOf};
ghost use Rattle.par_tool.specs.Sources.{CompiledSo, IsCutShort, IsUnaccepted, refused_at};
ghost use Rattle.par_tool.specs.Sources.{RefusesWithin};
ghost use Rattle.par_tool.specs.Sources as spec;
ghost use Rattle.par_tool.specs.Sources.{MOST_FILES};

use crate::answer::Answer;
use crate::reads::{Failure, read};
use par_check::Accepted;
use par_class_writer::write_classes;
use par_compile::{CompiledClass, compile};
use par_io::{Folder, WriteFail};
use par_lexer::list::List;
use par_lexer::{LONGEST_SOURCE, place_of};
use par_observer::{JudgeError, judge, program_of};
use par_refusals::refusal::Refusal;
use par_typed::program::Typed;
use std::alloc::Global;

/// What a source is accepted as.
pub fn accepted(alloc: Global, source: &[u8]) -> Result<Accepted, Failure>
    requires { length source.now ≤ LONGEST_SOURCE }
    ensures accepted { IfOk result (λ accepted. IsSecureAs source.now accepted.typed) }
    ensures well_formed { IfOk result (λ accepted. IsWellFormed accepted.typed) }
    ensures kept { IfOk result (λ accepted.
        IsAcceptedBy accepted.typed (map facts_in accepted.facts)) }
    ensures failed { IfErr result (IsFailure (IsUnaccepted source.now)) }
{
    match judge(alloc, source) {
        Ok(accepted) => Ok(accepted),
        Err(error) => Err(unaccepted(source, error)),
    }
}

/// The program of a source that is accepted, whose facts are not kept.
pub fn program(alloc: Global, source: &[u8]) -> Result<Typed, Failure>
    requires { length source.now ≤ LONGEST_SOURCE }
    ensures accepted { IfOk result (IsSecureAs source.now) }
    ensures well_formed { IfOk result IsWellFormed }
    ensures failed { IfErr result (IsFailure (IsUnaccepted source.now)) }
{
    match program_of(alloc, source) {
        Ok(typed) => Ok(typed),
        Err(error) => Err(unaccepted(source, error)),
    }
}

/// Why a source is not accepted, or has no typed program, as it is told.
pub fn unaccepted(source: &[u8], error: JudgeError) -> Failure
    requires within { RefusesWithin source.now error }
    requires short { length source.now ≤ LONGEST_SOURCE }
    ensures { result ≡ spec.unaccepted source.now error }
{
    match error {
        JudgeError::Refused(refusal) => Failure::Answered(refused(source, refusal)),
        JudgeError::Memory => Failure::Memory,
    }
}

/// What a source is told to be refused by.
pub fn refused(source: &[u8], refusal: Refusal) -> Answer
    requires within { refusal.at ≤ length source.now }
    requires short { length source.now ≤ LONGEST_SOURCE }
    ensures { result ≡ refused_at source.now refusal }
{
    let (line, column) = place_of(source, refusal.at);
    Answer::Refused {
        rule: refusal.rule,
        line,
        column,
        limit: refusal.limit,
        count: refusal.count,
    }
}

/// The program of the source in a file, if it is accepted.
pub fn program_source<F: Folder>(
    alloc: Global,
    folder: &mut F,
    file: &str,
) -> Result<Typed, Failure>
    ensures kept { F.files folder.new ≡ F.files folder.old }
    ensures counted { Makes 1 0 (F.counts folder.old) (F.counts folder.new) }
    ensures none_falls { NoneFalls (F.counts folder.old) (F.counts folder.new) }
    ensures faults_are_told { IsTrue F.counts_faults_alone →
        FaultsAreTold result (F.counts folder.old).faults (F.counts folder.new).faults }
    ensures accepted { IfOk result (λ typed.
        ReadSource (F.files folder.old) file.now (λ source. IsSecureAs source typed)) }
    ensures well_formed { IfOk result IsWellFormed }
    ensures failed { IfErr result (IsFailure (Rejected (F.files folder.old)
        (F.counts folder.old) (F.counts folder.new) file.now)) }
{
    let source = read(alloc, folder, file, LONGEST_SOURCE as u64)?;
    program(alloc, source.as_slice())
}

/// Checks the source in a file.
pub fn check<F: Folder>(alloc: Global, folder: &mut F, file: &str) -> Result<Answer, Failure>
    ensures kept { F.files folder.new ≡ F.files folder.old }
    ensures counted { Makes 1 0 (F.counts folder.old) (F.counts folder.new) }
    ensures faults_are_told { IsTrue F.counts_faults_alone →
        FaultsAreTold result (F.counts folder.old).faults (F.counts folder.new).faults }
    ensures checked { IfOk result (Checked (F.files folder.old)
        (F.counts folder.old) (F.counts folder.new) file.now) }
    ensures failed { IfErr result (IsFailure (Checked (F.files folder.old)
        (F.counts folder.old) (F.counts folder.new) file.now)) }
{
    program_source(alloc, folder, file)?;
    Ok(Answer::Accepted)
}

/// The class files of the program of an accepted source.
pub fn class_files(alloc: Global, typed: &Typed) -> Result<List<CompiledClass>, Failure>
    requires accepted { (source : Text) × IsSecureAs source typed.now }
    requires well_formed { IsWellFormed typed.now }
    ensures are { IfOk result (AreClassesOf typed.now) }
    ensures apart { IfOk result (λ classes. IsDistinct bytes_eq (map (λ c. c.name) classes)) }
    ensures few { IfOk result (λ classes. length classes ≤ MOST_FILES) }
    ensures memory { IfErr result (λ e. e ≡ Failure.Memory) }
{
    let classes = compile(alloc, typed)?;
    Ok(classes)
}

/// The same of a program that nobody asks for behind this.
fn classes_of(alloc: Global, typed: Typed) -> Result<List<CompiledClass>, Failure>
    requires accepted { (source : Text) × IsSecureAs source typed }
    requires well_formed { IsWellFormed typed }
    ensures are { IfOk result (AreClassesOf typed) }
    ensures apart { IfOk result (λ classes. IsDistinct bytes_eq (map (λ c. c.name) classes)) }
    ensures few { IfOk result (λ classes. length classes ≤ MOST_FILES) }
    ensures memory { IfErr result (λ e. e ≡ Failure.Memory) }
{
    let classes = class_files(alloc, &typed);
    drop(typed);
    classes
}

/// Compiles the source in a file, and writes its class files once all of them are made.
pub fn compile_file<F: Folder>(alloc: Global, folder: &mut F, file: &str) -> Result<Answer, Failure>
    ensures faults_are_told { IsTrue F.counts_faults_alone →
        FaultsAreTold result (F.counts folder.old).faults (F.counts folder.new).faults }
    ensures compiled { IfOk result (CompiledSo (F.files folder.old) (F.files folder.new)
        (F.counts folder.old) (F.counts folder.new) file.now) }
    ensures failed { IfErr result (IsFailure (CompiledSo (F.files folder.old) (F.files folder.new)
        (F.counts folder.old) (F.counts folder.new) file.now)) }
    ensures memory { IfErr result (λ e. e ≡ Failure.Memory →
        IsCutShort (F.files folder.old) (F.files folder.new)
        (F.counts folder.old) (F.counts folder.new) file.now
        × MakesAtMost 1 MOST_FILES (F.counts folder.old) (F.counts folder.new)) }
{
    let typed = program_source(alloc, folder, file)?;
    let classes = classes_of(alloc, typed)?;
    match write_classes(alloc, folder, classes.as_slice()) {
        Ok(()) => Ok(Answer::Compiled(classes.len() as u32)),
        Err(WriteFail::Failed) => Err(Failure::Answered(Answer::WriteFault)),
        Err(WriteFail::Memory) => Err(Failure::Memory),
    }
}
