//! The top call.

ghost use Rattle.std.specs.Prelude.{◌≡◌, ◌≢◌, ℕ, IsTrue};
ghost use Rattle.par_io.specs.Saying.{Said};
ghost use Rattle.par_values.specs.Ran.{Fine};
ghost use Rattle.par_event_lines.specs.Texts as told;
ghost use Rattle.par_trace.specs.Texts.{run_of, lines};
ghost use Rattle.par_tool.specs.Answers.{Scene, Ends, Concludes, BreaksOff};
ghost use Rattle.par_tool.specs.Exactly.{IsExact, IsSaidBy};
ghost use Rattle.par_tool.specs.Outside.{Text};
ghost use Rattle.par_tool.specs.WrittenFiles.{IsComplete};
ghost use Rattle.par_tool.specs.Verifications.{IsSafe};
ghost use Rattle.par_words.specs.Words.{Asks, Wanted, Verify};

use crate::answer::{Answer, say};
use crate::audits::audit_source;
use crate::classes::started;
use crate::inferences::infer_source;
use crate::lines::tell_all;
use crate::reads::Failure;
use crate::samples::make_sample;
use crate::sources::{check, compile_file};
use crate::traces::{Traced, trace_source};
use crate::verifications::verify_class;
use par_io::{Folder, Sink};
use par_run_lines::tell_run;
use par_trace::tell_source;
use par_words::{Request, Which, read_words};
use std::alloc::Global;

/// Does what the words behind a program's name ask for, and puts lines that say what came of it.
/// The number is the status that the program ends with.
pub fn tool<F: Folder, S: Sink>(
    alloc: Global,
    which: Which,
    words: &[String],
    folder: &mut F,
    out: &mut S,
) -> u8
    ensures ends { let scene : Scene = record {
      files = F.files folder.old;
      later = F.files folder.new;
      before = F.counts folder.old;
      after = F.counts folder.new;
    } in
        Ends which words.now scene result (S.held out.old) (S.held out.new)
        (S.counts out.old) (S.counts out.new) }
    ensures usage { ((w : Wanted) → Asks which words.now w → ⊥) → IsSaidBy result 2 }
    ensures exact { (w : Wanted) → Asks which words.now w → IsExact (F.files folder.old) w result }
    ensures complete { (w : Wanted) → Asks which words.now w →
        IsComplete result (S.held out.old) (S.held out.new) (S.counts out.old) (S.counts out.new)
        (F.files folder.old) w }
    ensures verified { (main : Text) → Asks which words.now (Verify main) → result ≡ 0 →
        IsSafe (F.files folder.old) main }
    ensures faults_are_told { IsTrue F.counts_faults_alone →
        result ≢ 4 → result ≢ 5 → result ≢ 6 →
        (F.counts folder.new).faults ≡ (F.counts folder.old).faults }
    ensures failed_puts_are_told { IsTrue S.counts_faults_alone →
        result ≢ 6 → (S.counts out.new).faults ≡ (S.counts out.old).faults }
{
    let request = match read_words(alloc, which, words) {
        Ok(request) => request,
        Err(unread) => return break_off(alloc, unread.into(), out),
    };
    match request {
        Request::Check(file) => conclude(alloc, check(alloc, folder, file), out),
        Request::Compile(file) => conclude(alloc, compile_file(alloc, folder, file), out),
        Request::Sample(number) => conclude(alloc, make_sample(alloc, number), out),
        Request::Verify(main) => conclude(alloc, verify_class(alloc, folder, main), out),
        Request::Trace {
            file,
            inputs,
            bound,
        } => match trace_source(alloc, folder, file, inputs, bound) {
            Ok(traced) => tell_trace(alloc, traced, out),
            Err(failure) => break_off(alloc, failure, out),
        },
        Request::Audit { actor, file } => match audit_source(alloc, folder, actor, file) {
            Ok(lines) => tell_all(lines, out),
            Err(failure) => break_off(alloc, failure, out),
        },
        Request::Infer(file) => match infer_source(alloc, folder, file) {
            Ok(lines) => tell_all(lines, out),
            Err(failure) => break_off(alloc, failure, out),
        },
        Request::Run {
            main,
            inputs,
            steps,
        } => match started(alloc, folder, main, inputs) {
            Ok(machine) => tell_run(alloc, machine, steps, out),
            Err(failure) => break_off(alloc, failure, out),
        },
    }
}

/// Tells of the run of a source.
fn tell_trace<S: Sink>(alloc: Global, traced: Traced, out: &mut S) -> u8
    ensures said { let run = run_of traced.run in
        Said (told.status (Fine run.ending)) (lines traced.typed.table run) result
        (S.held out.old) (S.held out.new) (S.counts out.old) (S.counts out.new) }
    ensures failed_puts_are_told { IsTrue S.counts_faults_alone →
        result ≢ 6 → (S.counts out.new).faults ≡ (S.counts out.old).faults }
{
    let status = tell_source(alloc, &traced.typed.table, &traced.run, out);
    drop(traced);
    status
}

/// Says what a job came to.
fn conclude<S: Sink>(alloc: Global, outcome: Result<Answer, Failure>, out: &mut S) -> u8
    ensures said { Concludes outcome result (S.held out.old) (S.held out.new)
        (S.counts out.old) (S.counts out.new) }
    ensures failed_puts_are_told { IsTrue S.counts_faults_alone →
        result ≢ 6 → (S.counts out.new).faults ≡ (S.counts out.old).faults }
{
    match outcome {
        Ok(answer) => say(alloc, answer, out),
        Err(failure) => break_off(alloc, failure, out),
    }
}

/// Says what stands in the place of a job's end.
fn break_off<S: Sink>(alloc: Global, failure: Failure, out: &mut S) -> u8
    ensures said { BreaksOff failure result (S.held out.old) (S.held out.new)
        (S.counts out.old) (S.counts out.new) }
    ensures failed_puts_are_told { IsTrue S.counts_faults_alone →
        result ≢ 6 → (S.counts out.new).faults ≡ (S.counts out.old).faults }
{
    match failure {
        Failure::Answered(answer) => say(alloc, answer, out),
        Failure::Memory => 7,
    }
}
