//! What a call of the tool comes to: a status, and the line that is put.

ghost use Rattle.std.specs.Prelude.{◌≡◌, ◌≢◌, IfOk, IsOk, IsTrue, string_bytes};
ghost use Rattle.par_tool.specs.Answers.{IsSaid};
ghost use Rattle.par_tool.specs.Lines.{bytes_of};
ghost use Rattle.par_tool.specs.Texts as spec;
ghost use Rattle.par_tool.specs.Texts.{status, text, is_fault};

use par_io::Sink;
use par_lexer::name::{Name, text_of};
use par_refusals::refusal::LIMIT_RULE;
use par_sample::Summary;
use std::alloc::{AllocError, Global};

/// An answer of one line. A run is told by the lines of its events and its ending; want of memory
/// and a failed put have no line.
#[derive(Drop)]
pub enum Answer {
    /// The source is accepted.
    Accepted,
    /// The source is accepted, and so many class files are written.
    Compiled(u32),
    /// The source of a sample is accepted, and this is what it has in it.
    Sampled(Summary),
    /// So many class files are verified.
    Verified(u32),
    /// The source breaks a rule at a line and a column, both counted from 1. The limit and the
    /// count are 0 but for an exceeded limit.
    Refused {
        rule: u16,
        line: u32,
        column: u32,
        limit: u8,
        count: u32,
    },
    /// The words are of none of the forms.
    Usage,
    /// A file is absent.
    Absent,
    /// A read failed.
    ReadFault,
    /// A write failed.
    WriteFault,
    /// A file is too long.
    TooLong,
    /// A class file is refused: the class, the number of the refusal, and what it carries.
    BadClass {
        class: Name,
        number: u16,
        value: u32,
    },
    /// A line of the input file, counted from 1, is wrong.
    BadInputs(u32),
    /// The source declares no actor of the name.
    NoActor,
}

/// The status of an answer.
pub fn status_of(answer: &Answer) -> u8
    ensures { result ≡ status answer.now }
{
    match answer {
        Answer::Accepted => 0,
        Answer::Compiled(_) => 0,
        Answer::Sampled(_) => 0,
        Answer::Verified(_) => 0,
        Answer::Refused { .. } => 1,
        Answer::Usage => 2,
        Answer::Absent => 3,
        Answer::ReadFault => 4,
        Answer::WriteFault => 5,
        Answer::TooLong => 8,
        Answer::BadClass { .. } => 12,
        Answer::BadInputs(_) => 13,
        Answer::NoActor => 15,
    }
}

/// A line of text, with its end.
#[derive(Drop)]
enum Line {
    /// One that is always the same.
    Fixed(&'static [u8]),
    /// One that has numbers in it.
    Made(String),
}

impl Line {
    fn bytes(&self) -> &[u8]
        ensures { result.now ≡ bytes_of self.now }
    {
        match self {
            Line::Fixed(bytes) => bytes,
            Line::Made(text) => text.as_bytes(),
        }
    }
}

/// The line of an answer. That of a fault takes no memory.
fn line_of(alloc: Global, answer: &Answer) -> Result<Line, AllocError>
    ensures line { IfOk result (λ line. bytes_of line ≡ text answer.now) }
    ensures firm { IsTrue (is_fault answer.now) → IsOk result }
{
    match answer {
        Answer::Accepted => Ok(Line::Fixed(b"accepted\n")),
        Answer::Compiled(files) => Ok(Line::Made(compiled_line(alloc, *files)?)),
        Answer::Sampled(summary) => Ok(Line::Made(summary.line(alloc)?)),
        Answer::Verified(files) => Ok(Line::Made(verified_line(alloc, *files)?)),
        Answer::Refused {
            rule,
            line,
            column,
            limit,
            count,
        } => {
            let text = if *rule == LIMIT_RULE {
                exceeded_line(alloc, *line, *column, *limit, *count)?
            } else {
                refused_line(alloc, *rule, *line, *column)?
            };
            Ok(Line::Made(text))
        }
        Answer::Usage => Ok(Line::Fixed(b"usage\n")),
        Answer::Absent => Ok(Line::Fixed(b"absent\n")),
        Answer::ReadFault => Ok(Line::Fixed(b"read fault\n")),
        Answer::WriteFault => Ok(Line::Fixed(b"write fault\n")),
        Answer::TooLong => Ok(Line::Fixed(b"too long\n")),
        Answer::BadClass {
            class,
            number,
            value,
        } => Ok(Line::Made(class_line(alloc, class, *number, *value)?)),
        Answer::BadInputs(line) => Ok(Line::Made(inputs_line(alloc, *line)?)),
        Answer::NoActor => Ok(Line::Fixed(b"no actor\n")),
    }
}

fn compiled_line(alloc: Global, files: u32) -> Result<String, AllocError>
    ensures { IfOk result (λ text. string_bytes text ≡ spec.compiled_text files) }
{
    format!(in alloc; "accepted {files}\n")
}

fn verified_line(alloc: Global, files: u32) -> Result<String, AllocError>
    ensures { IfOk result (λ text. string_bytes text ≡ spec.verified_text files) }
{
    format!(in alloc; "verified {files}\n")
}

fn refused_line(alloc: Global, rule: u16, line: u32, column: u32) -> Result<String, AllocError>
    ensures { IfOk result (λ text. string_bytes text ≡ spec.refused_text rule line column) }
{
    format!(in alloc; "refused {rule} at {line}:{column}\n")
}

fn exceeded_line(
    alloc: Global,
    line: u32,
    column: u32,
    limit: u8,
    count: u32,
) -> Result<String, AllocError>
    ensures { IfOk result (λ text.
        string_bytes text ≡ spec.exceeded_text line column limit count) }
{
    format!(in alloc; "refused 106 at {line}:{column} limit {limit} count {count}\n")
}

fn class_line(alloc: Global, class: &Name, number: u16, value: u32) -> Result<String, AllocError>
    ensures { IfOk result (λ text. string_bytes text ≡ spec.class_text class.now number value) }
{
    let class = text_of(class.bytes());
    format!(in alloc; "bad class {class} {number} {value}\n")
}

fn inputs_line(alloc: Global, line: u32) -> Result<String, AllocError>
    ensures { IfOk result (λ text. string_bytes text ≡ spec.inputs_text line) }
{
    format!(in alloc; "bad inputs line {line}\n")
}

/// Puts the line of an answer, and gives the status of the call.
pub fn say<S: Sink>(alloc: Global, answer: Answer, out: &mut S) -> u8
    ensures said { IsSaid answer result (S.held out.old) (S.held out.new)
        (S.counts out.old) (S.counts out.new) }
    ensures failed_puts_are_told { IsTrue S.counts_faults_alone →
        result ≢ 6 → (S.counts out.new).faults ≡ (S.counts out.old).faults }
{
    let Ok(line) = line_of(alloc, &answer) else {
        return 7;
    };
    match out.put(line.bytes()) {
        Ok(()) => status_of(&answer),
        Err(_) => 6,
    }
}
