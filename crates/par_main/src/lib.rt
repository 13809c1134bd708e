//! What both programs do: hand the words, the real files and the real output to the one call that
//! does the work, and end with its status.
//!
//! No contract can say which words, files and output the system has, nor what of them is told. So
//! the contracts here say only that the words which were taken are those that are asked about, and
//! that the status is one which has a cause for these words, over some files and some output that
//! tell nothing.
#![tactic(auto)]

ghost use Rattle.std.specs.Prelude.{◌≡◌, ◌≢◌, IfOk, IfErr};
ghost use Rattle.std.specs.IoError.{error_kind};
ghost use Rattle.std.specs.Process.{exit_status};
ghost use Rattle.par_main.specs.Causes.{HasCause, IsEnd, answered, lacks_memory, lacks_words};
ghost use Rattle.par_tool.specs.Exactly.{IsSaidBy};
ghost use Rattle.par_words.specs.Words.{Asks, Wanted};

use par_io::{HostFolder, HostSink};
use par_tool::tool::tool;
use par_words::Which;
use std::io::ErrorKind;
use std::process::ExitCode;
use std::rt::Files;
use std::{env, io};

/// The status where memory is wanting for the words.
const NO_MEMORY: u8 = 7;

/// The status where the words cannot be taken from the system.
const NO_WORDS: u8 = 16;

/// Runs one of the programs, and gives the status that it ends with.
pub fn run<R: Files + Print + env::Env + AllocGlobal>(rt: &R, which: Which) -> ExitCode
    ensures ended { IsEnd which (exit_status result) }
{
    done(rt, which, words(rt))
}

/// Does what the words ask for, where they could be taken.
fn done<R: Files + Print + AllocGlobal>(
    rt: &R,
    which: Which,
    words: io::Result<Vec<String>>,
) -> ExitCode
    ensures ended { IsEnd which (exit_status result) }
    ensures cause { IfOk words (λ taken. HasCause which taken.items (exit_status result)) }
    ensures form { IfOk words (λ taken.
        (w : Wanted) → Asks which taken.items w → exit_status result ≢ 2) }
    ensures usage { IfOk words (λ taken.
        ((w : Wanted) → Asks which taken.items w → ⊥) → IsSaidBy (exit_status result) 2) }
    ensures no_memory { IfErr words (λ error.
        error_kind error ≡ ErrorKind.OutOfMemory → exit_status result ≡ 7) }
    ensures no_words { IfErr words (λ error.
        error_kind error ≢ ErrorKind.OutOfMemory → exit_status result ≡ 16) }
{
    match words {
        Ok(words) => ExitCode::from(asked(rt, which, words.as_slice())),
        Err(error) => match error.kind() {
            ErrorKind::OutOfMemory => ExitCode::from(NO_MEMORY),
            _ => ExitCode::from(NO_WORDS),
        },
    }
}

/// Does what the words ask for, over the files and the output of the system.
fn asked<R: Files + Print + AllocGlobal>(rt: &R, which: Which, words: &[String]) -> u8
    ensures cause { HasCause which words.now result }
    ensures form { (w : Wanted) → Asks which words.now w → result ≢ 2 }
    ensures usage { ((w : Wanted) → Asks which words.now w → ⊥) → IsSaidBy result 2 }
{
    let mut folder = HostFolder::new(rt);
    let mut out = HostSink::new(io::writer(rt));
    tool(rt.alloc(), which, words, &mut folder, &mut out)
}

/// The words behind the program's name.
fn words<R: env::Env + AllocGlobal>(rt: &R) -> io::Result<Vec<String>> {
    let mut words = Vec::new(rt.alloc());
    for word in env::args(rt)?.skip(1) {
        words.push(word)?;
    }
    Ok(words)
}
