//! The programs' words, as those of one simple command each.

ghost use Rattle.std.specs.Prelude.{◌≡◌, ◌≢◌, [], false, codes, IfOk, IfErr, map, option_map};
ghost use Rattle.clap.specs.Words.{all_of, app_of, fault_of, found_of, rows_of, rule_of};
ghost use Rattle.par_words.specs.Commands as spec;
ghost use Rattle.par_words.specs.Commands.{command_of, texts};

use crate::words::{Unread, Which};
use clap::error::ErrorKind;
use clap::{Arg, ArgAction, ArgMatches, Command};
use std::alloc::{AllocError, Global};

/// A flag of one of the programs.
#[derive(Clone, Copy)]
pub(crate) enum Flag {
    Check,
    Trace,
    Audit,
    Infer,
    Sample,
    Verify,
}

impl Flag {
    /// The name, which stands behind two dashes.
    fn name<'a>(self) -> &'a str
        ensures { result.now ≡ spec.name_of self }
    {
        match self {
            Flag::Check => "check",
            Flag::Trace => "trace",
            Flag::Audit => "audit",
            Flag::Infer => "infer",
            Flag::Sample => "sample",
            Flag::Verify => "verify",
        }
    }
}

const COMPILER_FLAGS: &[Flag] = &[
    Flag::Check,
    Flag::Trace,
    Flag::Audit,
    Flag::Infer,
    Flag::Sample,
];

const RUNNER_FLAGS: &[Flag] = &[Flag::Verify];

/// The flags of a program.
fn flags_of(which: Which) -> &'static [Flag]
    ensures { result.now ≡ spec.flags_of which }
{
    match which {
        Which::Compiler => COMPILER_FLAGS,
        Which::Runner => RUNNER_FLAGS,
    }
}

/// The words of a program that its command takes.
pub(crate) fn taken<'a>(
    alloc: Global,
    which: Which,
    words: &'a [String],
) -> Result<ArgMatches<'a>, Unread>
    ensures taken { IfOk result (λ _. spec.IsTaken which (texts words.entry.now)) }
    ensures found { IfOk result (λ matches.
        rows_of (found_of matches) ≡ spec.rows which (texts words.entry.now)) }
    ensures refused { IfErr result (λ unread. unread ≡ Unread.NoForm →
        fault_of (command_of which) (texts words.entry.now) ≢ []) }
{
    match command(alloc, which)?.try_get_matches_from(words) {
        Ok(matches) => Ok(matches),
        Err(error) => match error.kind() {
            ErrorKind::OutOfMemory => Err(Unread::Memory),
            _ => Err(Unread::NoForm),
        },
    }
}

/// The flags of a program that are among the words, in their own order.
pub(crate) fn set_flags(
    alloc: Global,
    which: Which,
    matches: &ArgMatches,
) -> Result<Vec<Flag>, AllocError>
    ensures { IfOk result (λ flags.
        flags.items ≡ spec.set_flags which (rows_of (found_of matches.now))) }
{
    flags_of(which)
        .iter()
        .copied()
        .filter(|flag| has_flag(matches, *flag))
        .collect(alloc)
}

/// Whether a flag is among the words.
fn has_flag(matches: &ArgMatches, flag: Flag) -> bool
    ensures { result ≡ spec.has_flag (rows_of (found_of matches.now)) flag }
{
    match matches.get_str(flag.name()) {
        Some(text) => text == "true",
        None => false,
    }
}

/// The words that are no flags, where there are some.
pub(crate) fn values<'m, 'a>(matches: &'m ArgMatches<'a>) -> Option<&'m [&'a str]>
    ensures { option_map (λ texts. map (λ text. text.now) texts.now) result
        ≡ all_of (codes "values") (rows_of (found_of matches.entry.now)) }
{
    matches.get_raw("values")
}

/// The command of a program.
fn command<'a>(alloc: Global, which: Which) -> Result<Command<'a>, AllocError>
    ensures { IfOk result (λ command. app_of command ≡ command_of which) }
{
    let name = match which {
        Which::Compiler => "paragonc",
        Which::Runner => "paragon",
    };
    with_flags(alloc, bare(alloc, name), flags_of(which))?.arg(every_value(alloc))
}

/// A command that has these flags too.
fn with_flags<'a>(
    alloc: Global,
    mut command: Command<'a>,
    flags: &[Flag],
) -> Result<Command<'a>, AllocError>
    ensures { IfOk result (λ more. app_of more ≡ spec.with_flags (app_of command.entry) flags.now) }
{
    for own in flags {
        command = command.arg(flag_named(alloc, own.name()))?;
    }
    Ok(command)
}

/// A command without help and version, whose words do not begin with the program's name.
fn bare<'a>(alloc: Global, name: &'a str) -> Command<'a>
    ensures { app_of result ≡ spec.bare name.entry.now }
{
    Command::new(alloc, name)
        .no_binary_name(true)
        .disable_help_flag(true)
        .disable_version_flag(true)
}

/// The flag of a name, as `--check`.
fn flag_named<'a>(alloc: Global, name: &'a str) -> Arg<'a>
    ensures rule { rule_of result ≡ spec.flag name.entry.now }
    ensures own { result.global ≡ false }
{
    Arg::new(alloc, name).long(name).action(ArgAction::SetTrue)
}

/// The argument that takes all words which are no flags.
fn every_value<'a>(alloc: Global) -> Arg<'a>
    ensures rule { rule_of result ≡ spec.values_rule }
    ensures own { result.global ≡ false }
{
    Arg::new(alloc, "values").action(ArgAction::Append)
}
