//! The judgement of a source.

ghost use Rattle.std.specs.Prelude.{◌≡◌, ◌≤◌, ◌<◌, IfOk, IfErr, length, map};
ghost use Rattle.par_check.specs.par_flow.Table.{facts_in};
ghost use Rattle.par_check_laws.specs.Accepted.{IsAcceptedBy};
ghost use Rattle.par_secrecy.specs.Secure.{Secure};
ghost use Rattle.par_alike.specs.Subject.{subject};
ghost use Rattle.par_observer.specs.Judgements.{IsAcceptedAs, IsRefused, IsTypedAs, IsUntyped};
ghost use Rattle.par_observer.specs.Judgements.{IsStoppedAs, overlong};
ghost use Rattle.par_observer.specs.Trees.{IsKeptBySome, IsWellFormed, IsReady, ChecksLie};
ghost use Rattle.par_observer.specs.Trees.{BreaksRule, BreaksTyping};

use crate::error::JudgeError;
use crate::sentence::read_tree;
use crate::tree::{judge_tree, program_tree, type_tree};
use par_check::Accepted;
use par_lexer::LONGEST_SOURCE;
use par_refusals::refusal::Refusal;
use par_typed::program::Typed;
use std::alloc::Global;

/// The rule on the length of a source.
const TOO_LONG: u16 = 5;

/// Reads a source, and looks whether it keeps all rules: its length first, then its tokens, its
/// sentence, its names, its limits, its types, fields without a policy, and its flows. What is
/// accepted has a typed program and facts of each of its bodies, of which there are at most 65,536:
/// closed ones, at or below all others, and they keep all rules on flows. What may be asked of the
/// program is said of its table and its bodies as well, without the source. The program is secure.
pub fn judge(alloc: Global, source: &[u8]) -> Result<Accepted, JudgeError>
    ensures accepted { IfOk result (λ accepted. IsAcceptedAs source.now accepted.typed) }
    ensures well_formed { IfOk result (λ accepted. IsWellFormed accepted.typed) }
    ensures kept { IfOk result (λ accepted.
        IsAcceptedBy accepted.typed (map facts_in accepted.facts)) }
    ensures secure { IfOk result (λ accepted. Secure (subject accepted.typed)) }
    ensures refused { IfErr result (IsRefused source.now) }
{
    if source.len() > LONGEST_SOURCE {
        return Err(JudgeError::Refused(overlong(source.len())));
    }
    judge_short(alloc, source)
}

/// The judgement of a source that is not too long.
fn judge_short(alloc: Global, source: &[u8]) -> Result<Accepted, JudgeError>
    requires { length source.now ≤ LONGEST_SOURCE }
    ensures accepted { IfOk result (λ accepted. IsAcceptedAs source.now accepted.typed) }
    ensures well_formed { IfOk result (λ accepted. IsWellFormed accepted.typed) }
    ensures kept { IfOk result (λ accepted.
        IsAcceptedBy accepted.typed (map facts_in accepted.facts)) }
    ensures refused { IfErr result (IsStoppedAs BreaksRule source.now) }
{
    let tree = read_tree(alloc, source)?;
    judge_tree(alloc, source, tree)
}

/// Reads a source and looks whether it keeps all rules, as `judge` does, and gives its program
/// alone: the facts of a body are dropped once they are asked.
pub fn program_of(alloc: Global, source: &[u8]) -> Result<Typed, JudgeError>
    ensures accepted { IfOk result (IsAcceptedAs source.now) }
    ensures well_formed { IfOk result IsWellFormed }
    ensures secure { IfOk result (λ typed. Secure (subject typed)) }
    ensures refused { IfErr result (IsRefused source.now) }
{
    if source.len() > LONGEST_SOURCE {
        return Err(JudgeError::Refused(overlong(source.len())));
    }
    program_short(alloc, source)
}

/// The program of a source that is not too long, if it is accepted.
fn program_short(alloc: Global, source: &[u8]) -> Result<Typed, JudgeError>
    requires { length source.now ≤ LONGEST_SOURCE }
    ensures accepted { IfOk result (IsAcceptedAs source.now) }
    ensures well_formed { IfOk result IsWellFormed }
    ensures kept { IfOk result IsKeptBySome }
    ensures refused { IfErr result (IsStoppedAs BreaksRule source.now) }
{
    let tree = read_tree(alloc, source)?;
    program_tree(alloc, source, tree)
}

/// Reads a source, and runs the passes up to types: its length, its tokens, its sentence, its
/// names, its limits and its types. Fields of the program that it gives may be left to be inferred.
/// What the rules on flows ask of a program is said of it, and none of these rules is asked behind
/// the end of the source.
pub fn typed_of(alloc: Global, source: &[u8]) -> Result<Typed, JudgeError>
    ensures typed { IfOk result (IsTypedAs source.now) }
    ensures ready { IfOk result IsReady }
    ensures placed { IfOk result (ChecksLie (length source.now)) }
    ensures refused { IfErr result (IsUntyped source.now) }
{
    if source.len() > LONGEST_SOURCE {
        return Err(JudgeError::Refused(overlong(source.len())));
    }
    type_short(alloc, source)
}

/// The typed program of a source that is not too long.
fn type_short(alloc: Global, source: &[u8]) -> Result<Typed, JudgeError>
    requires { length source.now ≤ LONGEST_SOURCE }
    ensures typed { IfOk result (IsTypedAs source.now) }
    ensures ready { IfOk result IsReady }
    ensures placed { IfOk result (ChecksLie (length source.now)) }
    ensures refused { IfErr result (IsStoppedAs BreaksTyping source.now) }
{
    let tree = read_tree(alloc, source)?;
    type_tree(alloc, source, tree)
}

/// The refusal of a source of this length.
fn overlong(length: usize) -> Refusal
    ensures { result ≡ overlong length }
{
    let count = match u32::try_from(length) {
        Ok(count) => count,
        Err(_) => u32::MAX,
    };
    Refusal {
        rule: TOO_LONG,
        at: 0,
        limit: 0,
        count,
    }
}
