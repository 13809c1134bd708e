//! What is done to audit a source for an actor: the source is read and judged, and a line is made
//! for each release of its program.

ghost use Rattle.std.specs.Prelude.{◌≡◌, ◌≤◌, IsTrue, IfOk, IfErr, length, map};
ghost use Rattle.std.specs.List.{AllByRecursion, position};
ghost use Rattle.std.specs.Str.{bytes_eq};
ghost use Rattle.par_io.specs.Causes.{Makes};
ghost use Rattle.par_check_laws.specs.Accepted.{IsAcceptedBy};
ghost use Rattle.par_check.specs.par_flow.Table.{facts_in};
ghost use Rattle.par_observer.specs.Trees.{IsWellFormed};
ghost use Rattle.par_tool.specs.Audits as spec;
ghost use Rattle.par_tool.specs.Audits.{IsAuditedAs, IsAuditOf, IsUnaudited, Unaudited};
ghost use Rattle.par_tool.specs.Failures.{IsFailure, FaultsAreTold};
ghost use Rattle.par_tool.specs.Lines.{texts_of};
ghost use Rattle.par_tool.specs.Sources.{IsSecureAs};

use crate::answer::Answer;
use crate::reads::{Failure, read};
use crate::sources::accepted;
use crate::spots::{START, Spot};
use par_audit::{Release, audit};
use par_check::Accepted;
use par_io::Folder;
use par_lexer::LONGEST_SOURCE;
use par_lexer::name::Name;
use par_typed::table::Table;
use std::alloc::{AllocError, Global};

/// Whether a name is spelled so.
fn is_called(name: &Name, bytes: &[u8]) -> bool
    ensures { result ≡ bytes_eq name.now bytes.now }
{
    name.bytes() == bytes
}

/// The place of the first name that is spelled so.
fn place_of_name(names: &[Name], bytes: &[u8]) -> Option<usize>
    ensures { result ≡ position (λ name. bytes_eq name bytes.now) names.now }
{
    names.iter().position(|name| is_called(name, bytes))
}

/// The number of the actor of a name, where it is declared.
fn actor_number(table: &Table, name: &str) -> Option<u8>
    requires { length table.now.actors ≤ 256 }
    ensures { result ≡ spec.actor_of table.now name.now }
{
    let place = place_of_name(table.actors.as_slice(), name.as_bytes())?;
    Some(place as u8)
}

/// The line of a release at that place.
fn release_line(alloc: Global, rule: u16, spot: Spot) -> Result<Vec<u8>, AllocError>
    ensures { IfOk result (λ text. text.items ≡ spec.told_at rule spot.line spot.column) }
{
    let Spot { line, column, .. } = spot;
    Ok(format!(in alloc; "release {rule} at {line}:{column}\n")?.into_bytes())
}

/// The line that tells how many releases there are.
fn audited_line(alloc: Global, number: usize) -> Result<Vec<u8>, AllocError>
    ensures { IfOk result (λ text. text.items ≡ spec.audited_text number) }
{
    Ok(format!(in alloc; "audited {number}\n")?.into_bytes())
}

/// The lines of an audit that finds these releases.
fn audit_lines(alloc: Global, source: &[u8], found: &[Release]) -> Result<Vec<Vec<u8>>, AllocError>
    requires within { AllByRecursion (λ release. release.at ≤ length source.now) found.now }
    requires short { length source.now ≤ LONGEST_SOURCE }
    ensures { IfOk result (λ lines.
        texts_of lines.items ≡ spec.audit_lines source.now found.now) }
{
    let mut lines = Vec::new(alloc);
    let mut spot = START;
    for release in found {
        spot = spot.moved(source, release.at);
        let line = release_line(alloc, release.rule, spot)?;
        lines.push(line)?;
    }
    let last = audited_line(alloc, found.len())?;
    lines.push(last)?;
    Ok(lines)
}

/// The lines of the audit of what a source is accepted as, for the actor of a name.
fn lines_for(
    alloc: Global,
    source: &[u8],
    accepted: &Accepted,
    actor: &str,
) -> Result<Vec<Vec<u8>>, Failure>
    requires short { length source.now ≤ LONGEST_SOURCE }
    requires accepted { IsSecureAs source.now accepted.now.typed }
    requires well_formed { IsWellFormed accepted.now.typed }
    requires kept { IsAcceptedBy accepted.now.typed (map facts_in accepted.now.facts) }
    ensures audited { IfOk result (λ lines.
        IsAuditedAs source.now actor.now (texts_of lines.items)) }
    ensures failed { IfErr result (IsFailure (IsUnaudited source.now actor.now)) }
{
    let Some(actor) = actor_number(&accepted.typed().table, actor) else {
        return Err(Failure::Answered(Answer::NoActor));
    };
    let found = audit(alloc, accepted, actor)?;
    Ok(audit_lines(alloc, source, found.as_slice())?)
}

/// The lines of the audit of a source for the actor of a name.
fn audited(alloc: Global, source: &[u8], actor: &str) -> Result<Vec<Vec<u8>>, Failure>
    requires { length source.now ≤ LONGEST_SOURCE }
    ensures audited { IfOk result (λ lines.
        IsAuditedAs source.now actor.now (texts_of lines.items)) }
    ensures failed { IfErr result (IsFailure (IsUnaudited source.now actor.now)) }
{
    let accepted = accepted(alloc, source)?;
    let lines = lines_for(alloc, source, &accepted, actor);
    drop(accepted);
    lines
}

/// The lines of the audit of the source in a file.
pub fn audit_source<F: Folder>(
    alloc: Global,
    folder: &mut F,
    actor: &str,
    file: &str,
) -> Result<Vec<Vec<u8>>, Failure>
    ensures kept { F.files folder.new ≡ F.files folder.old }
    ensures counted { Makes 1 0 (F.counts folder.old) (F.counts folder.new) }
    ensures faults_are_told { IsTrue F.counts_faults_alone →
        FaultsAreTold result (F.counts folder.old).faults (F.counts folder.new).faults }
    ensures audited { IfOk result (λ lines.
        IsAuditOf (F.files folder.old) actor.now file.now (texts_of lines.items)) }
    ensures failed { IfErr result (IsFailure (Unaudited (F.files folder.old)
        (F.counts folder.old) (F.counts folder.new) actor.now file.now)) }
{
    let source = read(alloc, folder, file, LONGEST_SOURCE as u64)?;
    audited(alloc, source.as_slice(), actor)
}
