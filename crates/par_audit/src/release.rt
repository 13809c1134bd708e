//! The releases of a program, by ascending place.

ghost use Rattle.std.specs.Prelude.{◌≡◌, ◌<◌, ◌≤◌, ◌++◌, length, map, IfOk, OnOk};
ghost use Rattle.par_typed.specs.Shown as shown;
ghost use Rattle.par_check_laws.specs.Checks.{checks};
ghost use Rattle.par_asked.specs.Seen.{seen_checks, seen_condition};
ghost use Rattle.par_check.specs.par_flow.Table.{facts_in};
ghost use Rattle.par_audit.specs.Release as all;
ghost use Rattle.par_audit.specs.Release.{is_release, all_releases, AreReleases};

use crate::known::Releases;
use par_asked::body::checks_of;
use par_asked::check::{Check, Condition};
use par_base::list::List;
use par_base::memory::NoMemory;
use par_check::Accepted;
use par_flow::known::KnownFacts;
use par_typed::program::TBody;
use par_typed::table::Table;
use std::alloc::Global;

/// A release: the rule that it is listed under, and its place.
#[derive(Clone, Copy, Debug, PartialEq, Eq)]
pub struct Release {
    pub rule: u16,
    pub at: u32,
}

/// Whether what the condition asks is a release for the actor.
fn is_release<F: KnownFacts>(
    table: &Table,
    releases: &mut Releases<'_>,
    facts: &F,
    condition: Condition<'_>,
) -> bool
    requires policies { length table.now.policies ≤ 256 }
    requires asked { releases.old.0 ≡ table.now.policies }
    ensures stands { releases.new ≡ releases.old }
    ensures released { result ≡ is_release table.now releases.old.1 (F.facts facts.now)
        (seen_condition condition.entry) }
{
    let Condition::Released(value, policy) = condition else {
        return false;
    };
    if usize::from(policy) >= table.policies.len() {
        return false;
    }
    releases.is_released(&facts.value(value), policy)
}

/// Notes those of a list of rules.
fn note_releases<F: KnownFacts>(
    table: &Table,
    releases: &mut Releases<'_>,
    facts: &F,
    asked: &[Check<'_>],
    found: &mut Vec<Release>,
) -> Result<(), NoMemory>
    requires policies { length table.now.policies ≤ 256 }
    requires asked { releases.old.0 ≡ table.now.policies }
    ensures stands { releases.new ≡ releases.old }
    ensures noted { OnOk result (found.new.items ≡ found.old.items
        ++ all.releases table.now releases.old.1 (F.facts facts.now) (seen_checks asked.now)) }
{
    for check in asked {
        if is_release(table, releases, facts, check.condition) {
            found.push(Release {
                rule: check.rule,
                at: check.at,
            })?;
        }
    }
    Ok(())
}

/// Notes those of a body.
fn note_body<F: KnownFacts>(
    alloc: Global,
    table: &Table,
    releases: &mut Releases<'_>,
    facts: &F,
    body: &TBody,
    found: &mut Vec<Release>,
) -> Result<(), NoMemory>
    requires policies { length table.now.policies ≤ 256 }
    requires classes { length table.now.classes ≤ 65536 }
    requires asked { releases.old.0 ≡ table.now.policies }
    ensures stands { releases.new ≡ releases.old }
    ensures noted { OnOk result (found.new.items ≡ found.old.items
        ++ all.releases table.now releases.old.1 (F.facts facts.now)
        (checks table.now (shown.body body.now))) }
{
    let asked = checks_of(alloc, table, body)?;
    note_releases(table, releases, facts, asked.as_slice(), found)
}

/// Those of all bodies, one body after another.
fn releases_of(alloc: Global, accepted: &Accepted, actor: u8) -> Result<Vec<Release>, NoMemory>
    requires policies { length accepted.now.typed.table.policies ≤ 256 }
    requires classes { length accepted.now.typed.table.classes ≤ 65536 }
    ensures { IfOk result (λ found. found.items ≡ all_releases accepted.now.typed.table actor
        (shown.bodies accepted.now.typed.bodies) (map facts_in accepted.now.facts)) }
{
    let typed = accepted.typed();
    let mut releases = Releases::of(alloc, typed.table.policies.as_slice(), actor)?;
    let mut found = Vec::new(alloc);
    for (place, body) in typed.bodies.as_slice().iter().enumerate() {
        let facts = accepted.facts(place as u16);
        note_body(alloc, &typed.table, &mut releases, facts, body, &mut found)?;
    }
    Ok(found)
}

/// The releases of a program for an actor: where a value is written to a field or put out, and with
/// some locks the actor sees the policy of the target and does not see the value, as the least
/// facts have it. All bodies count, also those that nothing calls.
pub fn audit(alloc: Global, accepted: &Accepted, actor: u8) -> Result<List<Release>, NoMemory>
    requires actor { actor < length accepted.now.typed.table.actors }
    requires policies { length accepted.now.typed.table.policies ≤ 256 }
    requires classes { length accepted.now.typed.table.classes ≤ 65536 }
    ensures { IfOk result (AreReleases (all_releases accepted.now.typed.table actor
        (shown.bodies accepted.now.typed.bodies) (map facts_in accepted.now.facts))) }
{
    let mut found = releases_of(alloc, accepted, actor)?;
    found.sort_by_key(|release| release.at)?;
    Ok(List::wrap(found))
}
