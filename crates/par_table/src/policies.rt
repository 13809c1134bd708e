//! The policies of a table, each once.

ghost use Rattle.std.specs.Prelude.{◌≡◌, ◌≤◌, ◌++◌, length, map, flat_map, IfOk, OnOk};
ghost use Rattle.std.specs.List.{position};
ghost use Rattle.par_tree.specs.Shown.{source};
ghost use Rattle.par_resolved.specs.Seen.{known_seen};
ghost use Rattle.par_resolved.specs.declared.limits.TheConstants.{MOST_POLICIES};
ghost use Rattle.par_parts.specs.Gathered.{all_of, classes_of};
ghost use Rattle.par_resolved.specs.Numbered.{same_policy, numbered, shared_policies};
ghost use Rattle.par_table.specs.Parts.{inferred_policies};

use par_limits::{distinct_entries, entries, same_policy};
use par_names::declared_classes;
use par_parts::written::written;
use par_policy::Policy;
use par_resolved::NoMemory;
use par_resolved::entries::Entry;
use par_resolved::known::{Known, bottom};
use par_tree::decl::{ClassDecl, FieldDecl, Program};
use std::alloc::Global;

/// The place of a policy among others. There are never more than a table may have.
pub fn place_of(policies: &[Policy], policy: &Policy) -> Option<usize>
    ensures { result ≡ position (same_policy policy.now) policies.now }
{
    policies.iter().position(|other| same_policy(policy, other))
}

// The policies of these entries.
#[tactic(auto, using(par_parts::proofs::Pushes::pushes))]
fn policies_of(alloc: Global, entries: &[&Entry]) -> Result<Vec<Policy>, NoMemory>
    ensures { IfOk result (λ found. found.items ≡ map (λ e. e.policy) (all_of entries.now)) }
{
    let mut found = Vec::new(alloc);
    for entry in entries {
        found.push(entry.policy.clone()?)?;
    }
    Ok(found)
}

/// The policies that are not inferred, in the order of their numbers.
pub fn shared_policies(
    alloc: Global,
    known: &Known<'_>,
    program: &Program,
) -> Result<Vec<Policy>, NoMemory>
    requires { length (numbered (known_seen known.now) (source program.now)) ≤ MOST_POLICIES }
    ensures { IfOk result (λ found.
        found.items ≡ shared_policies (known_seen known.now) (source program.now)) }
{
    let exprs = written(alloc, program)?;
    let classes = declared_classes(alloc, program)?;
    let entries = entries(alloc, known, program, exprs.as_slice(), classes.as_slice())?;
    let distinct = distinct_entries(alloc, entries.as_slice())?;
    policies_of(alloc, distinct.as_slice())
}

#[tactic(auto, using(par_parts::proofs::Pushes::pushes))]
fn push_bottoms(
    alloc: Global,
    found: &mut Vec<Policy>,
    known: &Known<'_>,
    fields: &[FieldDecl],
) -> Result<(), NoMemory>
    ensures { OnOk result (found.new.items
        ≡ found.old.items ++ inferred_policies (known_seen known.now) fields.now) }
{
    for field in fields {
        if field.inferred {
            found.push(bottom(alloc, &known.numbers)?)?;
        }
    }
    Ok(())
}

/// These policies, once more.
#[tactic(auto, using(par_parts::proofs::Pushes::pushes))]
pub fn copies(alloc: Global, policies: &[Policy]) -> Result<Vec<Policy>, NoMemory>
    ensures { IfOk result (λ made. made.items ≡ policies.now) }
{
    let mut made = Vec::new(alloc);
    for policy in policies {
        made.push(policy.clone()?)?;
    }
    Ok(made)
}

/// Pushes what the inferred fields of these classes begin as.
#[tactic(auto, using(par_parts::proofs::Pushes::pushes))]
pub fn push_inferred(
    alloc: Global,
    found: &mut Vec<Policy>,
    known: &Known<'_>,
    classes: &[&ClassDecl],
) -> Result<(), NoMemory>
    ensures { OnOk result (found.new.items
        ≡ found.old.items
        ++ flat_map (λ c. inferred_policies (known_seen known.now) c.fields)
        (classes_of classes.now)) }
{
    for class in classes {
        push_bottoms(alloc, found, known, class.fields.as_slice())?;
    }
    Ok(())
}
