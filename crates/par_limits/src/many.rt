// The first policy that is one too many.
ghost use Rattle.std.specs.Prelude.{◌≡◌, ◌++◌, map, flat_map, slice_get, OnOk};
ghost use Rattle.par_refusals.specs.First.{first_of};
ghost use Rattle.par_parts.specs.Gathered.{all_of, classes_of};
ghost use Rattle.par_limits.specs.Places.{inferred_places, places_of, many_at};

use par_refusals::refusal::{Findings, LIMIT_RULE, Refusal};
use par_resolved::NoMemory;
use par_resolved::entries::Entry;
use par_resolved::limits::{MOST_POLICIES, POLICY_LIMIT};
use par_tree::decl::{ClassDecl, FieldDecl};
use std::alloc::Global;

#[tactic(auto, using(par_parts::proofs::Pushes::pushes))]
fn push_inferred(places: &mut Vec<u32>, fields: &[FieldDecl]) -> Result<(), NoMemory>
    ensures { OnOk result (places.new.items ≡ places.old.items ++ inferred_places fields.now) }
{
    for field in fields {
        if field.inferred {
            places.push(field.id.at)?;
        }
    }
    Ok(())
}

#[tactic(auto, using(par_parts::proofs::Pushes::pushes))]
fn push_fields(places: &mut Vec<u32>, classes: &[&ClassDecl]) -> Result<(), NoMemory>
    ensures { OnOk result (places.new.items
        ≡ places.old.items ++ flat_map (λ c. inferred_places c.fields) (classes_of classes.now)) }
{
    for class in classes {
        push_inferred(places, class.fields.as_slice())?;
    }
    Ok(())
}

#[tactic(auto, using(par_parts::proofs::Pushes::pushes))]
fn push_entries(places: &mut Vec<u32>, entries: &[&Entry]) -> Result<(), NoMemory>
    ensures { OnOk result (places.new.items
        ≡ places.old.items ++ map (λ e. e.at) (all_of entries.now)) }
{
    for entry in entries {
        places.push(entry.at)?;
    }
    Ok(())
}

#[tactic(auto, using(par_refusals::proofs::First::tests), unfolding(crate::specs::Places::many_at))]
fn note_many(place: Option<u32>, findings: &mut Findings)
    ensures { findings.new ≡ first_of findings.old (many_at place) }
{
    match place {
        None => {}
        Some(at) => findings.note(Refusal {
            rule: LIMIT_RULE,
            at,
            limit: POLICY_LIMIT,
            count: MOST_POLICIES as u32 + 1,
        }),
    }
}

/// Notes the limit of policies at the first that is one too many of these entries and of the
/// inferred fields of these classes.
pub fn check_many(
    alloc: Global,
    distinct: &[&Entry],
    classes: &[&ClassDecl],
    findings: &mut Findings,
) -> Result<(), NoMemory>
    ensures { OnOk result (findings.new
        ≡ first_of findings.old
        (many_at (slice_get (places_of (all_of distinct.now) (classes_of classes.now))
        MOST_POLICIES))) }
{
    let mut places = Vec::new(alloc);
    push_entries(&mut places, distinct)?;
    push_fields(&mut places, classes)?;
    note_many(places.get(MOST_POLICIES).copied(), findings);
    Ok(())
}
