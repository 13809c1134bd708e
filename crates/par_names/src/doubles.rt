//! Names that are declared twice.

ghost use Rattle.std.specs.Prelude.{◌≡◌, map, IfOk, OnOk};
ghost use Rattle.par_refusals.specs.First.{first_of};
ghost use Rattle.par_names.specs.Declarations.{doubles};
ghost use Rattle.par_names.specs.Earliest.{is_below, place_of, AreEarliest, IsNoted};

use crate::rule::SECOND_NAME;
use par_index::par_base::memory::NoMemory;
use par_refusals::refusal::Findings;
use par_tree::ident::Ident;
use std::alloc::Global;
use std::collections::HashMap;

/// The least place of each name.
#[derive(Drop)]
struct Earliest<'a> {
    places: HashMap<&'a [u8], u32>,
}

impl<'a> Earliest<'a> {
    /// The least places of the names of these.
    fn of(alloc: Global, ids: &[&'a Ident]) -> Result<Earliest<'a>, NoMemory>
        ensures { IfOk result (λ earliest. AreEarliest (map (λ id. id.now) ids.now) earliest) }
    {
        let mut earliest = Earliest {
            places: HashMap::new(alloc),
        };
        for id in ids {
            earliest.note(id)?;
        }
        Ok(earliest)
    }

    /// Keeps its place, where its name has no lesser one yet.
    fn note(&mut self, id: &'a Ident) -> Result<(), NoMemory>
        ensures { OnOk result (IsNoted self.old id.entry.now self.new) }
    {
        if !self.has_before(id) {
            self.places.insert(id.name.bytes(), id.at)?;
        }
        Ok(())
    }

    /// Whether its name has a lesser place.
    #[tactic(auto, unfolding(crate::specs::Earliest::is_below))]
    fn has_before(&self, id: &Ident) -> bool
        ensures { result ≡ is_below (place_of self.now id.now.name) id.now.at }
    {
        match self.places.get(&id.name.bytes()) {
            None => false,
            Some(place) => *place < id.at,
        }
    }
}

/// Notes each of these before which another one has its name. It takes time as there are names.
#[tactic(auto, using(crate::proofs::Noted::note))]
pub fn check_doubles(alloc: Global, ids: &[&Ident], findings: &mut Findings) -> Result<(), NoMemory>
    ensures { OnOk result (findings.new
        ≡ first_of findings.old (doubles (map (λ id. id.now) ids.now))) }
{
    let earliest = Earliest::of(alloc, ids)?;
    for id in ids {
        findings.expect(!earliest.has_before(id), SECOND_NAME, id.at);
    }
    Ok(())
}
