//! Lists of kinds.

ghost use Rattle.std.specs.Prelude.{◌≡◌, IfOk};
ghost use Rattle.par_kinds.specs.Passes.{all_into, merge_all};
ghost use Rattle.par_kinds.specs.Kinds.{kind_at};
ghost use Rattle.par_place_kinds.specs.Listed.{listed_into};
ghost use Rattle.par_place_kinds.specs.Marks.{names, kind_of, kinds_of};

use crate::kind::PlaceKind;
use par_base::memory::NoMemory;
use std::alloc::Global;

/// Whether each kind fits into the one at its place, of as many.
pub fn all_into(exceptions: &[&[u8]], kinds: &[PlaceKind], others: &[PlaceKind]) -> bool
    ensures { result ≡ all_into (names exceptions.now) (kinds_of kinds.now) (kinds_of others.now) }
{
    if kinds.len() != others.len() {
        return false;
    }
    for (place, kind) in kinds.iter().enumerate() {
        if !kind.fits_into(exceptions, others[place]) {
            return false;
        }
    }
    true
}

/// The least kind into which both fit, of each place that both list.
pub fn merged<'f>(
    alloc: Global,
    exceptions: &[&[u8]],
    kinds: &[PlaceKind<'f>],
    others: &[PlaceKind<'f>],
) -> Result<Vec<PlaceKind<'f>>, NoMemory>
    ensures { IfOk result (λ all. kinds_of all.items
        ≡ merge_all (names exceptions.now) (kinds_of kinds.entry.now)
        (kinds_of others.entry.now)) }
{
    let mut all = Vec::new(alloc);
    for (place, kind) in kinds.iter().enumerate() {
        if place >= others.len() {
            return Ok(all);
        }
        all.push(kind.merged(exceptions, others[place]))?;
    }
    Ok(all)
}

/// A copy of kinds.
pub fn copied<'f>(alloc: Global, kinds: &[PlaceKind<'f>]) -> Result<Vec<PlaceKind<'f>>, NoMemory>
    ensures { IfOk result (λ all. all.items ≡ kinds.entry.now) }
{
    let mut all = Vec::new(alloc);
    all.extend_from_slice(kinds)?;
    Ok(all)
}

/// The kind of a place, where those that are not listed hold anything.
pub(crate) fn kind_at<'f>(kinds: &[PlaceKind<'f>], place: usize) -> PlaceKind<'f>
    ensures { kind_of result ≡ kind_at (kinds_of kinds.entry.now) place }
{
    match kinds.get(place) {
        Some(kind) => *kind,
        None => PlaceKind::Top,
    }
}

/// Whether each kind fits into the one at its place that is listed.
pub fn listed_into(exceptions: &[&[u8]], kinds: &[PlaceKind], others: &[PlaceKind]) -> bool
    ensures { result
        ≡ listed_into (names exceptions.now) (kinds_of kinds.now) (kinds_of others.now) }
{
    for (place, other) in others.iter().enumerate() {
        if !kind_at(kinds, place).fits_into(exceptions, *other) {
            return false;
        }
    }
    true
}
