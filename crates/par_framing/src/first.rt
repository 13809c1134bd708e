//! The first frame of each label.

ghost use Rattle.std.specs.Prelude.{◌≡◌, ◌≢◌, ℕ, None, Some, get_or, length, IfOk, OnOk};
ghost use Rattle.std.specs.Prelude.{MatchOption};
ghost use Rattle.par_framing.specs.First.{AreFirst, item_frame};

use par_base::memory::NoMemory;
use par_code_form::{Item, LabelFrame};
use std::alloc::Global;

/// Gives a label this place; other labels that are not marked have the place `none`.
fn mark(places: &mut Vec<usize>, label: u32, place: usize, none: usize) -> Result<(), NoMemory>
    ensures marked { OnOk result (get_or places.new.items label none ≡ place) }
    ensures kept { OnOk result ((l : ℕ) → l ≢ label →
        get_or places.new.items l none ≡ get_or places.old.items l none) }
{
    let at = label as usize;
    if places.len() <= at {
        places.resize(at + 1, none)?;
    }
    places[at] = place;
    Ok(())
}

/// The place of the first frame of each label, by the label's number.
pub fn first_places(alloc: Global, frames: &[LabelFrame]) -> Result<Vec<usize>, NoMemory>
    ensures { IfOk result (λ places. AreFirst frames.now frames.now places.items) }
{
    let mut places = Vec::new(alloc);
    let mut place = frames.len();
    while place > 0 {
        place -= 1;
        mark(&mut places, frames[place].label, place, frames.len())?;
    }
    Ok(places)
}

fn place_at(places: &[usize], label: u32, none: usize) -> usize
    ensures { result ≡ get_or places.now label none }
{
    match places.get(label as usize) {
        Some(place) => *place,
        None => none,
    }
}

/// The first frame of an item, where it is a label that has one.
pub fn frame_of<'f>(
    item: &Item,
    frames: &'f [LabelFrame],
    places: &[usize],
) -> Option<&'f LabelFrame>
    requires { AreFirst frames.now frames.now places.now }
    ensures { MatchOption result (item_frame frames.now item.now ≡ None)
        (λ f. item_frame frames.now item.now ≡ Some f.now) }
{
    match item {
        Item::Label(label) => frames.get(place_at(places, *label, frames.len())),
        _ => None,
    }
}
