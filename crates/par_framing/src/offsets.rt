//! Frames at offsets, of those at one offset the last.

ghost use Rattle.std.specs.Prelude.{◌≡◌, ◌-◌, ◌++◌, ◌∷◌, [], take, slice_index, All, IfOk, OnOk};
ghost use Rattle.std.specs.Vec.{vec_len};
ghost use Rattle.par_framing.specs.First.{AreFirst};
ghost use Rattle.par_framing.specs.Joined as joined;
ghost use Rattle.par_framing.specs.Joined.{added, joined, HasLabel};
ghost use Rattle.par_compile_laws.specs.Framed as spec;
ghost use Rattle.par_compile_laws.specs.Framed.{frames_with};

use crate::first::{first_places, frame_of};
use crate::kinds::placed;
use par_base::list::List;
use par_base::memory::NoMemory;
use par_code_form::{Item, LabelFrame, Labelled};
use par_kinds::frame::PlacedFrame;
use std::alloc::Global;

/// Whether the last frame stands at an offset.
fn ends_at(frames: &[PlacedFrame], offset: u32) -> bool
    ensures { result ≡ joined.ends_at frames.now offset }
{
    match frames {
        [] => false,
        [.., f] => f.offset == offset,
    }
}

/// Puts a frame in the place of the last.
fn put_last(frames: &mut Vec<PlacedFrame>, f: PlacedFrame) -> Result<(), NoMemory>
    ensures { OnOk result (frames.new.items
        ≡ take (vec_len frames.old - 1) frames.old.items ++ f ∷ []) }
{
    frames.pop();
    frames.push(f)?;
    Ok(())
}

/// Puts a frame behind others, or in the place of the last where that has its offset.
fn put(frames: &mut Vec<PlacedFrame>, f: PlacedFrame) -> Result<(), NoMemory>
    ensures { OnOk result (frames.new.items ≡ joined frames.old.items f) }
{
    if ends_at(frames, f.offset) {
        put_last(frames, f)?;
        return Ok(());
    }
    frames.push(f)?;
    Ok(())
}

/// Puts the frame of an item behind others, where it has one.
#[tactic(auto, using(crate::proofs::Firsts::item_frames))]
fn put_item(
    alloc: Global,
    item: &Item,
    frames: &[LabelFrame],
    places: &[usize],
    offsets: &[u16],
    out: &mut Vec<PlacedFrame>,
) -> Result<(), NoMemory>
    requires first { AreFirst frames.now frames.now places.now }
    requires labels { All (HasLabel offsets.now) frames.now }
    ensures { OnOk result (out.new.items ≡ added out.old.items
        (spec.frame_of (slice_index offsets.now) frames.now item.now)) }
{
    let Some(f) = frame_of(item, frames, places) else {
        return Ok(());
    };
    put(out, placed(alloc, offsets[f.label as usize], f)?)
}

/// The frames of code whose labels stand at these offsets.
pub fn frames_at(
    alloc: Global,
    code: &Labelled,
    offsets: &[u16],
) -> Result<List<PlacedFrame>, NoMemory>
    requires labels { All (HasLabel offsets.now) code.now.frames }
    ensures { IfOk result (λ fs. fs ≡ frames_with (slice_index offsets.now) code.now) }
{
    let frames = code.frames.as_slice();
    let places = first_places(alloc, frames)?;
    let items = code.items.as_slice();
    let mut out = Vec::new(alloc);
    for item in items {
        put_item(alloc, item, frames, &places, offsets, &mut out)?;
    }
    Ok(List::wrap(out))
}
