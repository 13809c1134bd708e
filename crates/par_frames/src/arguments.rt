//! How the receiver and the arguments of a method are listed before its first frame.

ghost use Rattle.std.specs.Prelude.{◌≡◌, List as Items, IfOk, length, get_or};
ghost use Rattle.std.specs.List.{AllZip, position};
ghost use Rattle.par_frame_forms.specs.declared.form.PlaceType.TheVariants.{Class};
ghost use Rattle.par_frame_forms.specs.par_pool.declared.constant.Constant.{Constant};
ghost use Rattle.par_frames.specs.Names.{StandsFor, same_kind};
ghost use Rattle.par_frames.specs.Attribute.{IsListed, first_locals};
ghost use Rattle.par_frames.specs.Forms.{IsIndexed};

use crate::indexed::IndexedFrame;
use par_base::list::List;
use par_base::memory::NoMemory;
use par_frame_forms::PlaceType;
use par_kinds::frame::{PlacedFrame, VKind};
use std::alloc::Global;

/// Whether two kinds are the same.
#[tactic(auto, unfolding(crate::specs::Names::same_kind))]
pub(crate) fn is_same_kind(kind: &VKind, other: &VKind) -> bool
    ensures { result ≡ same_kind kind.now other.now }
{
    match kind {
        VKind::Top => matches!(other, VKind::Top),
        VKind::Int => matches!(other, VKind::Int),
        VKind::Null => matches!(other, VKind::Null),
        VKind::Object(name) => match other {
            VKind::Object(named) => name.bytes() == named.bytes(),
            _ => false,
        },
        VKind::Base(base) => match other {
            VKind::Base(other_base) => { if *base { *other_base } else { !*other_base } }
            _ => false,
        },
    }
}

/// A second type like this one.
pub(crate) fn copied(t: &PlaceType) -> PlaceType
    ensures { result ≡ t.now }
{
    match t {
        PlaceType::Top => PlaceType::Top,
        PlaceType::Int => PlaceType::Int,
        PlaceType::Null => PlaceType::Null,
        PlaceType::Class(index) => PlaceType::Class(*index),
    }
}

/// Where the first of some kinds is the same.
fn place_of(kind: &VKind, kinds: &[VKind]) -> Option<usize>
    ensures { result ≡ position (same_kind kind.now) kinds.now }
{
    kinds.iter().position(|other| is_same_kind(kind, other))
}

/// The type at a place; index 0, which names nothing, behind the end.
fn type_at(types: &[PlaceType], place: usize) -> PlaceType
    ensures { result ≡ get_or types.now place (Class 0) }
{
    match types.get(place) {
        Some(t) => copied(t),
        None => PlaceType::Class(0),
    }
}

/// How a kind is listed before a frame whose locals have these kinds and are written so.
fn list_kind(kind: &VKind, first: &[VKind], types: &[PlaceType]) -> PlaceType
    ensures { (pool : Items Constant) → AllZip (StandsFor pool) first.now types.now →
        IsListed pool first.now kind.now result }
{
    match place_of(kind, first) {
        Some(place) => type_at(types, place),
        None => PlaceType::Class(0),
    }
}

/// How kinds are listed before a frame whose locals have these kinds and are written so.
fn list_kinds(
    alloc: Global,
    kinds: &[VKind],
    first: &[VKind],
    types: &[PlaceType],
) -> Result<List<PlaceType>, NoMemory>
    ensures { (pool : Items Constant) → AllZip (StandsFor pool) first.now types.now →
        IfOk result (λ listed. AllZip (IsListed pool first.now) kinds.now listed) }
{
    let mut listed = List::new(alloc);
    for kind in kinds {
        listed.push(list_kind(kind, first, types))?;
    }
    Ok(listed)
}

/// How kinds are listed before these frames, which are written so.
pub(crate) fn list_start(
    alloc: Global,
    kinds: &[VKind],
    frames: &[PlacedFrame],
    placed: &[IndexedFrame],
) -> Result<List<PlaceType>, NoMemory>
    requires { length placed.now ≡ length frames.now }
    ensures { (pool : Items Constant) → AllZip (IsIndexed pool) frames.now placed.now →
        IfOk result (λ listed. AllZip (IsListed pool (first_locals frames.now)) kinds.now listed) }
{
    let [f, ..] = frames else {
        return list_kinds(alloc, kinds, &[], &[]);
    };
    let i = &placed[0];
    list_kinds(alloc, kinds, f.frame.locals.as_slice(), i.locals.as_slice())
}
