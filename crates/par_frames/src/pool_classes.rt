//! The classes of kinds, put into a pool.

ghost use Rattle.std.specs.Prelude.{◌≡◌, ℕ, ◌∷◌, [], ◌++◌, IfOk, IfSome};
ghost use Rattle.std.specs.Prelude.{List as Items};
ghost use Rattle.std.specs.List.{All, AllZip, AllByRecursion};
ghost use Rattle.par_frame_forms.specs.par_pool.declared.constant.Constant.{Constant};
ghost use Rattle.par_frame_forms.specs.par_pool.Spelling.{IsText};
ghost use Rattle.par_kinds.specs.par_values.Areas.{Name};
ghost use Rattle.par_frame_forms.specs.Spelled.{TypeFits, TypesFit};
ghost use Rattle.par_frames.specs.Names.{whole_name, base_name, class_of, classes_of};
ghost use Rattle.par_frames.specs.Names.{classes_in, classes_named, IsClassType, StandsFor};
ghost use Rattle.par_frames.specs.Room.{HasRoom, IsShort, SPARE};
ghost use Rattle.par_frames.specs.Attribute.{AddsClasses};
ghost use Rattle.par_frames.specs.Forms.{IsIndexed, IndexedFits, last_locals};

use crate::arguments::{copied, is_same_kind};
use crate::indexed::IndexedFrame;
use par_base::list::List;
use par_base::memory::NoMemory;
use par_frame_forms::PlaceType;
use par_frame_forms::par_pool::PoolBuilder;
use par_kinds::frame::{PlacedFrame, VKind};
use std::alloc::Global;

/// The name of a class in a class file; frames know two by simple names.
fn whole_name(name: &[u8]) -> &[u8]
    ensures { result.now ≡ whole_name name.now }
{
    if name == b"ArithmeticException".as_slice() {
        b"java/lang/ArithmeticException"
    } else if name == b"NullPointerException".as_slice() {
        b"java/lang/NullPointerException"
    } else {
        name
    }
}

/// The class of all exceptions, or of all objects.
fn base_name(is_exception: bool) -> &'static [u8]
    ensures { result.now ≡ base_name is_exception }
{
    if is_exception {
        b"java/lang/Exception"
    } else {
        b"java/lang/Object"
    }
}

fn place_class(name: &[u8], pool: &mut PoolBuilder) -> Result<PlaceType, NoMemory>
    requires text { IsText name.now }
    requires room { HasRoom pool.old SPARE (name.now ∷ []) }
    ensures named { IfOk result (λ t. IsClassType pool.new t name.now) }
    ensures fits { IfOk result (λ t. TypeFits t) }
    ensures room { (spare : ℕ) (later : Items Name) → HasRoom pool.old spare (name.now ∷ later) →
        IfOk result (λ _. HasRoom pool.new spare later) }
    ensures added { AddsClasses pool.old pool.new (name.now ∷ []) }
{
    let index = pool.class(name)?;
    Ok(PlaceType::Class(index))
}

/// How a kind is written, its class put into the pool where it is not there.
fn place_kind(kind: &VKind, pool: &mut PoolBuilder) -> Result<PlaceType, NoMemory>
    requires room { HasRoom pool.old SPARE (class_of kind.now) }
    ensures stands { IfOk result (λ t. StandsFor pool.new kind.now t) }
    ensures fits { IfOk result (λ t. TypeFits t) }
    ensures room { (spare : ℕ) (later : Items Name) →
        HasRoom pool.old spare (class_of kind.now ++ later) →
        IfOk result (λ _. HasRoom pool.new spare later) }
    ensures added { AddsClasses pool.old pool.new (class_of kind.now) }
{
    match kind {
        VKind::Top => Ok(PlaceType::Top),
        VKind::Int => Ok(PlaceType::Int),
        VKind::Null => Ok(PlaceType::Null),
        VKind::Object(name) => place_class(whole_name(name.bytes()), pool),
        VKind::Base(is_exception) => place_class(base_name(*is_exception), pool),
    }
}

/// How a kind is written in the frame before, where that has it at this place.
fn type_before(
    kind: &VKind,
    place: usize,
    earlier: &[VKind],
    types: &[PlaceType],
) -> Option<PlaceType>
    ensures stands { (pool : Items Constant) → AllZip (StandsFor pool) earlier.now types.now →
        IfSome result (λ t. StandsFor pool kind.now t) }
    ensures fits { TypesFit types.now → IfSome result (λ t. TypeFits t) }
{
    let other = earlier.get(place)?;
    if !is_same_kind(kind, other) {
        return None;
    }
    match types.get(place) {
        None => None,
        Some(t) => Some(copied(t)),
    }
}

/// How a kind at a place is written. Most places hold what they held in the frame before, and then
/// the pool is not asked.
fn place_again(
    kind: &VKind,
    place: usize,
    earlier: &[VKind],
    types: &[PlaceType],
    pool: &mut PoolBuilder,
) -> Result<PlaceType, NoMemory>
    requires room { HasRoom pool.old SPARE (class_of kind.now) }
    requires known { AllZip (StandsFor pool.old) earlier.now types.now }
    requires fit { TypesFit types.now }
    ensures stands { IfOk result (λ t. StandsFor pool.new kind.now t) }
    ensures fits { IfOk result (λ t. TypeFits t) }
    ensures room { (spare : ℕ) (later : Items Name) →
        HasRoom pool.old spare (class_of kind.now ++ later) →
        IfOk result (λ _. HasRoom pool.new spare later) }
    ensures added { AddsClasses pool.old pool.new (class_of kind.now) }
{
    match type_before(kind, place, earlier, types) {
        Some(t) => Ok(t),
        None => place_kind(kind, pool),
    }
}

/// How kinds are written behind these, which are written so.
fn place_kinds(
    alloc: Global,
    kinds: &[VKind],
    earlier: &[VKind],
    types: &[PlaceType],
    pool: &mut PoolBuilder,
) -> Result<List<PlaceType>, NoMemory>
    requires room { HasRoom pool.old SPARE (classes_of kinds.now) }
    requires known { AllZip (StandsFor pool.old) earlier.now types.now }
    requires fit { TypesFit types.now }
    ensures stand { IfOk result (λ types. AllZip (StandsFor pool.new) kinds.now types) }
    ensures fit { IfOk result (λ types. TypesFit types) }
    ensures room { (spare : ℕ) (later : Items Name) →
        HasRoom pool.old spare (classes_of kinds.now ++ later) →
        IfOk result (λ _. HasRoom pool.new spare later) }
    ensures added { AddsClasses pool.old pool.new (classes_of kinds.now) }
{
    let mut made = List::new(alloc);
    for (place, kind) in kinds.iter().enumerate() {
        made.push(place_again(kind, place, earlier, types, pool)?)?;
    }
    Ok(made)
}

/// A frame behind one whose locals have these kinds and are written so.
fn place_frame(
    alloc: Global,
    f: &PlacedFrame,
    earlier: &[VKind],
    types: &[PlaceType],
    pool: &mut PoolBuilder,
) -> Result<IndexedFrame, NoMemory>
    requires room { HasRoom pool.old SPARE (classes_in f.now) }
    requires short { IsShort f.now }
    requires known { AllZip (StandsFor pool.old) earlier.now types.now }
    requires fit { TypesFit types.now }
    ensures indexed { IfOk result (λ i. IsIndexed pool.new f.now i) }
    ensures fits { IfOk result (λ i. IndexedFits i) }
    ensures room { (spare : ℕ) (later : Items Name) →
        HasRoom pool.old spare (classes_in f.now ++ later) →
        IfOk result (λ _. HasRoom pool.new spare later) }
    ensures added { AddsClasses pool.old pool.new (classes_in f.now) }
{
    let locals = place_kinds(alloc, f.frame.locals.as_slice(), earlier, types, pool)?;
    let stack = place_kinds(alloc, f.frame.stack.as_slice(), &[], &[], pool)?;
    Ok(IndexedFrame {
        offset: f.offset,
        locals,
        stack,
    })
}

/// How the locals of the last frame are written.
fn last_types(placed: &[IndexedFrame]) -> &[PlaceType]
    ensures { result.now ≡ last_locals placed.now }
{
    match placed {
        [] => &[],
        [.., i] => i.locals.as_slice(),
    }
}

/// Frames with an index for each class, which is put into the pool where it is not there.
pub(crate) fn place_frames(
    alloc: Global,
    frames: &[PlacedFrame],
    pool: &mut PoolBuilder,
) -> Result<List<IndexedFrame>, NoMemory>
    requires room { HasRoom pool.old SPARE (classes_named frames.now) }
    requires short { All IsShort frames.now }
    ensures indexed { IfOk result (λ placed. AllZip (IsIndexed pool.new) frames.now placed) }
    ensures fit { IfOk result (λ placed. AllByRecursion IndexedFits placed) }
    ensures room { (spare : ℕ) (later : Items Name) →
        HasRoom pool.old spare (classes_named frames.now ++ later) →
        IfOk result (λ _. HasRoom pool.new spare later) }
    ensures added { AddsClasses pool.old pool.new (classes_named frames.now) }
{
    let mut placed = List::new(alloc);
    let mut earlier: &[VKind] = &[];
    for f in frames {
        let types = last_types(placed.as_slice());
        let i = place_frame(alloc, f, earlier, types, pool)?;
        placed.push(i)?;
        earlier = f.frame.locals.as_slice();
    }
    Ok(placed)
}
