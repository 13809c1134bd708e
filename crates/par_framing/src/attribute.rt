//! The attribute of the frames of code.

ghost use Rattle.std.specs.Prelude.{ℕ, ◌+◌, ◌<◌, ◌^◌, ◌++◌, IfOk, slice_index, All};
ghost use Rattle.std.specs.Prelude.{List as Items};
ghost use Rattle.par_values.specs.Areas.{Name};
ghost use Rattle.par_class.specs.Spelling.{FitsAttribute, AllFit};
ghost use Rattle.par_frames.specs.Names.{classes_named};
ghost use Rattle.par_frames.specs.Room.{HasRoom, IsShort, Ascend, offsets, SPARE};
ghost use Rattle.par_place.specs.par_code_form.PlaceableFrames.{AreFramesPlaceable};
ghost use Rattle.par_compile_laws.specs.Framed.{AreAttributes, frames_with};
ghost use Rattle.par_compile_laws.specs.Framed.{frame_classes};
ghost use Rattle.par_framing.specs.Added.{AddsTable, AreSized, HasLabelOffsets};

use crate::kinds::kinds_of;
use crate::offsets::frames_at;
use par_base::list::List;
use par_base::memory::NoMemory;
use par_class::Attribute;
use par_code_form::Labelled;
use par_frames::write_frames;
use par_kinds::frame::MethodFrames;
use par_pool::PoolBuilder;
use std::alloc::Global;

/// The attribute of frames of code, alone; none where there is no frame.
fn table_of(
    alloc: Global,
    code: &Labelled,
    frames: &MethodFrames,
    pool: &mut PoolBuilder,
) -> Result<List<Attribute>, NoMemory>
    requires ascend { Ascend 0 (offsets frames.now.at) }
    requires short { All IsShort frames.now.at }
    requires room { HasRoom pool.old (1 + SPARE) (classes_named frames.now.at) }
    ensures are { IfOk result (λ as'. AreAttributes pool.new code.now frames.now.at as') }
    ensures fit { IfOk result (λ as'. AreSized as' → AllFit (FitsAttribute pool.new) as') }
    ensures room { (spare : ℕ) (later : Items Name) →
        HasRoom pool.old (1 + spare) (classes_named frames.now.at ++ later) →
        IfOk result (λ _. HasRoom pool.new spare later) }
    ensures added { AddsTable pool.old pool.new (classes_named frames.now.at) }
{
    if frames.at.len() == 0 {
        return Ok(List::new(alloc));
    }
    let name = pool.utf8(b"StackMapTable")?;
    let start = kinds_of(alloc, code.start.as_slice())?;
    let bytes = write_frames(alloc, frames, start.as_slice(), pool)?;
    let mut attributes = List::new(alloc);
    attributes.push(Attribute {
        name,
        bytes: List::wrap(bytes),
    })?;
    Ok(attributes)
}

/// The attributes of code whose labels stand at these offsets.
pub fn attributes_of(
    alloc: Global,
    code: &Labelled,
    offsets: &[u16],
    pool: &mut PoolBuilder,
) -> Result<List<Attribute>, NoMemory>
    requires placeable { AreFramesPlaceable code.now }
    requires few_locals { code.now.max_locals < 2 ^ 16 }
    requires few_operands { code.now.max_stack < 2 ^ 16 }
    requires labels { HasLabelOffsets code.now offsets.now }
    requires room { HasRoom pool.old (1 + SPARE) (frame_classes code.now) }
    ensures are { IfOk result (λ as'.
        AreAttributes pool.new code.now (frames_with (slice_index offsets.now) code.now) as') }
    ensures fit { IfOk result (λ as'. AreSized as' → AllFit (FitsAttribute pool.new) as') }
    ensures room { (spare : ℕ) (later : Items Name) →
        HasRoom pool.old (1 + spare) (frame_classes code.now ++ later) →
        IfOk result (λ _. HasRoom pool.new spare later) }
    ensures added { AddsTable pool.old pool.new (frame_classes code.now) }
{
    let at = frames_at(alloc, code, offsets)?;
    let frames = MethodFrames { at };
    let table = table_of(alloc, code, &frames, pool);
    drop(frames);
    table
}
