//! The attribute of a method's frames.

ghost use Rattle.std.specs.Prelude.{ℕ, ◌++◌, IfOk};
ghost use Rattle.std.specs.Prelude.{List as Items};
ghost use Rattle.std.specs.List.{All};
ghost use Rattle.par_kinds.specs.par_values.Areas.{Name};
ghost use Rattle.par_frames.specs.Names.{classes_named};
ghost use Rattle.par_frames.specs.Room.{HasRoom, IsShort, Ascend, offsets, SPARE};
ghost use Rattle.par_frames.specs.Attribute.{IsAttribute, AddsClasses};

use crate::arguments::list_start;
use crate::forms::put_frames;
use crate::pool_classes::place_frames;
use par_base::memory::NoMemory;
use par_frame_forms::par_pool::PoolBuilder;
use par_frame_forms::par_pool::writer::put_u2;
use par_kinds::frame::{MethodFrames, VKind};
use std::alloc::Global;

/// The bytes of the attribute of a method's frames, where `start` lists the receiver and the
/// arguments. Behind a refusal the pool may have some of the classes that the frames name.
pub fn write_frames(
    alloc: Global,
    frames: &MethodFrames,
    start: &[VKind],
    pool: &mut PoolBuilder,
) -> Result<Vec<u8>, NoMemory>
    requires ascend { Ascend 0 (offsets frames.now.at) }
    requires short { All IsShort frames.now.at }
    requires room { HasRoom pool.old SPARE (classes_named frames.now.at) }
    ensures attribute { IfOk result (λ bytes.
        IsAttribute pool.new start.now frames.now.at bytes.items) }
    ensures room { (spare : ℕ) (later : Items Name) →
        HasRoom pool.old spare (classes_named frames.now.at ++ later) →
        IfOk result (λ _. HasRoom pool.new spare later) }
    ensures added { AddsClasses pool.old pool.new (classes_named frames.now.at) }
{
    let placed = place_frames(alloc, frames.at.as_slice(), pool)?;
    let listed = list_start(alloc, start, frames.at.as_slice(), placed.as_slice())?;
    let mut out = Vec::new(alloc);
    put_u2(&mut out, placed.len() as u16)?;
    put_frames(&mut out, 0, listed.as_slice(), placed.as_slice())?;
    Ok(out)
}
