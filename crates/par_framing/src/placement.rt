//! Labelled code in a class file.

ghost use Rattle.std.specs.Prelude.{ℕ, ◌+◌, ◌++◌, IfOk, IsTrue};
ghost use Rattle.std.specs.Prelude.{List as Items};
ghost use Rattle.par_values.specs.Areas.{Name};
ghost use Rattle.par_class.specs.Spelling.{FitsCode};
ghost use Rattle.par_frames.specs.Room.{HasRoom};
ghost use Rattle.par_place.specs.par_code_form.Placeable.{IsPlaceable};
ghost use Rattle.par_place.specs.par_code_form.PlaceableFrames.{AreFramesPlaceable};
ghost use Rattle.par_compile_laws.specs.Framed.{IsPlacedWith, classes_with};
ghost use Rattle.par_compile_laws.specs.Framed.{entries_with};
ghost use Rattle.par_framing.specs.Added.{AddsConstants, AreSized, spare_with};

use crate::attribute::attributes_of;
use par_base::memory::NoMemory;
use par_class::CodeAttr;
use par_code_form::Labelled;
use par_place::{PlacedCode, place_labels};
use par_pool::PoolBuilder;
use std::alloc::Global;

/// The code of a method over the pool of its class file, with its frames or without them.
///
/// After want of memory the pool may hold some of the constants that the code names.
pub fn place(
    alloc: Global,
    code: &Labelled,
    pool: &mut PoolBuilder,
    frames: bool,
) -> Result<CodeAttr, NoMemory>
    requires placeable { IsPlaceable code.now }
    requires frames { IsTrue frames → AreFramesPlaceable code.now }
    requires room { HasRoom pool.old (entries_with frames code.now + spare_with frames)
        (classes_with frames code.now) }
    ensures placed { IfOk result (λ attr. IsPlacedWith frames pool.new code.now attr) }
    ensures fits { IfOk result (λ attr. AreSized attr.attributes → FitsCode pool.new attr) }
    ensures room { (spare : ℕ) (later : Items Name) →
        HasRoom pool.old (entries_with frames code.now + spare)
        (classes_with frames code.now ++ later) →
        IfOk result (λ _. HasRoom pool.new spare later) }
    ensures added { AddsConstants frames pool.old pool.new code.now }
{
    let PlacedCode { mut attr, offsets } = place_labels(alloc, code, pool)?;
    if !frames {
        return Ok(attr);
    }
    let attributes = attributes_of(alloc, code, &offsets, pool)?;
    attr.attributes = attributes;
    Ok(attr)
}
