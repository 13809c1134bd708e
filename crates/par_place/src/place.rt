//! Labelled code in a class file.

ghost use Rattle.std.specs.Prelude.{◌≡◌, ◌+◌, ◌^◌, ◌<◌, [], length, IfOk};
ghost use Rattle.par_pool.specs.Growth.{Adds};
ghost use Rattle.par_class.specs.Spelling.{FitsCode};
ghost use Rattle.par_code_form.specs.PoolNames.{IsConstantOf, entry_count};
ghost use Rattle.par_code_form.specs.Placed.{IsPlaced};
ghost use Rattle.par_code_form.specs.Placeable.{IsPlaceable};
ghost use Rattle.par_place.specs.Labels.{IsPlacedAt};

use crate::code_bytes::write;
use crate::handlers::catches_of;
use crate::named::indices_of;
use crate::offsets::label_offsets;
use par_base::list::List;
use par_base::memory::NoMemory;
use par_class::{Catch, CodeAttr};
use par_code_form::Labelled;
use par_pool::PoolBuilder;
use std::alloc::Global;

/// An attribute of these parts, which has no attributes of its own.
fn attribute(
    alloc: Global,
    max_stack: u16,
    max_locals: u16,
    bytes: Vec<u8>,
    catches: List<Catch>,
) -> CodeAttr
    ensures bytes { result.code ≡ bytes.items }
    ensures catches { result.catches ≡ catches }
    ensures max_stack { result.max_stack ≡ max_stack }
    ensures max_locals { result.max_locals ≡ max_locals }
    ensures attributes { result.attributes ≡ [] }
    ensures few_operands { result.max_stack < 2 ^ 16 }
    ensures few_locals { result.max_locals < 2 ^ 16 }
{
    CodeAttr {
        max_stack,
        max_locals,
        code: List::wrap(bytes),
        catches,
        attributes: List::new(alloc),
    }
}

/// Placed code, and the offset of each label by its number.
#[derive(Drop)]
pub struct PlacedCode {
    pub attr: CodeAttr,
    pub offsets: Vec<u16>,
}

/// The code of a method, without frames, over the pool of its class file, and where its labels
/// stand. A number that no label has may have any offset.
///
/// After want of memory the pool may hold some of the constants that the code names.
pub fn place_labels(
    alloc: Global,
    code: &Labelled,
    pool: &mut PoolBuilder,
) -> Result<PlacedCode, NoMemory>
    requires placeable { IsPlaceable code.now }
    requires room { length pool.old + entry_count code.now < 65535 }
    ensures placed { IfOk result (λ placed.
        IsPlacedAt pool.new code.now placed.attr placed.offsets.items) }
    ensures fits { IfOk result (λ placed. FitsCode pool.new placed.attr) }
    ensures added { Adds pool.old pool.new (entry_count code.now)
        (IsConstantOf pool.new code.now) }
{
    let items = code.items.as_slice();
    let indices = indices_of(alloc, items, pool)?;
    let offsets = label_offsets(alloc, items, &indices)?;
    let bytes = write(alloc, items, &indices, &offsets)?;
    let catches = catches_of(alloc, code.handlers.as_slice(), &offsets, pool)?;
    let attr = attribute(alloc, code.max_stack, code.max_locals, bytes, catches);
    Ok(PlacedCode { attr, offsets })
}

/// The code of a method, without frames, over the pool of its class file.
///
/// After want of memory the pool may hold some of the constants that the code names.
pub fn place_code(
    alloc: Global,
    code: &Labelled,
    pool: &mut PoolBuilder,
) -> Result<CodeAttr, NoMemory>
    requires placeable { IsPlaceable code.now }
    requires room { length pool.old + entry_count code.now < 65535 }
    ensures placed { IfOk result (λ attr. IsPlaced pool.new code.now attr) }
    ensures fits { IfOk result (λ attr. FitsCode pool.new attr) }
    ensures added { Adds pool.old pool.new (entry_count code.now)
        (IsConstantOf pool.new code.now) }
{
    let placed = place_labels(alloc, code, pool)?;
    Ok(placed.attr)
}
