//! Where each label stands.

ghost use Rattle.std.specs.Prelude.{◌≡◌, ◌≢◌, ℕ, ◌≤◌, Some, length, slice_get, All, sum_by};
ghost use Rattle.std.specs.Prelude.{IfOk, OnOk};
ghost use Rattle.par_place.specs.Offsets.{HasOffsets, AreSmall, Marks};
ghost use Rattle.par_code_form.specs.Placeable.{FitsItem, most_bytes, MOST_BYTES};

use crate::instruction::size;
use par_base::memory::NoMemory;
use par_code_form::Item;
use std::alloc::Global;

/// Marks where a label stands.
fn mark(offsets: &mut Vec<u16>, label: u32, at: u16) -> Result<(), NoMemory>
    requires at { at ≤ MOST_BYTES }
    requires small { AreSmall offsets.old.items }
    ensures marked { OnOk result (slice_get offsets.new.items label ≡ Some at) }
    ensures kept { OnOk result ((l o : ℕ) → l ≢ label →
        slice_get offsets.old.items l ≡ Some o → slice_get offsets.new.items l ≡ Some o) }
    ensures small { OnOk result (AreSmall offsets.new.items) }
{
    let place = label as usize;
    if offsets.len() <= place {
        offsets.resize(place + 1, 0)?;
    }
    offsets[place] = at;
    Ok(())
}

/// Marks where an item stands, if it is a label.
fn mark_item(offsets: &mut Vec<u16>, item: &Item, at: u16) -> Result<(), NoMemory>
    requires at { at ≤ MOST_BYTES }
    requires small { AreSmall offsets.old.items }
    ensures marked { OnOk result (Marks at item.now offsets.old.items offsets.new.items) }
    ensures small { OnOk result (AreSmall offsets.new.items) }
{
    match item {
        Item::Label(label) => mark(offsets, *label, at),
        _ => Ok(()),
    }
}

/// The offset of each label, by its number. A number that no label has may have any offset.
pub fn label_offsets(alloc: Global, items: &[Item], indices: &[u16]) -> Result<Vec<u16>, NoMemory>
    requires fits { All FitsItem items.now }
    requires same { length items.now ≡ length indices.now }
    requires short { sum_by most_bytes items.now ≤ MOST_BYTES }
    ensures offsets { IfOk result (λ offsets. HasOffsets items.now indices.now offsets.items) }
    ensures small { IfOk result (λ offsets. AreSmall offsets.items) }
{
    let mut offsets = Vec::new(alloc);
    let mut at = 0;
    for (i, item) in items.iter().enumerate() {
        mark_item(&mut offsets, item, at)?;
        at += size(item, indices[i]) as u16;
    }
    Ok(offsets)
}
