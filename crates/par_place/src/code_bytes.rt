//! The bytes of code.

ghost use Rattle.std.specs.Prelude.{◌≡◌, ◌≤◌, ◌++◌, length, All, sum_by, slice_index, IfOk, OnOk};
ghost use Rattle.std.specs.Prelude.{IfSome, IsTrue};
ghost use Rattle.std.specs.List.{flat_map, AllByRecursion};
ghost use Rattle.par_instr.specs.Spelling.{has_spelling};
ghost use Rattle.par_place.specs.Offsets.{AreSmall, HasOffset};
ghost use Rattle.par_code_form.specs.Placed as spec;
ghost use Rattle.par_code_form.specs.Placed.{bytes_of, instructions, IsWritable};
ghost use Rattle.par_code_form.specs.Placeable.{FitsItem, most_bytes, MOST_BYTES};

use crate::instruction::instruction;
use par_base::memory::NoMemory;
use par_code_form::Item;
use par_instr::{Instr, encode};
use std::alloc::Global;

/// How far an item branches that stands at this offset.
fn distance(item: &Item, at: u16, offsets: &[u16]) -> i16
    requires target { HasOffset offsets.now item.now }
    requires small { AreSmall offsets.now }
    requires at { at ≤ MOST_BYTES }
    ensures { result ≡ spec.distance (slice_index offsets.now) at item.now }
{
    match item {
        Item::Jump(_, label) => offsets[*label as usize] as i16 - at as i16,
        _ => 0,
    }
}

/// The bytes of an instruction, where there is one.
fn append(code: &mut Vec<u8>, instr: Option<Instr>) -> Result<(), NoMemory>
    requires { IfSome instr (λ i. IsTrue (has_spelling i)) }
    ensures code { OnOk result (code.new.items ≡ code.old.items ++ bytes_of instr) }
    ensures writable { OnOk result (IsWritable instr) }
{
    let Some(instr) = instr else {
        return Ok(());
    };
    let Ok(()) = encode(&instr, code) else {
        return Err(NoMemory);
    };
    Ok(())
}

/// The bytes of items, by the indices of what they name and the offsets of labels.
pub fn write(
    alloc: Global,
    items: &[Item],
    indices: &[u16],
    offsets: &[u16],
) -> Result<Vec<u8>, NoMemory>
    requires fits { All FitsItem items.now }
    requires targets { All (HasOffset offsets.now) items.now }
    requires same { length items.now ≡ length indices.now }
    requires short { sum_by most_bytes items.now ≤ MOST_BYTES }
    requires small { AreSmall offsets.now }
    ensures bytes { IfOk result (λ code. code.items
        ≡ flat_map bytes_of (instructions (slice_index offsets.now) 0 items.now indices.now)) }
    ensures short { IfOk result (λ code. length code.items ≤ MOST_BYTES) }
    ensures writable { OnOk result (AllByRecursion IsWritable
        (instructions (slice_index offsets.now) 0 items.now indices.now)) }
{
    let mut code = Vec::new(alloc);
    for (i, item) in items.iter().enumerate() {
        let to = distance(item, code.len() as u16, offsets);
        append(&mut code, instruction(item, indices[i], to))?;
    }
    Ok(code)
}
