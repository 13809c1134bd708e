//! The kinds of what slots hold.

ghost use Rattle.std.specs.Prelude.{◌≡◌, IfOk};
ghost use Rattle.par_compile_laws.specs.Framed as spec;

use par_base::list::List;
use par_base::memory::NoMemory;
use par_code_form::{LabelFrame, Slot};
use par_kinds::frame::{Frame, PlacedFrame, VKind};
use std::alloc::Global;

fn kind_of(alloc: Global, slot: &Slot) -> Result<VKind, NoMemory>
    ensures { IfOk result (λ kind. kind ≡ spec.kind_of slot.now) }
{
    match slot {
        Slot::Unset => Ok(VKind::Top),
        Slot::Int => Ok(VKind::Int),
        Slot::Null => Ok(VKind::Null),
        Slot::Class(class) => Ok(VKind::Object(class.copy(alloc)?)),
    }
}

/// The kinds of slots, in their order.
pub fn kinds_of(alloc: Global, slots: &[Slot]) -> Result<List<VKind>, NoMemory>
    ensures { IfOk result (λ kinds. kinds ≡ spec.kinds_of slots.now) }
{
    let mut kinds = List::new(alloc);
    for slot in slots {
        kinds.push(kind_of(alloc, slot)?)?;
    }
    Ok(kinds)
}

/// A frame at the offset of its label.
pub fn placed(alloc: Global, at: u16, frame: &LabelFrame) -> Result<PlacedFrame, NoMemory>
    ensures { IfOk result (λ f. f ≡ spec.placed at frame.now) }
{
    let locals = kinds_of(alloc, frame.locals.as_slice())?;
    let stack = kinds_of(alloc, frame.stack.as_slice())?;
    Ok(PlacedFrame {
        offset: at as u32,
        frame: Frame { locals, stack },
    })
}
