//! Instructions on the fields of objects.

ghost use Rattle.std.specs.Prelude.{◌≡◌, ◌<◌, ◌^◌, List, true, false, if◌then◌else◌, IsTrue};
ghost use Rattle.par_values.specs.Areas.{Name, Areas, value_or_null, fits};
ghost use Rattle.par_values.specs.declared.kind.Kind.TheVariants.{Object};
ghost use Rattle.par_values.specs.declared.link.FieldLink.{FieldLink};
ghost use Rattle.par_values.specs.declared.value.MVal.TheVariants as variant;
ghost use Rattle.par_values.specs.Operations.{GetField};
ghost use Rattle.par_values.specs.Reasons.{Spot};
ghost use Rattle.par_stack.specs.Frames.{running};
ghost use Rattle.par_heap.specs.Heap.{field_at};
ghost use Rattle.par_actions.specs.Done.{IsAt, Comes, Keeps, is_still};
ghost use Rattle.par_actions.specs.Fields.{IsField};
ghost use Rattle.par_actions.specs.Fits.{Takes};
ghost use Rattle.par_actions.specs.Last.{AreLast, IsLast};
ghost use Rattle.par_actions.specs.Objects.{AreShown, Writes};

use crate::done::Done;
use crate::fields::Field;
use crate::fit::{Fit, accepts};
use par_heap::Heap;
use par_stack::Stack;
use par_values::value::MVal;

/// An object.
#[derive(Clone, Copy)]
pub(crate) struct Instance {
    pub(crate) class: u16,
    pub(crate) n: u32,
}

/// What a field of an object holds, null where there is no such object or field.
#[inline(always)]
fn held(heap: &Heap, class: u16, n: u32, place: u16) -> MVal
    ensures { result ≡ value_or_null (field_at heap.now class n place) }
{
    match heap.get(class, n, place) {
        Some(value) => value,
        None => MVal::Null,
    }
}

/// The reason against an instruction on the field of an object.
fn static_reason(field: Field) -> Option<u8>
    ensures { result ≡ (if field.is_static then Some 7 else None) }
{
    if field.is_static { Some(7) } else { None }
}

/// Pushes what a field of an object holds, which was pushed last, in place of the object.
#[inline(always)]
fn read(stack: &mut Stack, heap: &Heap, class: u16, n: u32, field: Field, ahead: bool) -> Done
    requires last { IsLast (variant.Ref class n) (running stack.old).operands }
    requires small { field.is_static ≡ false → field.place < 2 ^ 16 }
    ensures done { (classes : List Name) (spot : Spot) (program : Areas) (f : FieldLink) →
        IsField classes f field → fits classes (Object f.class) (variant.Ref class n) ≡ true →
        AreShown heap.now program → IsAt spot ahead stack.old →
        Comes result classes spot (GetField f) program stack.old stack.new }
    ensures kept { Keeps stack.old stack.new }
    ensures still { IsTrue (is_still result) → stack.new ≡ stack.old }
{
    if !ahead {
        return Done::Bad(5);
    }
    if field.is_static {
        return Done::Bad(7);
    }
    stack.replace(1, held(heap, class, n, field.place as u16));
    Done::Goes
}

/// Pushes what a field holds of the object that was pushed last, in place of the object, where the
/// owner says of which objects the field is.
#[inline(always)]
pub fn get_field(stack: &mut Stack, heap: &Heap, owner: Fit, field: Field, ahead: bool) -> Done
    requires { field.is_static ≡ false → field.place < 2 ^ 16 }
    ensures done { (classes : List Name) (spot : Spot) (program : Areas) (f : FieldLink) →
        IsField classes f field → Takes classes (Object f.class) owner →
        AreShown heap.now program → IsAt spot ahead stack.old →
        Comes result classes spot (GetField f) program stack.old stack.new }
    ensures kept { Keeps stack.old stack.new }
    ensures still { IsTrue (is_still result) → stack.new ≡ stack.old }
{
    let value = match stack.operand(0) {
        None => return Done::Bad(1),
        Some(value) => value,
    };
    if !accepts(owner, value) {
        return Done::Bad(2);
    }
    match value {
        MVal::Int(_) => Done::ThrowsNull(static_reason(field)),
        MVal::Null => Done::ThrowsNull(static_reason(field)),
        MVal::Ref(class, n) => read(stack, heap, class, n, field, ahead),
    }
}

/// Takes an object and a value, which were pushed last, and writes the value to a field of the
/// object.
fn write(
    stack: &mut Stack,
    heap: &mut Heap,
    object: Instance,
    field: Field,
    value: MVal,
    ahead: bool,
) -> Done
    requires last { AreLast (variant.Ref object.class object.n) value (running stack.old).operands }
    requires small { field.is_static ≡ false → field.place < 2 ^ 16 }
    ensures done { (classes : List Name) (spot : Spot) (program : Areas) (f : FieldLink) →
        IsField classes f field → fits classes f.kind value ≡ true →
        fits classes (Object f.class) (variant.Ref object.class object.n) ≡ true →
        AreShown heap.old program → IsAt spot ahead stack.old →
        Writes result classes spot f program stack.old stack.new heap.new }
    ensures kept { Keeps stack.old stack.new }
    ensures still { IsTrue (is_still result) → stack.new ≡ stack.old }
    ensures unwritten { IsTrue (is_still result) → heap.new ≡ heap.old }
{
    if !ahead {
        return Done::Bad(5);
    }
    if field.is_static {
        return Done::Bad(7);
    }
    stack.pop(2);
    heap.set(object.class, object.n, field.place as u16, value);
    Done::Puts(object.n, value)
}

/// Pops a value and an object, and writes the value to a field of the object, where the owner says
/// of which objects the field is.
pub fn put_field(stack: &mut Stack, heap: &mut Heap, owner: Fit, field: Field, ahead: bool) -> Done
    requires { field.is_static ≡ false → field.place < 2 ^ 16 }
    ensures done { (classes : List Name) (spot : Spot) (program : Areas) (f : FieldLink) →
        IsField classes f field → Takes classes (Object f.class) owner →
        AreShown heap.old program → IsAt spot ahead stack.old →
        Writes result classes spot f program stack.old stack.new heap.new }
    ensures kept { Keeps stack.old stack.new }
    ensures still { IsTrue (is_still result) → stack.new ≡ stack.old }
    ensures unwritten { IsTrue (is_still result) → heap.new ≡ heap.old }
{
    let value = match stack.operand(0) {
        None => return Done::Bad(1),
        Some(value) => value,
    };
    let object = match stack.operand(1) {
        None => return Done::Bad(1),
        Some(object) => object,
    };
    let right = accepts(field.fit, value);
    if !right {
        return Done::Bad(2);
    }
    let owned = accepts(owner, object);
    if !owned {
        return Done::Bad(2);
    }
    match object {
        MVal::Int(_) => Done::ThrowsNull(static_reason(field)),
        MVal::Null => Done::ThrowsNull(static_reason(field)),
        MVal::Ref(class, n) => write(stack, heap, Instance { class, n }, field, value, ahead),
    }
}
