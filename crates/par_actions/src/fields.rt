//! Instructions on static fields.

ghost use Rattle.std.specs.Prelude.{◌≡◌, List, slice_get, IsTrue};
ghost use Rattle.par_values.specs.Areas.{Name, Areas, value_or_null};
ghost use Rattle.par_values.specs.declared.link.FieldLink.{FieldLink};
ghost use Rattle.par_values.specs.Operations.{GetStatic, PutStatic};
ghost use Rattle.par_values.specs.Reasons.{Spot};
ghost use Rattle.par_stack.specs.Frames.{running};
ghost use Rattle.par_actions.specs.Done.{IsAt, areas_in, Comes, ComesTo, Keeps, is_still};
ghost use Rattle.par_actions.specs.Fields.{IsField, with_statics};

use crate::done::Done;
use crate::fit::{Fit, accepts};
use par_heap::Statics;
use par_stack::Stack;
use par_values::value::MVal;

/// A field, by numbers.
#[derive(Clone, Copy, PartialEq, Eq)]
pub struct Field {
    pub is_static: bool,
    pub fit: Fit,
    /// Its place among the static fields of all classes, or among those of an object.
    pub place: u32,
}

/// What a static field holds.
fn held(statics: &Statics, place: u32) -> MVal
    ensures { result ≡ value_or_null (slice_get statics.now place) }
{
    match statics.get(place) {
        Some(value) => value,
        None => MVal::Null,
    }
}

/// Pushes what a static field holds.
#[inline(always)]
pub fn get_static(stack: &mut Stack, statics: &Statics, field: Field, ahead: bool) -> Done
    ensures done { (classes : List Name) (spot : Spot) (program : Areas) (f : FieldLink) →
        IsField classes f field → program.statics ≡ statics.now → IsAt spot ahead stack.old →
        Comes result classes spot (GetStatic f) program stack.old stack.new }
    ensures kept { Keeps stack.old stack.new }
    ensures still { IsTrue (is_still result) → stack.new ≡ stack.old }
{
    if stack.free() == 0 {
        return Done::Bad(3);
    }
    if !ahead {
        return Done::Bad(5);
    }
    if !field.is_static {
        return Done::Bad(7);
    }
    stack.push(held(statics, field.place));
    Done::Goes
}

/// Pops a value into a static field.
pub fn put_static(stack: &mut Stack, statics: &mut Statics, field: Field, ahead: bool) -> Done
    ensures done { (classes : List Name) (spot : Spot) (program : Areas) (f : FieldLink) →
        IsField classes f field → program.statics ≡ statics.old → IsAt spot ahead stack.old →
        ComesTo result classes spot (PutStatic f) (areas_in program (running stack.old))
        (areas_in (with_statics statics.new program) (running stack.new)) }
    ensures kept { Keeps stack.old stack.new }
    ensures still { IsTrue (is_still result) → stack.new ≡ stack.old }
    ensures unset { IsTrue (is_still result) → statics.new ≡ statics.old }
{
    let value = match stack.operand(0) {
        None => return Done::Bad(1),
        Some(value) => value,
    };
    if !accepts(field.fit, value) {
        return Done::Bad(2);
    }
    if !ahead {
        return Done::Bad(5);
    }
    if !field.is_static {
        return Done::Bad(7);
    }
    stack.pop(1);
    statics.set(field.place, value);
    Done::Sets(value)
}
