//! Values that are pushed, popped and kept: numbers, null and locals.

ghost use Rattle.std.specs.Prelude.{◌≡◌, List, not, true, IsTrue};
ghost use Rattle.par_values.specs.Areas.{Name, Areas, fits};
ghost use Rattle.par_values.specs.declared.kind.Kind.{Kind};
ghost use Rattle.par_values.specs.declared.kind.Kind.TheVariants as kind;
ghost use Rattle.par_values.specs.Operations.{Push, PushNull, Load, Store, Discard, Copy};
ghost use Rattle.par_values.specs.Reasons.{Spot};
ghost use Rattle.par_stack.specs.Frames.{running};
ghost use Rattle.par_actions.specs.Done.{IsAt, Comes, Keeps, is_still};
ghost use Rattle.par_actions.specs.Last.{IsLast};

use crate::done::Done;
use crate::operands::{Number, Reference, is_int, last_number, last_reference};
use par_stack::Stack;
use par_values::value::MVal;

/// Pushes a number.
#[tactic(auto, using(crate::proofs::Reasons::push), unfolding(par_values::specs::Effects::effect))]
pub fn push_number(stack: &mut Stack, number: i32, ahead: bool) -> Done
    ensures done { (classes : List Name) (spot : Spot) (program : Areas) →
        IsAt spot ahead stack.old →
        Comes result classes spot (Push number) program stack.old stack.new }
    ensures kept { Keeps stack.old stack.new }
    ensures still { IsTrue (is_still result) → stack.new ≡ stack.old }
{
    if stack.free() == 0 {
        return Done::Bad(3);
    }
    if !ahead {
        return Done::Bad(5);
    }
    stack.push(MVal::Int(number));
    Done::Goes
}

/// Pushes null.
#[tactic(auto, using(crate::proofs::Reasons::push), unfolding(par_values::specs::Effects::effect))]
pub fn push_null(stack: &mut Stack, ahead: bool) -> Done
    ensures done { (classes : List Name) (spot : Spot) (program : Areas) →
        IsAt spot ahead stack.old →
        Comes result classes spot PushNull program stack.old stack.new }
    ensures kept { Keeps stack.old stack.new }
    ensures still { IsTrue (is_still result) → stack.new ≡ stack.old }
{
    if stack.free() == 0 {
        return Done::Bad(3);
    }
    if !ahead {
        return Done::Bad(5);
    }
    stack.push(MVal::Null);
    Done::Goes
}

/// Pushes a local that holds a number.
#[tactic(auto, using(crate::proofs::Reasons::load), unfolding(par_values::specs::Effects::effect))]
pub fn load_number(stack: &mut Stack, place: u8, ahead: bool) -> Done
    ensures done { (classes : List Name) (spot : Spot) (program : Areas) →
        IsAt spot ahead stack.old →
        Comes result classes spot (Load place kind.Number) program stack.old stack.new }
    ensures kept { Keeps stack.old stack.new }
    ensures still { IsTrue (is_still result) → stack.new ≡ stack.old }
{
    if stack.free() == 0 {
        return Done::Bad(3);
    }
    let Some(MVal::Int(number)) = stack.local(place as u16) else {
        return Done::Bad(4);
    };
    if !ahead {
        return Done::Bad(5);
    }
    stack.push(MVal::Int(number));
    Done::Goes
}

/// Pushes a local that holds a reference.
#[tactic(auto, using(crate::proofs::Reasons::load), unfolding(par_values::specs::Effects::effect))]
pub fn load_object(stack: &mut Stack, place: u8, ahead: bool) -> Done
    ensures done { (classes : List Name) (spot : Spot) (program : Areas) →
        IsAt spot ahead stack.old →
        Comes result classes spot (Load place kind.AnyObject) program stack.old stack.new }
    ensures kept { Keeps stack.old stack.new }
    ensures still { IsTrue (is_still result) → stack.new ≡ stack.old }
{
    if stack.free() == 0 {
        return Done::Bad(3);
    }
    let Some(value) = stack.local(place as u16) else {
        return Done::Bad(4);
    };
    if is_int(value) {
        return Done::Bad(4);
    }
    if !ahead {
        return Done::Bad(5);
    }
    stack.push(value);
    Done::Goes
}

/// Takes the operand that was pushed last, which is of this kind, into a local.
fn store(stack: &mut Stack, place: u8, value: MVal, ahead: bool) -> Done
    requires { IsLast value (running stack.old).operands }
    ensures done { (classes : List Name) (spot : Spot) (program : Areas) (kind : Kind) →
        fits classes kind value ≡ true → IsAt spot ahead stack.old →
        Comes result classes spot (Store place kind) program stack.old stack.new }
    ensures kept { Keeps stack.old stack.new }
    ensures still { IsTrue (is_still result) → stack.new ≡ stack.old }
{
    if place as usize >= stack.locals() {
        return Done::Bad(4);
    }
    if !ahead {
        return Done::Bad(5);
    }
    stack.set_local(place as u16, value);
    stack.pop(1);
    Done::Goes
}

/// Pops a number into a local.
#[tactic(auto, using(crate::proofs::Keeping::storing))]
pub fn store_number(stack: &mut Stack, place: u8, ahead: bool) -> Done
    ensures done { (classes : List Name) (spot : Spot) (program : Areas) →
        IsAt spot ahead stack.old →
        Comes result classes spot (Store place kind.Number) program stack.old stack.new }
    ensures kept { Keeps stack.old stack.new }
    ensures still { IsTrue (is_still result) → stack.new ≡ stack.old }
{
    match last_number(stack) {
        Number::Missing => Done::Bad(1),
        Number::Unfit => Done::Bad(2),
        Number::Is(number) => store(stack, place, MVal::Int(number), ahead),
    }
}

/// Pops a reference into a local.
#[tactic(auto, using(crate::proofs::Keeping::storing))]
pub fn store_object(stack: &mut Stack, place: u8, ahead: bool) -> Done
    ensures done { (classes : List Name) (spot : Spot) (program : Areas) →
        IsAt spot ahead stack.old →
        Comes result classes spot (Store place kind.AnyObject) program stack.old stack.new }
    ensures kept { Keeps stack.old stack.new }
    ensures still { IsTrue (is_still result) → stack.new ≡ stack.old }
{
    match last_reference(stack) {
        Reference::Missing => Done::Bad(1),
        Reference::Unfit => Done::Bad(2),
        Reference::Is(value) => store(stack, place, value, ahead),
    }
}

/// Pops a value.
#[tactic(auto, using(crate::proofs::Keeping::discarding))]
pub fn discard(stack: &mut Stack, ahead: bool) -> Done
    ensures done { (classes : List Name) (spot : Spot) (program : Areas) →
        IsAt spot ahead stack.old → Comes result classes spot Discard program stack.old stack.new }
    ensures kept { Keeps stack.old stack.new }
    ensures still { IsTrue (is_still result) → stack.new ≡ stack.old }
{
    if stack.count() == 0 {
        return Done::Bad(1);
    }
    if !ahead {
        return Done::Bad(5);
    }
    stack.pop(1);
    Done::Goes
}

/// Pushes the value that was pushed last once more.
#[tactic(auto, using(crate::proofs::Keeping::copying))]
pub fn copy(stack: &mut Stack, ahead: bool) -> Done
    ensures done { (classes : List Name) (spot : Spot) (program : Areas) →
        IsAt spot ahead stack.old → Comes result classes spot Copy program stack.old stack.new }
    ensures kept { Keeps stack.old stack.new }
    ensures still { IsTrue (is_still result) → stack.new ≡ stack.old }
{
    let Some(value) = stack.operand(0) else {
        return Done::Bad(1);
    };
    if stack.free() == 0 {
        return Done::Bad(3);
    }
    if !ahead {
        return Done::Bad(5);
    }
    stack.push(value);
    Done::Goes
}
