//! Calls of methods: those of code, and channels.

ghost use Rattle.std.specs.Prelude.{◌≡◌, ◌≤◌, ◌<◌, ◌+◌, ◌-◌, Bool, true, false, if◌then◌else◌, not};
ghost use Rattle.std.specs.Prelude.{◌&&◌, ℕ, nat_lt, slice_get, List, length, reverse, IfOk, OnErr};
ghost use Rattle.std.specs.Prelude.{IsTrue, Option};
ghost use Rattle.par_values.specs.declared.value.MVal.TheVariants.{Null as null};
ghost use Rattle.par_values.specs.declared.link.MethodLink.{MethodLink};
ghost use Rattle.par_values.specs.Areas.{Name, Areas, operand, number_of, value_or_null};
ghost use Rattle.par_values.specs.Operations.{Operation, InvokeStatic, InvokeSpecial};
ghost use Rattle.par_values.specs.Operations.{InvokeVirtual};
ghost use Rattle.par_values.specs.Effects.{called};
ghost use Rattle.par_values.specs.Reasons.{Spot};
ghost use Rattle.par_stack.specs.Frames.{running, waiting};
ghost use Rattle.par_actions.specs.declared.callee.Target.TheVariants.{Input as input};
ghost use Rattle.par_actions.specs.declared.done.Done.TheVariants.{Calls as calls};
ghost use Rattle.par_actions.specs.Callee.{IsCallee, IsTarget, accept_all, is_short, GivesInput};
ghost use Rattle.par_actions.specs.Calls.{call_on, is_misreceived, acting, Invokes, Invoked};
ghost use Rattle.par_actions.specs.Done.{IsAt, areas_in, target_of, Keeps, is_still};
ghost use Rattle.par_actions.specs.Leaving.{KnowsExceptions};
ghost use Rattle.par_lines.specs.Lines.{channels_of, AreLeft};

use crate::callee::{Callee, Target};
use crate::departures::is_exception;
use crate::done::Done;
use crate::fit::{Fit, accepts};
use par_base::memory::NoMemory;
use par_lines::Lines;
use par_stack::{Point, Stack};
use par_values::value::MVal;

/// Whether the operands that were pushed last are as the arguments of a method have to be.
fn are_taken(stack: &Stack, takes: &[Fit]) -> bool
    ensures { result ≡ accept_all (reverse takes.now) (running stack.now).operands }
{
    for after in 0..takes.len() {
        let fit = takes[takes.len() - 1 - after];
        let Some(value) = stack.operand(after) else {
            return true;
        };
        if !accepts(fit, value) {
            return false;
        }
    }
    true
}

/// Whether the result of a method would exceed the room for operands, where it takes so many.
fn exceeds(stack: &Stack, many: usize, gives: bool) -> bool
    requires { many ≤ length (running stack.now).operands }
    ensures { result ≡ nat_lt (length (running stack.now).operands + (running stack.now).free)
        (length (running stack.now).operands - many + (if gives then 1 else 0)) }
{
    gives && many == 0 && stack.free() == 0
}

/// Whether a method has fewer locals than it is given arguments.
fn is_short(target: Target, arguments: usize) -> bool
    ensures { result ≡ is_short target arguments }
{
    match target {
        Target::Code { locals, .. } => (locals as usize) < arguments,
        _ => false,
    }
}

/// The number that was pushed last, 0 where none was.
fn last_or_zero(stack: &Stack) -> i32
    ensures { result ≡ number_of (value_or_null (slice_get (running stack.now).operands 0)) }
{
    match stack.operand(0) {
        Some(MVal::Int(number)) => number,
        _ => 0,
    }
}

/// Calls a method with the operands that were pushed last, so many.
fn call(stack: &mut Stack, lines: &mut Lines, target: Target, many: usize) -> Result<Done, NoMemory>
    requires given { many ≤ length (running stack.old).operands }
    requires placed { is_short target many ≡ false }
    requires roomy { (line : Option ℕ) → target ≡ input line → 0 < many + (running stack.old).free }
    ensures done { IfOk result (λ done.
        (classes : List Name) (spot : Spot) (program : Areas) (o : Operation) →
        IsTarget (channels_of lines.old) (target_of o) target → AreLeft lines.old program.inputs →
        Invokes done target classes o spot None
        (called many (target_of o) (areas_in program (running stack.old)))
        program stack.new lines.new) }
    ensures kept { IfOk result (λ done. Keeps stack.old (acting done stack.new)) }
    ensures waits { IfOk result (λ done. done ≡ calls → 0 < length (waiting stack.new)) }
    ensures named { channels_of lines.new ≡ channels_of lines.old }
    ensures moves { IfOk result (λ done. is_still done ≡ false) }
    ensures refused { OnErr result (stack.new ≡ stack.old) }
    ensures unread { OnErr result (lines.new ≡ lines.old) }
{
    match target {
        Target::Input(line) => {
            stack.pop(many);
            stack.push(MVal::Int(lines.next(line)));
            Ok(Done::Goes)
        }
        Target::Output => {
            let number = last_or_zero(stack);
            stack.pop(many);
            Ok(Done::Outs(number))
        }
        Target::Code {
            class,
            method,
            locals,
            room,
        } => {
            let point = Point {
                class,
                method,
                at: 0,
            };
            stack.enter(point, locals, room, many)?;
            Ok(Done::Calls)
        }
        Target::Nothing => {
            stack.pop(many);
            Ok(Done::Goes)
        }
    }
}

/// Calls a static method.
pub fn invoke_static(
    stack: &mut Stack,
    lines: &mut Lines,
    callee: Callee,
    ahead: bool,
) -> Result<Done, NoMemory>
    requires { GivesInput callee }
    ensures done { IfOk result (λ done.
        (classes : List Name) (spot : Spot) (program : Areas) (m : MethodLink) →
        IsCallee classes (channels_of lines.old) m callee.entry → AreLeft lines.old program.inputs →
        IsAt spot ahead stack.old →
        Invoked done callee.entry.target classes (InvokeStatic m) spot false program stack.old
        stack.new lines.new) }
    ensures kept { IfOk result (λ done. Keeps stack.old (acting done stack.new)) }
    ensures waits { IfOk result (λ done. done ≡ calls → 0 < length (waiting stack.new)) }
    ensures named { channels_of lines.new ≡ channels_of lines.old }
    ensures still { IfOk result (λ done. IsTrue (is_still done) → stack.new ≡ stack.old) }
    ensures untaken { IfOk result (λ done. IsTrue (is_still done) → lines.new ≡ lines.old) }
    ensures refused { OnErr result (stack.new ≡ stack.old) }
    ensures unread { OnErr result (lines.new ≡ lines.old) }
{
    let many = callee.takes.len();
    if stack.count() < many {
        return Ok(Done::Bad(1));
    }
    if !are_taken(stack, callee.takes) {
        return Ok(Done::Bad(2));
    }
    if exceeds(stack, many, callee.gives) {
        return Ok(Done::Bad(3));
    }
    if is_short(callee.target, many) {
        return Ok(Done::Bad(4));
    }
    if !ahead {
        return Ok(Done::Bad(5));
    }
    if !callee.is_static {
        return Ok(Done::Bad(7));
    }
    call(stack, lines, callee.target, many)
}

/// Whether a method that takes no object but one of an exception is given another.
fn is_misreceived(only_exceptions: bool, exceptions: &[bool], value: MVal) -> bool
    ensures { (spot : Spot) → KnowsExceptions spot exceptions.now →
        result ≡ is_misreceived only_exceptions spot.exceptions value }
{
    match value {
        MVal::Ref(class, _) => only_exceptions && !is_exception(exceptions, class),
        _ => false,
    }
}

fn is_null(value: MVal) -> bool
    ensures null { result ≡ true → value ≡ null }
    ensures object { result ≡ false → value ≡ null → ⊥ }
{
    matches!(value, MVal::Null)
}

/// The reason against a call on an object that comes of the method alone.
fn method_reason(callee: Callee, special: bool) -> Option<u8>
    ensures { result ≡ (if special && not callee.entry.is_initializer then Some 6
        else (if callee.entry.is_static then Some 7 else None)) }
{
    if special && !callee.is_initializer {
        Some(6)
    } else if callee.is_static {
        Some(7)
    } else {
        None
    }
}

/// The reason against a call that comes of a method and of its locals, where they are too few.
fn call_reason(short: bool, against: Option<u8>) -> Option<u8>
    ensures { result ≡ (if short then Some 4 else against) }
{
    if short { Some(4) } else { against }
}

/// Calls a method on an object.
fn invoke_on(
    stack: &mut Stack,
    lines: &mut Lines,
    callee: Callee,
    exceptions: &[bool],
    ahead: bool,
    special: bool,
) -> Result<Done, NoMemory>
    ensures done { IfOk result (λ done.
        (classes : List Name) (spot : Spot) (program : Areas) (m : MethodLink) →
        IsCallee classes (channels_of lines.old) m callee.entry → AreLeft lines.old program.inputs →
        KnowsExceptions spot exceptions.now → IsAt spot ahead stack.old →
        Invoked done callee.entry.target classes (call_on special m) spot
        (is_misreceived callee.entry.only_exceptions spot.exceptions
        (operand (length m.takes) (areas_in program (running stack.old))))
        program stack.old stack.new lines.new) }
    ensures kept { IfOk result (λ done. Keeps stack.old (acting done stack.new)) }
    ensures waits { IfOk result (λ done. done ≡ calls → 0 < length (waiting stack.new)) }
    ensures named { channels_of lines.new ≡ channels_of lines.old }
    ensures still { IfOk result (λ done. IsTrue (is_still done) → stack.new ≡ stack.old) }
    ensures untaken { IfOk result (λ done. IsTrue (is_still done) → lines.new ≡ lines.old) }
    ensures refused { OnErr result (stack.new ≡ stack.old) }
    ensures unread { OnErr result (lines.new ≡ lines.old) }
{
    let many = callee.takes.len();
    let Some(receiver) = stack.operand(many) else {
        return Ok(Done::Bad(1));
    };
    if !are_taken(stack, callee.takes) {
        return Ok(Done::Bad(2));
    }
    if !accepts(callee.receiver, receiver) {
        return Ok(Done::Bad(2));
    }
    if is_misreceived(callee.only_exceptions, exceptions, receiver) {
        return Ok(Done::Bad(2));
    }
    let short = is_short(callee.target, many + 1);
    let against = method_reason(callee, special);
    if is_null(receiver) {
        return Ok(Done::ThrowsNull(call_reason(short, against)));
    }
    if short {
        return Ok(Done::Bad(4));
    }
    if !ahead {
        return Ok(Done::Bad(5));
    }
    if let Some(reason) = against {
        return Ok(Done::Bad(reason));
    }
    call(stack, lines, callee.target, many + 1)
}

/// Calls an initializer on the object that was pushed before its arguments.
pub fn invoke_special(
    stack: &mut Stack,
    lines: &mut Lines,
    callee: Callee,
    exceptions: &[bool],
    ahead: bool,
) -> Result<Done, NoMemory>
    ensures done { IfOk result (λ done.
        (classes : List Name) (spot : Spot) (program : Areas) (m : MethodLink) →
        IsCallee classes (channels_of lines.old) m callee.entry → AreLeft lines.old program.inputs →
        KnowsExceptions spot exceptions.now → IsAt spot ahead stack.old →
        Invoked done callee.entry.target classes (InvokeSpecial m) spot
        (is_misreceived callee.entry.only_exceptions spot.exceptions
        (operand (length m.takes) (areas_in program (running stack.old))))
        program stack.old stack.new lines.new) }
    ensures kept { IfOk result (λ done. Keeps stack.old (acting done stack.new)) }
    ensures waits { IfOk result (λ done. done ≡ calls → 0 < length (waiting stack.new)) }
    ensures named { channels_of lines.new ≡ channels_of lines.old }
    ensures still { IfOk result (λ done. IsTrue (is_still done) → stack.new ≡ stack.old) }
    ensures untaken { IfOk result (λ done. IsTrue (is_still done) → lines.new ≡ lines.old) }
    ensures refused { OnErr result (stack.new ≡ stack.old) }
    ensures unread { OnErr result (lines.new ≡ lines.old) }
{
    invoke_on(stack, lines, callee, exceptions, ahead, true)
}

/// Calls a method on the object that was pushed before its arguments.
pub fn invoke_virtual(
    stack: &mut Stack,
    lines: &mut Lines,
    callee: Callee,
    exceptions: &[bool],
    ahead: bool,
) -> Result<Done, NoMemory>
    ensures done { IfOk result (λ done.
        (classes : List Name) (spot : Spot) (program : Areas) (m : MethodLink) →
        IsCallee classes (channels_of lines.old) m callee.entry → AreLeft lines.old program.inputs →
        KnowsExceptions spot exceptions.now → IsAt spot ahead stack.old →
        Invoked done callee.entry.target classes (InvokeVirtual m) spot
        (is_misreceived callee.entry.only_exceptions spot.exceptions
        (operand (length m.takes) (areas_in program (running stack.old))))
        program stack.old stack.new lines.new) }
    ensures kept { IfOk result (λ done. Keeps stack.old (acting done stack.new)) }
    ensures waits { IfOk result (λ done. done ≡ calls → 0 < length (waiting stack.new)) }
    ensures named { channels_of lines.new ≡ channels_of lines.old }
    ensures still { IfOk result (λ done. IsTrue (is_still done) → stack.new ≡ stack.old) }
    ensures untaken { IfOk result (λ done. IsTrue (is_still done) → lines.new ≡ lines.old) }
    ensures refused { OnErr result (stack.new ≡ stack.old) }
    ensures unread { OnErr result (lines.new ≡ lines.old) }
{
    invoke_on(stack, lines, callee, exceptions, ahead, false)
}
