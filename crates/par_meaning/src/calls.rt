//! Calls: their values, and the bodies that they enter and leave.

ghost use Rattle.std.specs.Prelude.{◌≡◌, ◌<◌, ℕ, suc, ◌∷◌, ◌++◌, drop, IfOk};
ghost use Rattle.par_typed.specs.Shown.{all_shown};
ghost use Rattle.par_run_laws.specs.Meaning.{calls};
ghost use Rattle.par_meaning.specs.declared.work.Completion.TheVariants.{Normal, Abrupt};
ghost use Rattle.par_meaning.specs.declared.work.Waiting.TheVariants.{Leave};
ghost use Rattle.par_values.specs.declared.value.MVal.{MVal};
ghost use Rattle.par_meaning.specs.Onward.{onward, behind, state_of, setting, HandsOn};
ghost use Rattle.par_meaning.specs.Work.{Setting, Follows, called, run_calls, last_values};
ghost use Rattle.par_meaning.specs.Work.{evaluates_all, first_of};

use crate::machine::Machine;
use crate::operators::is_there;
use crate::work::{Exit, FINE, NULL_POINTER, Next, Target, Then, Waiting};
use par_base::memory::NoMemory;
use par_source_state::Program;
use par_typed::expr::TExpr;
use par_values::value::MVal;

/// Goes on with a call that has so many values and these arguments to come.
pub(crate) fn arguments<'a>(
    machine: &mut Machine<'a>,
    target: Target,
    count: usize,
    args: &'a [TExpr],
) -> Then<'a>
    ensures { (p : Setting) (rest : Follows) (n : ℕ) → onward p rest machine.new result n
        ≡ behind machine.old.events
        (evaluates_all p (all_shown args.now)
        (λ more. called p target (last_values count machine.old.values ++ more))
        (rest machine.old.frames.below (drop count machine.old.values))
        (state_of p machine.old) n) }
{
    match args.split_first() {
        Some((first, others)) => Then::part(first, Waiting::Argument(target, count, others)),
        None => call(machine, target, count),
    }
}

/// Calls, where the receiver passes the null test.
fn call<'a>(machine: &mut Machine<'a>, target: Target, count: usize) -> Then<'a>
    ensures { (p : Setting) (rest : Follows) (n : ℕ) → onward p rest machine.new result n
        ≡ behind machine.old.events
        (called p target (last_values count machine.old.values)
        (rest machine.old.frames.below (drop count machine.old.values))
        (state_of p machine.old) n) }
{
    if is_there(target.sure, first_of(machine.values.last(count))) {
        Then::Goes(Next::Body(target.class, target.method, count))
    } else {
        machine.values.cut(count);
        Then::leaves(Exit::Thrown(NULL_POINTER))
    }
}

fn first_of(values: &[MVal]) -> MVal
    ensures { result ≡ first_of values.now }
{
    match values.first() {
        Some(value) => *value,
        None => MVal::Null,
    }
}

/// Goes on with a call that has one value more.
pub(crate) fn one_more<'a>(
    machine: &mut Machine<'a>,
    target: Target,
    count: usize,
    args: &'a [TExpr],
    value: MVal,
) -> Result<Then<'a>, NoMemory>
    ensures { IfOk result (λ on. (p : Setting) (rest : Follows) (n : ℕ)
        → onward p rest machine.new on n ≡ behind machine.old.events
        (evaluates_all p (all_shown args.now)
        (λ more. called p target (last_values count machine.old.values ++ value ∷ more))
        (rest machine.old.frames.below (drop count machine.old.values))
        (state_of p machine.old) n)) }
{
    machine.values.push(value)?;
    let count = count.checked_add(1).ok_or(NoMemory)?;
    Ok(arguments(machine, target, count, args))
}

/// Enters the body of a method, with so many of the last values in its first locals. A method
/// without a body does nothing.
pub(crate) fn enter_body<'a>(
    program: &Program<'a>,
    machine: &mut Machine<'a>,
    class: u16,
    method: u16,
    count: usize,
) -> Result<Then<'a>, NoMemory>
    ensures { IfOk result (λ on. (d : ℕ) (rest : Follows) (n : ℕ) → n < d
        → let p = setting program.now d in onward p rest machine.new on n
        ≡ behind machine.old.events (calls (run_calls p) class method
        (last_values count machine.old.values)
        (rest machine.old.frames.below (drop count machine.old.values))
        (state_of p machine.old) (suc n))) }
{
    let body = program.body(class, method);
    let Some(body) = body else {
        machine.values.cut(count);
        return Ok(Then::Ends(FINE));
    };
    let size = machine.frames.enter(machine.values.last(count))?;
    machine.values.cut(count);
    let caller = Waiting::Leave(size, machine.result);
    machine.result = MVal::Null;
    Ok(Then::Waits(caller, Next::Stmt(body)))
}

/// Leaves a method with what it is to return.
pub(crate) fn leave<'a>(machine: &mut Machine<'a>, size: usize, back: MVal) -> Then<'a>
    ensures { (v : MVal) → HandsOn (Leave size back) (Normal v) machine.old machine.new result }
{
    let value = machine.result;
    machine.frames.leave(size);
    machine.result = back;
    Then::gives(value)
}

/// Leaves a method by an exit.
pub(crate) fn leave_by<'a>(
    machine: &mut Machine<'a>,
    size: usize,
    back: MVal,
    exit: Exit,
) -> Then<'a>
    ensures { HandsOn (Leave size back) (Abrupt exit) machine.old machine.new result }
{
    match exit {
        Exit::Thrown(_) => {
            machine.frames.leave(size);
            machine.result = back;
            Then::leaves(exit)
        }
        _ => leave(machine, size, back),
    }
}
