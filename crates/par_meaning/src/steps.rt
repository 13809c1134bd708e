//! A step, and what is done at no price between two steps.

ghost use Rattle.std.specs.Prelude.{◌≡◌, ◌<◌, ℕ, suc, IfOk};
ghost use Rattle.par_meaning.specs.Onward.{onward, behind, state_of, setting, TakesUp};
ghost use Rattle.par_meaning.specs.Work.{Follows, goes, left};
ghost use Rattle.par_meaning.specs.Whole.{whole};

use crate::accept::accept;
use crate::calls::enter_body;
use crate::exprs::enter_expr;
use crate::machine::Machine;
use crate::stmts::enter_stmt;
use crate::unwind::unwind;
use crate::work::{Completion, Next, Then, Waiting};
use par_base::memory::NoMemory;
use par_source_state::{Program, Stack};

/// What is left, where nothing can be done without a further step.
#[derive(Clone, Copy)]
pub(crate) enum Rest<'a> {
    Next(Next<'a>),
    /// Nothing, since the body of `main` has completed so.
    Over(Completion),
}

/// Makes a step.
pub(crate) fn step<'a>(
    program: &Program<'a>,
    machine: &mut Machine<'a>,
    next: Next<'a>,
) -> Result<Then<'a>, NoMemory>
    ensures { IfOk result (λ on. (d : ℕ) (rest : Follows) (n : ℕ) → n < d
        → let p = setting program.now d in
        onward p rest machine.new on n ≡ behind machine.old.events
        (goes p next.entry rest machine.old.frames.below machine.old.values
        (state_of p machine.old) (suc n))) }
{
    match next {
        Next::Expr(e) => enter_expr(program, machine, e),
        Next::Stmt(stmt) => enter_stmt(machine, stmt),
        Next::Turn(test, body) => Ok(Then::part(test, Waiting::Test(test, body))),
        Next::Body(class, method, count) => enter_body(program, machine, class, method, count),
    }
}

/// Takes a completion up, with what waits for it.
fn resume<'a>(
    program: &Program<'a>,
    machine: &mut Machine<'a>,
    waiting: Waiting<'a>,
    completion: Completion,
) -> Result<Then<'a>, NoMemory>
    ensures { IfOk result (λ on.
        TakesUp program.now waiting.entry completion machine.old machine.new on) }
{
    match completion {
        Completion::Normal(value) => accept(program, machine, waiting, value),
        Completion::Abrupt(exit) => Ok(unwind(machine, waiting, exit)),
    }
}

/// Does what can be done without a further step.
pub(crate) fn settle<'a>(
    program: &Program<'a>,
    machine: &mut Machine<'a>,
    work: &mut Stack<Waiting<'a>>,
    first: Then<'a>,
) -> Result<Rest<'a>, NoMemory>
    ensures { IfOk result (λ rest. (d n : ℕ) → let p = setting program.now d in
        whole p work.new machine.new rest n
        ≡ onward p (left p work.old) machine.old first.entry n) }
{
    let mut then = first;
    loop {
        match then {
            Then::Goes(next) => return Ok(Rest::Next(next)),
            Then::Waits(waiting, next) => {
                work.push(waiting)?;
                return Ok(Rest::Next(next));
            }
            Then::Ends(completion) => match work.pop() {
                Some(waiting) => then = resume(program, machine, waiting, completion)?,
                None => return Ok(Rest::Over(completion)),
            },
        }
    }
}
