//! The step that an expression costs.

ghost use Rattle.std.specs.Prelude.{◌≡◌, IfOk};
ghost use Rattle.par_typed.specs.Shown.{shown, receiver, all_shown};
ghost use Rattle.par_meaning.specs.Onward.{Pays, Moves};
ghost use Rattle.par_meaning.specs.Work.{evaluates, call_parts};

use crate::calls::arguments;
use crate::events::{born, input};
use crate::fields::static_field;
use crate::machine::Machine;
use crate::operators::{constant, truth};
use crate::work::{Target, Then, Waiting};
use par_base::list::List;
use par_base::memory::NoMemory;
use par_source_state::Program;
use par_typed::expr::{TExpr, TExprKind};
use par_values::value::MVal;

/// Enters an expression.
pub(crate) fn enter_expr<'a>(
    program: &Program<'a>,
    machine: &mut Machine<'a>,
    e: &'a TExpr,
) -> Result<Then<'a>, NoMemory>
    ensures { IfOk result (λ on.
        Pays program.now (λ p. evaluates p (shown e.now)) machine.old machine.new on) }
{
    match &e.kind {
        TExprKind::Int(n) => Ok(Then::gives(constant(n))),
        TExprKind::Bool(b) => Ok(Then::gives(truth(*b))),
        TExprKind::Null => Ok(Then::gives(MVal::Null)),
        TExprKind::This => Ok(Then::gives(machine.frames.get(0))),
        TExprKind::New(c) => born(program, machine, *c),
        TExprKind::Local(x) => Ok(Then::gives(machine.frames.get(*x))),
        TExprKind::Static(c, f) => Ok(Then::gives(static_field(program, machine, *c, *f))),
        TExprKind::Field(of, c, f) => Ok(Then::part(of, Waiting::Field(of.sure, *c, *f))),
        TExprKind::Input(c, k) => input(program, machine, *c, *k),
        TExprKind::Output(c, k, value) => Ok(Then::part(value, Waiting::Output(*c, *k))),
        TExprKind::Call(c, m, of, args) => Ok(enter_call(machine, *c, *m, of, args)),
        TExprKind::Neg(of) => Ok(Then::part(of, Waiting::Neg)),
        TExprKind::Not(of) => Ok(Then::part(of, Waiting::Not)),
        TExprKind::Binary(op, left, right) => Ok(Then::part(left, Waiting::Decide(*op, right))),
    }
}

/// The parts of a call, the receiver first where there is one.
fn enter_call<'a>(
    machine: &mut Machine<'a>,
    class: u16,
    method: u16,
    of: &'a Option<Box<TExpr>>,
    args: &'a List<TExpr>,
) -> Then<'a>
    ensures { Moves (λ p. call_parts p class method (receiver of.now) (all_shown args.now))
        machine.old machine.new result }
{
    match of {
        Some(of) => {
            let target = Target {
                class,
                method,
                sure: of.sure,
            };
            Then::part(of, Waiting::Argument(target, 0, args.as_slice()))
        }
        None => {
            let target = Target {
                class,
                method,
                sure: true,
            };
            arguments(machine, target, 0, args.as_slice())
        }
    }
}
