//! What waits takes a value up.

ghost use Rattle.std.specs.Prelude.{if◌then◌else◌, IfOk};
ghost use Rattle.par_run_laws.specs.Meaning.{operates};
ghost use Rattle.par_run_laws.specs.Values.{is_true};
ghost use Rattle.par_typed.specs.Shown.{shown, does, otherwise};
ghost use Rattle.par_meaning.specs.declared.work.Completion.TheVariants.{Normal};
ghost use Rattle.par_meaning.specs.Onward.{Is, TakesUp};
ghost use Rattle.par_meaning.specs.Work.{decided, turned, performs, performs_else};

use crate::calls::{leave, one_more};
use crate::events::output;
use crate::fields::{read_field, write_field, write_static};
use crate::machine::Machine;
use crate::operators::{applied, decides, is_true, negated, number, throws, truth};
use crate::stmts::{otherwise, statements};
use crate::work::{ARITHMETIC, Exit, FINE, Next, Then, Waiting};
use par_base::memory::NoMemory;
use par_source_state::Program;
use par_typed::expr::TExpr;
use par_typed::par_lexer::operator::BinOp;
use par_typed::stmt::TStmt;
use par_values::value::MVal;

/// Takes a value up, with what waits for it.
pub(crate) fn accept<'a>(
    program: &Program<'a>,
    machine: &mut Machine<'a>,
    waiting: Waiting<'a>,
    value: MVal,
) -> Result<Then<'a>, NoMemory>
    ensures { IfOk result (λ on.
        TakesUp program.now waiting.entry (Normal value) machine.old machine.new on) }
{
    match waiting {
        Waiting::Field(sure, c, f) => Ok(read_field(program, machine, sure, c, f, value)),
        Waiting::Output(c, k) => output(program, machine, c, k, value),
        Waiting::Argument(target, count, args) => one_more(machine, target, count, args, value),
        Waiting::Neg => Ok(Then::gives(MVal::Int(negated(number(value))))),
        Waiting::Not => Ok(Then::gives(truth(!is_true(value)))),
        Waiting::Decide(op, right) => Ok(decide(op, value, right)),
        Waiting::Operate(op, left) => Ok(operate(op, left, value)),
        Waiting::If(body, other) => Ok(choose(value, body, other)),
        Waiting::Test(test, body) => Ok(turn(value, test, body)),
        Waiting::Loop(test, body) => Ok(Then::Goes(Next::Turn(test, body))),
        Waiting::Catch(_) => Ok(Then::gives(value)),
        Waiting::Return => {
            machine.result = value;
            Ok(Then::leaves(Exit::Returned))
        }
        Waiting::SetLocal(local) => {
            machine.frames.set(local, value)?;
            Ok(Then::Ends(FINE))
        }
        Waiting::SetStatic(c, f) => write_static(program, machine, c, f, value),
        Waiting::Object(sure, c, f, e) => Ok(Then::part(e, Waiting::SetField(sure, c, f, value))),
        Waiting::SetField(sure, c, f, of) => write_field(program, machine, sure, c, f, of, value),
        Waiting::Eval => Ok(Then::Ends(FINE)),
        Waiting::Block(stmts) => Ok(statements(stmts)),
        Waiting::Leave(size, result) => Ok(leave(machine, size, result)),
    }
}

/// An operator that has its first part.
fn decide<'a>(op: BinOp, left: MVal, right: &'a TExpr) -> Then<'a>
    ensures { Is (λ p. decided p op (shown right.now) left) result }
{
    if decides(op, left) {
        Then::gives(left)
    } else {
        Then::part(right, Waiting::Operate(op, left))
    }
}

/// An operator that has both its parts.
fn operate<'a>(op: BinOp, left: MVal, right: MVal) -> Then<'a>
    ensures { Is (λ p. operates op left right) result }
{
    if throws(op, right) {
        Then::leaves(Exit::Thrown(ARITHMETIC))
    } else {
        Then::gives(applied(op, left, right))
    }
}

/// A choice by its test.
fn choose<'a>(value: MVal, body: &'a TStmt, other: &'a Option<Box<TStmt>>) -> Then<'a>
    ensures { Is (λ p. if is_true value then performs p (does body.now)
        else performs_else p (otherwise other.now)) result }
{
    if is_true(value) {
        Then::Goes(Next::Stmt(body))
    } else {
        otherwise(other)
    }
}

/// A loop by its test.
fn turn<'a>(value: MVal, test: &'a TExpr, body: &'a TStmt) -> Then<'a>
    ensures { Is (λ p. turned p (shown test.now) (does body.now) value) result }
{
    if is_true(value) {
        Then::Waits(Waiting::Loop(test, body), Next::Stmt(body))
    } else {
        Then::Ends(FINE)
    }
}
