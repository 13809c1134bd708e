//! The run of a program.

ghost use Rattle.std.specs.Prelude.{◌≡◌, ℕ, [], IfOk};
ghost use Rattle.par_run_laws.specs.Names.{class_named};
ghost use Rattle.par_run_laws.specs.Source.{source, uncaught};
ghost use Rattle.par_source_state.specs.Bodied.{main_body};
ghost use Rattle.par_meaning.specs.Onward.{setting};
ghost use Rattle.par_meaning.specs.Whole.{Begins, IsNew, ended, ends, as_run};

use crate::machine::Machine;
use crate::run::SourceRun;
use crate::steps::{Rest, settle, step};
use crate::work::{Completion, Exit, FINE, Next, Then, Waiting};
use par_base::memory::NoMemory;
use par_source_state::{Program, Stack, main_body, names};
use par_typed::program::Typed;
use par_values::inputs::Inputs;
use par_values::run::Ending;
use std::alloc::Global;

/// The run of a program on these inputs, with at most so many steps. It keeps its work in a vector,
/// and a step costs the same whatever the size of the program or of the run behind it.
pub fn run_source(
    alloc: Global,
    typed: &Typed,
    inputs: &Inputs,
    bound: u64,
) -> Result<SourceRun, NoMemory>
    ensures { IfOk result (λ run. as_run run ≡ source typed.now inputs.now bound) }
{
    let program = Program::new(alloc, typed, inputs)?;
    let run = run_program(&program, bound);
    drop(program);
    run
}

/// The run of a program that is looked up, with at most so many steps.
fn run_program(program: &Program, bound: u64) -> Result<SourceRun, NoMemory>
    ensures { IfOk result (λ run. as_run run
        ≡ source program.now.typed.now program.now.inputs.now bound) }
{
    let mut machine = Machine::new(program.alloc);
    let ended = run(program, &mut machine, bound);
    let events = machine.events;
    drop(machine.store);
    drop(machine.frames);
    drop(machine.values);
    let ending = ended?;
    Ok(SourceRun { events, ending })
}

/// Runs the body of `main` with at most so many steps.
fn run<'a>(program: &Program<'a>, machine: &mut Machine<'a>, bound: u64) -> Result<Ending, NoMemory>
    requires { IsNew machine.old }
    ensures { IfOk result (λ ending. ended machine.new.events ending
        ≡ source program.now.typed.now program.now.inputs.now bound) }
{
    let mut work = Stack::new(program.alloc);
    let ending = go_through(program, machine, &mut work, bound);
    drop(work);
    ending
}

/// Runs the body of `main`, where nothing waits yet.
fn go_through<'a>(
    program: &Program<'a>,
    machine: &mut Machine<'a>,
    work: &mut Stack<Waiting<'a>>,
    bound: u64,
) -> Result<Ending, NoMemory>
    requires new { IsNew machine.old }
    requires waits { work.old ≡ [] }
    ensures { IfOk result (λ ending. ended machine.new.events ending
        ≡ source program.now.typed.now program.now.inputs.now bound) }
{
    let mut rest = settle(program, machine, work, begin(program))?;
    for _ in 0..bound {
        match rest {
            Rest::Next(next) => {
                let then = step(program, machine, next)?;
                rest = settle(program, machine, work, then)?;
            }
            Rest::Over(completion) => return ending(program, completion),
        }
    }
    match rest {
        Rest::Next(_) => Ok(Ending::Stopped),
        Rest::Over(completion) => ending(program, completion),
    }
}

/// Where a run begins.
fn begin<'a>(program: &Program<'a>) -> Then<'a>
    ensures { (d : ℕ) → Begins (setting program.now d) (main_body program.now.typed.now) result }
{
    match main_body(program.typed) {
        Some(body) => Then::Goes(Next::Stmt(body)),
        None => Then::Ends(FINE),
    }
}

/// How a run ends whose `main` has completed so.
fn ending(program: &Program, completion: Completion) -> Result<Ending, NoMemory>
    ensures { IfOk result (λ ending. ending ≡ ends program.now.typed.now.table completion) }
{
    match completion {
        Completion::Abrupt(Exit::Thrown(class)) => uncaught(program, class),
        _ => Ok(Ending::End),
    }
}

fn uncaught(program: &Program, class: u16) -> Result<Ending, NoMemory>
    ensures { IfOk result (λ ending. ending
        ≡ uncaught (class_named program.now.typed.now.table class)) }
{
    match names::class(&program.typed.table, class) {
        Some(name) => {
            let name = name.copy(program.alloc)?;
            Ok(Ending::Uncaught(name))
        }
        None => Ok(Ending::End),
    }
}
