//! One instruction of a run, as what is to be told of it.

ghost use Rattle.std.specs.Prelude.{◌≡◌, ◌<◌, ◌+◌, ℕ, suc, IfOk};
ghost use Rattle.par_values.specs.Ran.{Ran};
ghost use Rattle.par_machine.specs.par_step_laws.State.{State};
ghost use Rattle.par_machine.specs.par_step_laws.Step as plain;
ghost use Rattle.par_machine.specs.par_step_laws.Run.{followed};
ghost use Rattle.par_machine.specs.Machine.{steps_of};
ghost use Rattle.par_machine.specs.Turn.{IsTurn};
ghost use Rattle.par_run_lines.specs.Running.{runs_of, Moves};

use par_base::memory::NoMemory;
use par_event_lines::Closing;
use par_machine::machine::Machine;
use par_machine::turn::{Stuck, Turn};
use par_values::run::Event;

/// The most instructions that a machine runs.
pub const MOST_STEPS: u32 = 4_000_000_000;

/// What one instruction comes to.
#[derive(Drop)]
pub(crate) enum Moved {
    /// The run goes on, and there is nothing to show.
    Silent,
    /// The run goes on behind an event.
    Happened(Event),
    /// The run closes.
    Closed(Closing),
}

/// What a step of a machine comes to.
#[inline(always)]
fn after(done: Result<Turn, Stuck>) -> Result<Moved, NoMemory>
    ensures { (turn : plain.Turn) (after : State) (rest : State → Ran) → IsTurn done turn after
        → IfOk result (λ moved. Moves moved (followed turn rest) (rest after)) }
{
    match done {
        Ok(Turn::Silent) => Ok(Moved::Silent),
        Ok(Turn::Happened(event)) => Ok(Moved::Happened(event)),
        Ok(Turn::Ended(ending)) => Ok(Moved::Closed(Closing::Ended(ending))),
        Err(
            Stuck::BadCode {
                class,
                method,
                offset,
                reason,
            },
        ) => Ok(Moved::Closed(Closing::BadCode {
            class,
            method,
            offset,
            reason,
        })),
        Err(Stuck::Memory) => Err(NoMemory),
    }
}

/// Runs one instruction.
#[inline(always)]
pub(crate) fn step(machine: &mut Machine) -> Result<Moved, NoMemory>
    requires { steps_of machine.old < MOST_STEPS }
    ensures moves { IfOk result (λ moved.
        (n : ℕ) → Moves moved (runs_of machine.old (suc n)) (runs_of machine.new n)) }
    ensures counted { steps_of machine.new ≡ steps_of machine.old + 1 }
{
    after(machine.step())
}
