ghost use Rattle.std.specs.Prelude.{◌≡◌, ◌+◌, ◌<◌, IfOk, IsTrue};
ghost use Rattle.par_loader.specs.Judged.{begins};
ghost use Rattle.par_machine.specs.Machine.{steps_of};

use crate::linked::{SHOP, linked};
use par_base::list::List;
use par_base::memory::NoMemory;
use par_link::Linked;
use par_machine::machine::Machine;
use par_machine::turn::Turn;
use par_values::inputs::Inputs;
use par_values::run::Ending;
use par_values::value::MVal;
use par_worked::expect;
use std::alloc::Global;
use std::test::Fail;

/// A machine before the first instruction of `main` of the first file.
pub fn machine(alloc: Global, linked: Linked, inputs: Inputs) -> Result<Machine, NoMemory>
    requires { IsTrue (begins linked) }
    ensures { IfOk result (λ machine. steps_of machine ≡ 0) }
{
    Machine::start(alloc, linked, 0, inputs)
}

const NONE: Option<MVal> = None;

const ONE: Option<MVal> = Some(MVal::Int(1));

const THREE: Option<MVal> = Some(MVal::Int(3));

const FOUR: Option<MVal> = Some(MVal::Int(4));

const FIVE: Option<MVal> = Some(MVal::Int(5));

const EIGHT: Option<MVal> = Some(MVal::Int(8));

// The exception of null, of the class behind the file and divisions by zero.
const EXCEPTION: Option<MVal> = Some(MVal::Ref(2, 0));

// What is done, how many instructions are run by then, and the places of all frames. First are
// those of `main`, one local and room for two operands.
const PLACES: &[(&str, u8, &[Option<MVal>])] = &[
    ("nothing", 0, &[NONE, NONE, NONE]),
    ("a jump", 1, &[NONE, NONE, NONE]),
    ("3 behind it is pushed", 2, &[NONE, THREE, NONE]),
    ("4 is pushed", 3, &[NONE, THREE, FOUR]),
    (
        "`next` is called, with two locals and room for two operands",
        4,
        &[NONE, THREE, NONE, FOUR, NONE, NONE, NONE],
    ),
    (
        "its local and 1 are pushed",
        6,
        &[NONE, THREE, NONE, FOUR, NONE, FOUR, ONE],
    ),
    (
        "they are added",
        7,
        &[NONE, THREE, NONE, FOUR, NONE, FIVE, NONE],
    ),
    ("it returns", 8, &[NONE, THREE, FIVE]),
    ("the sum is kept as a local", 10, &[EIGHT, NONE, NONE]),
    (
        "`tries` is called, and calls `hit`, each with room for one",
        12,
        &[EIGHT, NONE, NONE, NONE, NONE],
    ),
    (
        "null is pushed",
        13,
        &[EIGHT, NONE, NONE, NONE, Some(MVal::Null)],
    ),
    (
        "null is thrown, and `tries` has a handler",
        14,
        &[EIGHT, NONE, NONE, EXCEPTION],
    ),
    ("the exception is dropped", 15, &[EIGHT, NONE, NONE, NONE]),
    ("`tries` returns", 16, &[EIGHT, NONE, NONE]),
];

// The machine that runs `Shop`, before its first instruction.
fn shop(alloc: Global) -> Result<Machine, Fail>
    ensures { IfOk result (λ machine. steps_of machine ≡ 0) }
{
    let linked = linked(alloc, SHOP)?;
    let channels = List::new(alloc);
    Ok(machine(alloc, linked, Inputs { channels })?)
}

// Runs an instruction, and tells whether the run goes on and shows nothing.
fn is_silent(machine: &mut Machine) -> bool
    requires { steps_of machine.old < 4000000000 }
    ensures { steps_of machine.new ≡ steps_of machine.old + 1 }
{
    let turn = machine.step();
    let is_silent = matches!(&turn, Ok(Turn::Silent));
    drop(turn);
    is_silent
}

// Runs so many instructions, none of which ends the run.
fn go(machine: &mut Machine, steps: u8) -> Result<(), Fail>
    requires { steps_of machine.old ≡ 0 }
{
    for _step in 0..steps {
        expect(is_silent(machine), "the run goes on")?;
    }
    Ok(())
}

fn places_are(alloc: Global, steps: u8, places: &[Option<MVal>]) -> Result<bool, Fail> {
    let mut machine = shop(alloc)?;
    let went = go(&mut machine, steps);
    let are_these = machine.places() == places;
    drop(machine);
    went?;
    Ok(are_these)
}

#[test]
fn places_are_taken_and_given_back(rt: HostRuntime) -> Result<(), Fail> {
    for (name, steps, places) in PLACES {
        expect(places_are(rt.alloc(), *steps, places)?, name)?;
    }
    Ok(())
}
