ghost use Rattle.std.specs.Prelude.{◌≡◌, ◌+◌, ◌<◌, IfOk, IsTrue};
ghost use Rattle.par_loader.specs.Judged.{begins};
ghost use Rattle.par_machine.specs.Machine.{steps_of};

use crate::linked::{asked, linked};
use crate::linked_files::fits;
use crate::machine_places;
use par_link::Linked;
use par_machine::machine::Machine;
use par_machine::turn::{Stuck, Turn};
use par_values::run::{Ending, Event, Val};
use par_values::value::MVal;
use par_worked::expect;
use std::alloc::Global;
use std::test::Fail;

// A class `Shop` up to the code of its method `main`. Its pool names the static field `got` of
// type int by 11, the output channel `show` by 15, the input channel `ask` by 19, the method
// `more` by 22 and the number 2147483647 by 23.
const HEAD: &[u8] = b"\
    \xca\xfe\xba\xbe\0\0\01\0\x18\x01\0\x04Shop\x07\0\x01\x01\0\x10java/lang/Object\x07\0\x03\
    \x01\0\x04main\x01\0\x03()V\x01\0\x04Code\
    \x01\0\x03got\x01\0\x01I\x0c\0\x08\0\x09\x09\0\x02\0\x0a\
    \x01\0\x04show\x01\0\x04(I)V\x0c\0\x0c\0\x0d\x0a\0\x02\0\x0e\
    \x01\0\x03ask\x01\0\x03()I\x0c\0\x10\0\x11\x0a\0\x02\0\x12\
    \x01\0\x04more\x0c\0\x14\0\x06\x0a\0\x02\0\x15\x03\x7f\xff\xff\xff\
    \0\x01\0\x02\0\x04\0\0\0\x01\0\x09\0\x08\0\x09\0\0\0\x04\
    \0\x09\0\x05\0\x06\0\x01\0\x07\0\0\0";

// What stands behind it: the channels, and `more`, which adds 2 to `got`.
const TAIL: &[u8] = b"\
    \0\0\0\0\x01\x09\0\x0c\0\x0d\0\0\x01\x09\0\x10\0\x11\0\0\
    \0\x09\0\x14\0\x06\0\x01\0\x07\0\0\0\x15\0\x02\0\0\0\0\0\x09\
    \xb2\0\x0b\x05\x60\xb3\0\x0b\xb1\0\0\0\0\0\0";

// The code of `main`, the numbers of the events that it makes, and where bad code is met, with the
// number of the reason (Java Virtual Machine Specification, Java SE 7, section 6.5).
const RUNS: &[(&str, &[u8], &[i32], Option<(u32, u8)>)] = &[
    (
        "iconst_2 iconst_3 iadd putstatic return",
        b"\x05\x06\x60\xb3\0\x0b\xb1",
        &[5],
        None,
    ),
    (
        "ldc iconst_1 iadd and a call of `show`: the sum wraps",
        b"\x12\x17\x04\x60\xb8\0\x0f\xb1",
        &[-2147483648],
        None,
    ),
    (
        "`ask` and `show` twice: a spent list gives 0",
        b"\xb8\0\x13\xb8\0\x0f\xb8\0\x13\xb8\0\x0f\xb1",
        &[7, 0],
        None,
    ),
    (
        "`more` twice, then getstatic and `show`",
        b"\xb8\0\x16\xb8\0\x16\xb2\0\x0b\xb8\0\x0f\xb1",
        &[2, 4, 4],
        None,
    ),
    (
        "istore_0 iload_0: the local is kept",
        b"\x08\x3b\x07\x1a\x60\xb8\0\x0f\xb1",
        &[9],
        None,
    ),
    ("iadd of nothing", b"\x60\xb1", &[], Some((0, 1))),
    (
        "three operands, where there is room for two",
        b"\x03\x03\x03\xb1",
        &[],
        Some((2, 3)),
    ),
    ("no return", b"\x03\xb3\0\x0b", &[], Some((1, 5))),
];

fn put_code(bytes: &mut Vec<u8>, code: &[u8]) -> Result<(), Fail> {
    let many = code.len().min(200) as u8;
    bytes.extend_from_slice(&[many + 12, 0, 2, 0, 1, 0, 0, 0, many])?;
    bytes.extend_from_slice(code)?;
    bytes.extend_from_slice(TAIL)?;
    Ok(())
}

// The bytes of `Shop` with this code of `main`.
fn bytes_with(alloc: Global, code: &[u8]) -> Result<Vec<u8>, Fail> {
    let mut bytes = Vec::from_slice(alloc, HEAD)?;
    put_code(&mut bytes, code)?;
    Ok(bytes)
}

// `Shop` with this code of `main`, where it links.
fn linked_with(alloc: Global, code: &[u8]) -> Result<Linked, Fail>
    ensures { IfOk result (λ linked. IsTrue (begins linked)) }
{
    let bytes = bytes_with(alloc, code)?;
    let linked = linked(alloc, bytes.as_slice());
    drop(bytes);
    linked
}

// A machine for `Shop` with this code of `main`, where it links.
fn machine(alloc: Global, code: &[u8]) -> Result<Machine, Fail>
    ensures { IfOk result (λ machine. steps_of machine ≡ 0) }
{
    let inputs = asked(alloc)?;
    let linked = linked_with(alloc, code)?;
    Ok(machine_places::machine(alloc, linked, inputs)?)
}

// How many instructions a run takes at most.
const MOST: u32 = 100;

// The number that an event shows.
fn number_of(event: &Event) -> Option<i32> {
    match event {
        Event::Out(_, _, number) => Some(*number),
        Event::Set(_, _, Val::Int(number)) => Some(*number),
        _ => None,
    }
}

fn note(event: &Event, numbers: &mut Vec<i32>) -> Result<(), Fail> {
    match number_of(event) {
        Some(number) => Ok(numbers.push(number)?),
        None => Err(Fail::new("an event has a number")),
    }
}

// How a run goes on behind a step.
#[derive(Clone, Copy)]
enum Way {
    On,
    Ended,
    // It is met by bad code: the offset, and the number of the reason.
    Bad(u32, u8),
}

fn way_of_turn(turn: &Turn, numbers: &mut Vec<i32>) -> Result<Way, Fail> {
    match turn {
        Turn::Silent => Ok(Way::On),
        Turn::Happened(event) => {
            note(event, numbers)?;
            Ok(Way::On)
        }
        Turn::Ended(Ending::End) => Ok(Way::Ended),
        Turn::Ended(_) => Err(Fail::new("the run ends")),
    }
}

fn way_of(step: &Result<Turn, Stuck>, numbers: &mut Vec<i32>) -> Result<Way, Fail> {
    match step {
        Ok(turn) => way_of_turn(turn, numbers),
        Err(Stuck::BadCode { offset, reason, .. }) => Ok(Way::Bad(*offset, *reason)),
        Err(Stuck::Memory) => Err(Fail::new("the run ends")),
    }
}

// Runs an instruction, and notes what it shows.
fn way_behind_step(machine: &mut Machine, numbers: &mut Vec<i32>) -> Result<Way, Fail>
    requires { steps_of machine.old < 4000000000 }
    ensures { steps_of machine.new ≡ steps_of machine.old + 1 }
{
    let step = machine.step();
    let way = way_of(&step, numbers);
    drop(step);
    way
}

// Runs to the end, and answers where bad code is met.
fn run(machine: &mut Machine, numbers: &mut Vec<i32>) -> Result<Option<(u32, u8)>, Fail>
    requires { steps_of machine.old ≡ 0 }
{
    for _step in 0..MOST {
        match way_behind_step(machine, numbers)? {
            Way::On => {}
            Way::Ended => return Ok(None),
            Way::Bad(offset, reason) => return Ok(Some((offset, reason))),
        }
    }
    Err(Fail::new("the run is short"))
}

// Whether the machine makes these events, and meets bad code there.
fn makes(
    alloc: Global,
    machine: &mut Machine,
    expected: &[i32],
    bad: Option<(u32, u8)>,
) -> Result<bool, Fail>
    requires { steps_of machine.old ≡ 0 }
{
    let mut numbers = Vec::new(alloc);
    let met = run(machine, &mut numbers);
    let are_these = numbers.as_slice() == expected;
    drop(numbers);
    Ok(met? == bad && are_these)
}

// Whether the code makes these events, and bad code is met there.
fn code_makes(
    alloc: Global,
    code: &[u8],
    expected: &[i32],
    bad: Option<(u32, u8)>,
) -> Result<bool, Fail> {
    let mut machine = machine(alloc, code)?;
    let makes = makes(alloc, &mut machine, expected, bad);
    drop(machine);
    makes
}

#[test]
fn code_runs(rt: HostRuntime) -> Result<(), Fail> {
    for (name, code, expected, bad) in RUNS {
        expect(code_makes(rt.alloc(), code, expected, *bad)?, name)?;
    }
    Ok(())
}

const NONE: Option<MVal> = None;

const ZERO: Option<MVal> = Some(MVal::Int(0));

const ONE: Option<MVal> = Some(MVal::Int(1));

const TWO: Option<MVal> = Some(MVal::Int(2));

const THREE: Option<MVal> = Some(MVal::Int(3));

const FIVE: Option<MVal> = Some(MVal::Int(5));

const SEVEN: Option<MVal> = Some(MVal::Int(7));

// A loop of three rounds: iconst_3 istore_0, then iinc of -1, iload_0 and ifgt back to it.
const LOOP: &[u8] = b"\x06\x3b\x84\0\xff\x1a\x9d\xff\xfc\xb1";

// The code of `main`, how many instructions are run at most, how many are, and the local and the
// two operands behind them.
const GOES: &[(&str, &[u8], u32, u32, &[Option<MVal>])] = &[
    (
        "iconst_2 iconst_3 iadd, and a write that is shown",
        b"\x05\x06\x60\xb3\0\x0b\xb1",
        MOST,
        3,
        &[NONE, FIVE, NONE],
    ),
    (
        "two of them",
        b"\x05\x06\x60\xb3\0\x0b\xb1",
        2,
        2,
        &[NONE, TWO, THREE],
    ),
    (
        "none of them",
        b"\x05\x06\x60\xb3\0\x0b\xb1",
        0,
        0,
        &[NONE, NONE, NONE],
    ),
    (
        "iconst_5 istore_0 iinc of 2 iload_0, and a call of `show`",
        b"\x08\x3b\x84\0\x02\x1a\xb8\0\x0f\xb1",
        MOST,
        4,
        &[SEVEN, SEVEN, NONE],
    ),
    (
        "goto over an instruction, iconst_3, and the return",
        b"\xa7\0\x04\x02\x06\xb1",
        MOST,
        2,
        &[NONE, THREE, NONE],
    ),
    ("a loop to its end", LOOP, MOST, 11, &[ZERO, NONE, NONE]),
    ("ten of its eleven", LOOP, 10, 10, &[ZERO, ZERO, NONE]),
    (
        "getstatic, and the return",
        b"\xb2\0\x0b\xb1",
        MOST,
        1,
        &[NONE, ZERO, NONE],
    ),
    (
        "iconst_1 iconst_0, and a division that throws",
        b"\x04\x03\x6c\xb1",
        MOST,
        2,
        &[NONE, ONE, ZERO],
    ),
    ("bad code", b"\x60\xb1", MOST, 0, &[NONE, NONE, NONE]),
];

// Whether so many instructions are run, and leave these places.
fn goes(machine: &mut Machine, most: u32, many: u32, places: &[Option<MVal>]) -> bool
    requires { steps_of machine.old ≡ 0 }
{
    let went = machine.go_on(most.min(MOST));
    went == many && machine.places() == places
}

fn code_goes(
    alloc: Global,
    code: &[u8],
    most: u32,
    many: u32,
    places: &[Option<MVal>],
) -> Result<bool, Fail> {
    let mut machine = machine(alloc, code)?;
    let goes = goes(&mut machine, most, many, places);
    drop(machine);
    Ok(goes)
}

#[test]
fn code_goes_on(rt: HostRuntime) -> Result<(), Fail> {
    for (name, code, most, many, places) in GOES {
        expect(code_goes(rt.alloc(), code, *most, *many, places)?, name)?;
    }
    Ok(())
}

// The line of a channel of the class, and its place where it does not fit.
const CHANNELS: &[(&str, &[u8], Option<u32>)] = &[
    ("an input fits", b"Shop.ask: 7\n", None),
    ("an output does not", b"Shop.show: 7\n", Some(0)),
];

fn check_channels(alloc: Global, linked: &Linked) -> Result<(), Fail> {
    for (name, line, unfit) in CHANNELS {
        expect(fits(alloc, linked, line, *unfit), name)?;
    }
    Ok(())
}

#[test]
fn channels_are_looked_for(rt: HostRuntime) -> Result<(), Fail> {
    let linked = linked_with(rt.alloc(), b"\xb1")?;
    let checked = check_channels(rt.alloc(), &linked);
    drop(linked);
    checked
}
