//! Class files made by hand that are linked and run: exceptions and where they go, calls, inputs,
//! and the number of instructions.

use crate::hand_made::{Code, Handler, folder_with, with_code};
use par_io::{MemFolder, MemSink, NoMemory};
use par_row_calls::{Answer, answers, call};
use par_worked::expect;
use std::alloc::Global;
use std::test::Fail;

// A class `Shop` up to what its method `main` has as code. Its constants name by 2 the class, by 11
// the output channel `show`, by 14 the method `down` of an int, which calls itself so many times,
// by 17 the method `hit`, which throws a Bad, by 20 the method `pass`, which calls `hit`, by 22 the
// class Bad, by 27 that of all exceptions, by 29 and 31 those of a division by zero and of null,
// and by 35 the input channel `ask`.
const SHOP: &[u8] = b"\
    \xca\xfe\xba\xbe\0\0\01\0$\x01\0\x04Shop\x07\0\x01\x01\0\x10java/lang/Object\x07\0\x03\x01\0\
    \x04main\x01\0\x03()V\x01\0\x04Code\x01\0\x04show\x01\0\x04(I)V\x0c\0\x08\0\x09\x0a\0\x02\0\
    \x0a\x01\0\x04down\x0c\0\x0c\0\x09\x0a\0\x02\0\x0d\x01\0\x03hit\x0c\0\x0f\0\x06\x0a\0\x02\0\
    \x10\x01\0\x04pass\x0c\0\x12\0\x06\x0a\0\x02\0\x13\x01\0\x03Bad\x07\0\x15\x01\0\x06<init>\
    \x0c\0\x17\0\x06\x0a\0\x16\0\x18\x01\0\x13java/lang/Exception\x07\0\x1a\x01\0\x1djava/lang/A\
    rithmeticException\x07\0\x1c\x01\0\x1ejava/lang/NullPointerException\x07\0\x1e\x01\0\x03ask\
    \x01\0\x03()I\x0c\0\x20\0!\x0a\0\x02\0\x22\01\0\x02\0\x04\0\0\0\0\0\x06\x01\x09\0\x08\0\x09\
    \0\0\x01\x09\0\x20\0!\0\0\0\x09\0\x0c\0\x09\0\x01\0\x07\0\0\0\x17\0\x02\0\x01\0\0\0\x0b\x1a\
    \x99\0\x09\x1a\x04d\xb8\0\x0e\xb1\0\0\0\0\0\x09\0\x0f\0\x06\0\x01\0\x07\0\0\0\x14\0\x02\0\0\
    \0\0\0\x08\xbb\0\x16Y\xb7\0\x19\xbf\0\0\0\0\0\x09\0\x12\0\x06\0\x01\0\x07\0\0\0\x10\0\0\0\0\
    \0\0\0\x04\xb8\0\x11\xb1\0\0\0\0\0\x09\0\x05\0\x06\0\x01\0\x07";

// A class `Shop` up to the same, whose one method is `main`.
const MAIN_ALONE: &[u8] = b"\
    \xca\xfe\xba\xbe\0\0\01\0\x08\x01\0\x04Shop\x07\0\x01\x01\0\x10java/lang/Object\x07\0\x03\
    \x01\0\x04main\x01\0\x03()V\x01\0\x04Code\01\0\x02\0\x04\0\0\0\0\0\x01\0\x09\0\x05\0\x06\0\
    \x01\0\x07";

// The class Bad of exceptions.
const BAD: &[u8] = b"\
    \xca\xfe\xba\xbe\0\0\01\0\x0a\x01\0\x03Bad\x07\0\x01\x01\0\x13java/lang/Exception\x07\0\x03\
    \x01\0\x06<init>\x01\0\x03()V\x01\0\x04Code\x0c\0\x05\0\x06\x0a\0\x04\0\x08\01\0\x02\0\x04\0\
    \0\0\0\0\x01\0\x01\0\x05\0\x06\0\x01\0\x07\0\0\0\x11\0\x01\0\x01\0\0\0\x05*\xb7\0\x09\xb1\0\
    \0\0\0\0\0";

/// A folder with the class files `Shop` and Bad and an input file.
fn folder_of(alloc: Global, shop: &[u8], inputs: &str) -> Result<MemFolder, NoMemory> {
    let files = [("Shop.class", shop), ("Bad.class", BAD)];
    folder_with(alloc, &files, inputs)
}

/// A code without locals and handlers.
fn plain(room: u8, bytes: &[u8]) -> Code<'_> {
    Code {
        room,
        locals: 0,
        bytes,
        handlers: &[],
    }
}

/// A name, the code of `main` of the class that has no other method, a command, and its answer.
const CODES: &[(&str, &[u8], &str, Answer)] = &[
    (
        "null is thrown",
        b"\x01\xbf",
        "paragon Shop in.txt 1000",
        ("uncaught NullPointerException\n", 10),
    ),
    (
        "a division by zero",
        b"\x04\x03\x6c\x57\xb1",
        "paragon Shop in.txt 1000",
        ("uncaught ArithmeticException\n", 10),
    ),
    (
        "a loop to itself",
        b"\xa7\x00\x00",
        "paragon Shop in.txt 5",
        ("budget\n", 11),
    ),
    (
        "a third operand, where there is room for two",
        b"\x04\x04\x04\xb1",
        "paragon Shop in.txt 1000",
        ("bad code Shop.main 2 3\n", 14),
    ),
    (
        "a byte that is no opcode",
        b"\xc4\xb1",
        "paragon Shop in.txt 1000",
        ("bad class Shop 20 0\n", 12),
    ),
    (
        "as many instructions as are allowed",
        b"\x04\x57\xb1",
        "paragon Shop in.txt 3",
        ("end\n", 0),
    ),
    (
        "one instruction more than is allowed",
        b"\x04\x57\xb1",
        "paragon Shop in.txt 2",
        ("budget\n", 11),
    ),
    (
        "a branch between two instructions",
        b"\xa7\x00\x01\xb1",
        "paragon Shop in.txt 1000",
        ("bad code Shop.main 0 5\n", 14),
    ),
];

fn code_runs_as(
    alloc: Global,
    code: &[u8],
    command: &str,
    answer: Answer,
) -> Result<bool, NoMemory> {
    let shop = with_code(alloc, MAIN_ALONE, plain(2, code))?;
    let mut folder = folder_of(alloc, shop.as_slice(), "")?;
    answers(alloc, command, &mut folder, answer)
}

#[test]
fn one_method_is_run(rt: HostRuntime) -> Result<(), Fail> {
    for (name, code, command, answer) in CODES {
        expect(code_runs_as(rt.alloc(), code, command, *answer)?, name)?;
    }
    Ok(())
}

/// A name, the room for operands of `main`, its code and its handlers, and what comes of the run.
const HANDLERS: &[(&str, u8, &[u8], &[Handler], Answer)] = &[
    (
        "a handler of the own class",
        1,
        b"\xb8\x00\x11\xb1\x57\x07\xb8\x00\x0b\xb1",
        &[[0, 3, 4, 22]],
        ("out Shop.show 4\nend\n", 0),
    ),
    (
        "a handler of every class",
        1,
        b"\xb8\x00\x11\xb1\x57\x07\xb8\x00\x0b\xb1",
        &[[0, 3, 4, 0]],
        ("out Shop.show 4\nend\n", 0),
    ),
    (
        "a handler of all exceptions",
        1,
        b"\xb8\x00\x11\xb1\x57\x07\xb8\x00\x0b\xb1",
        &[[0, 3, 4, 27]],
        ("out Shop.show 4\nend\n", 0),
    ),
    (
        "a handler of another exception",
        1,
        b"\xb8\x00\x11\xb1\x57\x07\xb8\x00\x0b\xb1",
        &[[0, 3, 4, 29]],
        ("uncaught Bad\n", 10),
    ),
    (
        "no handler",
        1,
        b"\xb8\x00\x11\xb1\x57\x07\xb8\x00\x0b\xb1",
        &[],
        ("uncaught Bad\n", 10),
    ),
    (
        "a handler that ends before the call",
        1,
        b"\x03\x57\xb8\x00\x11\xb1\x57\x07\xb8\x00\x0b\xb1",
        &[[0, 2, 6, 0]],
        ("uncaught Bad\n", 10),
    ),
    (
        "a handler that begins at the call",
        1,
        b"\x03\x57\xb8\x00\x11\xb1\x57\x07\xb8\x00\x0b\xb1",
        &[[2, 5, 6, 0]],
        ("out Shop.show 4\nend\n", 0),
    ),
    (
        "an inner handler before an outer one",
        1,
        b"\xb8\x00\x11\xb1\x57\x07\xb8\x00\x0b\xb1\x57\x08\xb8\x00\x0b\xb1",
        &[[0, 3, 4, 22], [0, 4, 10, 0]],
        ("out Shop.show 4\nend\n", 0),
    ),
    (
        "an outer handler that stands first",
        1,
        b"\xb8\x00\x11\xb1\x57\x07\xb8\x00\x0b\xb1\x57\x08\xb8\x00\x0b\xb1",
        &[[0, 4, 10, 0], [0, 3, 4, 22]],
        ("out Shop.show 5\nend\n", 0),
    ),
    (
        "an outer handler, where the inner one is of another class",
        1,
        b"\xb8\x00\x11\xb1\x57\x07\xb8\x00\x0b\xb1\x57\x08\xb8\x00\x0b\xb1",
        &[[0, 3, 4, 31], [0, 4, 10, 22]],
        ("out Shop.show 5\nend\n", 0),
    ),
    (
        "a division by zero",
        2,
        b"\x04\x03\x6c\x57\xb1\x57\x07\xb8\x00\x0b\xb1",
        &[[0, 3, 5, 29]],
        ("out Shop.show 4\nend\n", 0),
    ),
    (
        "a division by zero, and a handler of null",
        2,
        b"\x04\x03\x6c\x57\xb1\x57\x07\xb8\x00\x0b\xb1",
        &[[0, 3, 5, 31]],
        ("uncaught ArithmeticException\n", 10),
    ),
    (
        "null is thrown",
        1,
        b"\x01\xbf\x57\x07\xb8\x00\x0b\xb1",
        &[[0, 2, 2, 31]],
        ("out Shop.show 4\nend\n", 0),
    ),
    (
        "an exception that leaves two methods",
        1,
        b"\xb8\x00\x14\xb1\x57\x07\xb8\x00\x0b\xb1",
        &[[0, 3, 4, 22]],
        ("out Shop.show 4\nend\n", 0),
    ),
    (
        "an exception that leaves all methods",
        1,
        b"\xb8\x00\x14\xb1\x57\x07\xb8\x00\x0b\xb1",
        &[],
        ("uncaught Bad\n", 10),
    ),
    (
        "no room for an operand at the handler",
        0,
        b"\xb8\x00\x11\xb1",
        &[[0, 3, 3, 0]],
        ("bad code Shop.hit 7 3\n", 14),
    ),
    (
        "no instruction at the handler",
        1,
        b"\xb8\x00\x11\xb1",
        &[[0, 3, 1, 0]],
        ("bad code Shop.hit 7 5\n", 14),
    ),
    (
        "an object that is no exception",
        1,
        b"\xbb\x00\x02\xbf",
        &[[0, 4, 0, 0]],
        ("new Shop#0\nbad code Shop.main 3 9\n", 14),
    ),
    (
        "an object that is no exception, and no instruction at a handler of every class",
        1,
        b"\xbb\x00\x02\xbf",
        &[[0, 4, 1, 0]],
        ("new Shop#0\nbad code Shop.main 3 9\n", 14),
    ),
    (
        "an object that is no exception, and no instruction at a handler of all exceptions",
        1,
        b"\xbb\x00\x02\xbf",
        &[[0, 4, 1, 27]],
        ("new Shop#0\nbad code Shop.main 3 9\n", 14),
    ),
    (
        "1,000 calls, one in another",
        1,
        b"\x11\x03\xe8\xb8\x00\x0e\x08\xb8\x00\x0b\xb1",
        &[],
        ("out Shop.show 5\nend\n", 0),
    ),
    (
        "the operands of the caller stay",
        3,
        b"\x07\x08\xb8\x00\x0b\xb8\x00\x0b\xb1",
        &[],
        ("out Shop.show 5\nout Shop.show 4\nend\n", 0),
    ),
];

fn shop_runs_as(
    alloc: Global,
    room: u8,
    code: &[u8],
    handlers: &[Handler],
    answer: Answer,
) -> Result<bool, NoMemory> {
    let code = Code {
        room,
        locals: 0,
        bytes: code,
        handlers,
    };
    let shop = with_code(alloc, SHOP, code)?;
    let mut folder = folder_of(alloc, shop.as_slice(), "")?;
    answers(alloc, "paragon Shop in.txt 100000", &mut folder, answer)
}

#[test]
fn exceptions_go_to_their_handlers(rt: HostRuntime) -> Result<(), Fail> {
    for (name, room, code, handlers, answer) in HANDLERS {
        expect(
            shop_runs_as(rt.alloc(), *room, code, handlers, *answer)?,
            name,
        )?;
    }
    Ok(())
}

/// A `main` that puts out two numbers that it asks for.
const ASKS: &[u8] = b"\xb8\x00\x23\xb8\x00\x0b\xb8\x00\x23\xb8\x00\x0b\xb1";

/// A name, an input file, and what comes of the run of ASKS.
const INPUTS: &[(&str, &str, Answer)] = &[
    (
        "numbers, and then 0",
        "Shop.ask: 7\n",
        ("out Shop.show 7\nout Shop.show 0\nend\n", 0),
    ),
    (
        "no line",
        "",
        ("out Shop.show 0\nout Shop.show 0\nend\n", 0),
    ),
    (
        "a line of an output channel",
        "Shop.ask: 7\nShop.show: 1\n",
        ("bad inputs line 2\n", 13),
    ),
    (
        "a line of a class that is not loaded",
        "Bank.ask: 1\n",
        ("bad inputs line 1\n", 13),
    ),
    (
        "a line of a class that has no channel",
        "\nBad.ask: 1\n",
        ("bad inputs line 2\n", 13),
    ),
];

fn asks_as(alloc: Global, inputs: &str, answer: Answer) -> Result<bool, NoMemory> {
    let mut folder = folder_of_asks(alloc, inputs)?;
    answers(alloc, "paragon Shop in.txt 1000", &mut folder, answer)
}

#[test]
fn inputs_of_linked_classes_are_read(rt: HostRuntime) -> Result<(), Fail> {
    for (name, inputs, answer) in INPUTS {
        expect(asks_as(rt.alloc(), inputs, *answer)?, name)?;
    }
    Ok(())
}

/// A folder with the class files of ASKS and an input file.
fn folder_of_asks(alloc: Global, inputs: &str) -> Result<MemFolder, NoMemory> {
    let shop = with_code(alloc, SHOP, plain(1, ASKS))?;
    folder_of(alloc, shop.as_slice(), inputs)
}

/// Whether two bytes of its second line are held where that put fails, and nothing behind them.
fn cut_is_held(alloc: Global) -> Result<bool, NoMemory> {
    let mut folder = folder_of_asks(alloc, "")?;
    let mut out = MemSink::new(alloc, 100)?;
    out.fail_put(2, 2);
    let status = call(alloc, "paragon Shop in.txt 1000", &mut folder, &mut out)?;
    Ok((status, out.bytes()) == (6, b"out Shop.show 0\nou".as_slice()))
}

#[test]
fn a_failed_put_leaves_a_front(rt: HostRuntime) -> Result<(), Fail> {
    expect(cut_is_held(rt.alloc())?, "the second put fails")
}

fn without_inputs(alloc: Global) -> Result<MemFolder, NoMemory> {
    let shop = with_code(alloc, SHOP, plain(1, ASKS))?;
    let mut folder = MemFolder::new(alloc);
    folder.add("Shop.class", shop.as_slice())?;
    folder.add("Bad.class", BAD)?;
    Ok(folder)
}

fn no_inputs_are_told(alloc: Global) -> Result<bool, NoMemory> {
    let mut folder = without_inputs(alloc)?;
    answers(
        alloc,
        "paragon Shop in.txt 1000",
        &mut folder,
        ("absent\n", 3),
    )
}

#[test]
fn an_absent_input_file_is_told(rt: HostRuntime) -> Result<(), Fail> {
    expect(no_inputs_are_told(rt.alloc())?, "no input file")
}
