//! Whole programs as class files made by hand, of sources that are not compiled yet.

use crate::hand_made::{Code, Handler, folder_with, with_code};
use par_io::NoMemory;
use par_row_calls::{Answer, answers};
use par_worked::expect;
use std::alloc::Global;
use std::test::Fail;

// A class `Shop` up to what its method `main` has as code. Its constants name by 8 the input
// channel `key`, by 12 the output channel `show`, by 16 the static field `got`, by 20 the method
// `down` of an int, which gives 0 after so many calls of itself, by 22 the class Bad of exceptions,
// and by 26 its initializer.
const SHOP: &[u8] = b"\
    \xca\xfe\xba\xbe\0\0\01\0\x1d\x01\0\x04Shop\x07\0\x01\x01\0\x10java/lang/Object\x07\0\x03\x01\
    \0\x03key\x01\0\x03()I\x0c\0\x05\0\x06\x0a\0\x02\0\x07\x01\0\x04show\x01\0\x04(I)V\x0c\0\x09\0\
    \x0a\x0a\0\x02\0\x0b\x01\0\x03got\x01\0\x01I\x0c\0\x0d\0\x0e\x09\0\x02\0\x0f\x01\0\x04down\x01\
    \0\x04(I)I\x0c\0\x11\0\x12\x0a\0\x02\0\x13\x01\0\x03Bad\x07\0\x15\x01\0\x06<init>\x01\0\x03()V\
    \x0c\0\x17\0\x18\x0a\0\x16\0\x19\x01\0\x04Code\x01\0\x04main\01\0\x02\0\x04\0\0\0\x01\0\x09\0\
    \x0d\0\x0e\0\0\0\x04\x01\x09\0\x05\0\x06\0\0\x01\x09\0\x09\0\x0a\0\0\0\x09\0\x11\0\x12\0\x01\0\
    \x1b\0\0\0\x19\0\x02\0\x01\0\0\0\x0d\x1a\x9a\0\x05\x03\xac\x1a\x04d\xb8\0\x14\xac\0\0\0\0\0\
    \x09\0\x1c\0\x18\0\x01\0\x1b";

const BAD: &[u8] = b"\
    \xca\xfe\xba\xbe\0\0\01\0\x0a\x01\0\x03Bad\x07\0\x01\x01\0\x13java/lang/Exception\x07\0\x03\
    \x01\0\x06<init>\x01\0\x03()V\x0c\0\x05\0\x06\x0a\0\x04\0\x07\x01\0\x04Code\01\0\x02\0\x04\0\0\
    \0\0\0\x01\0\x01\0\x05\0\x06\0\x01\0\x09\0\0\0\x11\0\x01\0\x01\0\0\0\x05*\xb7\0\x08\xb1\0\0\0\
    \0\0\0";

/// A program: its name, the code of its `main` with its handlers, its inputs, the command that
/// runs it, and what comes of the run.
struct Program {
    name: &'static str,
    code: &'static [u8],
    handlers: &'static [Handler],
    inputs: &'static str,
    command: &'static str,
    answer: Answer,
}

const PROGRAMS: &[Program] = &[
    Program {
        name: "1,000 calls, one in another, each of which gives a number",
        code: b"\x11\x03\xe8\xb8\x00\x14\xb8\x00\x0c\xb1",
        handlers: &[],
        inputs: "Shop.key: 42\n",
        command: "paragon Shop in.txt 200000",
        answer: ("out Shop.show 0\nend\n", 0),
    },
    Program {
        name: "a field is asked before something is shown",
        code: b"\xb8\x00\x08\xb3\x00\x10\xb2\x00\x10\x9e\x00\x07\x04\xb8\x00\x0c\xb1",
        handlers: &[],
        inputs: "Shop.key: 42\n",
        command: "paragon Shop in.txt 1000",
        answer: ("set Shop.got 42\nout Shop.show 1\nend\n", 0),
    },
    Program {
        name: "an exception that is thrown and caught in a branch on the key",
        code: b"\
          \xb8\x00\x08\x9e\x00\x0b\xbb\x00\x16\x59\xb7\x00\x1a\xbf\xa7\x00\x04\x4b\x04\xb8\
          \x00\x0c\xb1",
        handlers: &[[0, 17, 17, 22]],
        inputs: "Shop.key: 42\n",
        command: "paragon Shop in.txt 1000",
        answer: ("out Shop.show 1\nend\n", 0),
    },
    Program {
        name: "the same branch that is not taken",
        code: b"\
          \xb8\x00\x08\x9e\x00\x0b\xbb\x00\x16\x59\xb7\x00\x1a\xbf\xa7\x00\x04\x4b\x04\xb8\
          \x00\x0c\xb1",
        handlers: &[[0, 17, 17, 22]],
        inputs: "Shop.key: -1\n",
        command: "paragon Shop in.txt 1000",
        answer: ("out Shop.show 1\nend\n", 0),
    },
    Program {
        name: "a division by a field that is 0",
        code: b"\x04\xb2\x00\x10\x6c\xb8\x00\x0c\xb1",
        handlers: &[],
        inputs: "Shop.key: 42\n",
        command: "paragon Shop in.txt 1000",
        answer: ("uncaught ArithmeticException\n", 10),
    },
    Program {
        name: "a loop without an end",
        code: b"\xa7\x00\x00\xb1",
        handlers: &[],
        inputs: "Shop.key: 42\n",
        command: "paragon Shop in.txt 100",
        answer: ("budget\n", 11),
    },
    Program {
        name: "a loop on a list that is spent",
        code: b"\xb8\x00\x08\x9e\x00\x06\xa7\xff\xfa\x04\xb8\x00\x0c\xb1",
        handlers: &[],
        inputs: "Shop.key: 1 1\n",
        command: "paragon Shop in.txt 1000",
        answer: ("out Shop.show 1\nend\n", 0),
    },
];

fn program_runs(alloc: Global, program: &Program) -> Result<bool, NoMemory> {
    let code = Code {
        room: 2,
        locals: 1,
        bytes: program.code,
        handlers: program.handlers,
    };
    let shop = with_code(alloc, SHOP, code)?;
    let files = [("Shop.class", shop.as_slice()), ("Bad.class", BAD)];
    let mut folder = folder_with(alloc, &files, program.inputs)?;
    answers(alloc, program.command, &mut folder, program.answer)
}

#[test]
fn programs_are_run(rt: HostRuntime) -> Result<(), Fail> {
    for program in PROGRAMS {
        expect(program_runs(rt.alloc(), program)?, program.name)?;
    }
    Ok(())
}

// A sealed-bid auction: `main` asks for both bids, keeps the larger one, which a method `larger` of
// two ints gives, and announces it.
const AUCTION: &[u8] = b"\
    \xca\xfe\xba\xbe\0\0\01\0\x1b\x01\0\x07Auction\x07\0\x01\x01\0\x10java/lang/Object\x07\0\x03\
    \x01\0\x09aliceBids\x01\0\x03()I\x0c\0\x05\0\x06\x0a\0\x02\0\x07\x01\0\x07bobBids\x0c\0\x09\0\
    \x06\x0a\0\x02\0\x0a\x01\0\x08announce\x01\0\x04(I)V\x0c\0\x0c\0\x0d\x0a\0\x02\0\x0e\x01\0\x04\
    best\x01\0\x01I\x0c\0\x10\0\x11\x09\0\x02\0\x12\x01\0\x06larger\x01\0\x05(II)I\x0c\0\x14\0\x15\
    \x0a\0\x02\0\x16\x01\0\x04Code\x01\0\x04main\x01\0\x03()V\01\0\x02\0\x04\0\0\0\x01\0\x09\0\x10\
    \0\x11\0\0\0\x05\x01\x09\0\x05\0\x06\0\0\x01\x09\0\x09\0\x06\0\0\x01\x09\0\x0c\0\x0d\0\0\0\x09\
    \0\x19\0\x1a\0\x01\0\x18\0\0\0#\0\x02\0\x02\0\0\0\x17\xb8\0\x08;\xb8\0\x0b<\x1a\x1b\xb8\0\x17\
    \xb3\0\x13\xb2\0\x13\xb8\0\x0f\xb1\0\0\0\0\0\x09\0\x14\0\x15\0\x01\0\x18\0\0\0\x15\0\x02\0\x02\
    \0\0\0\x09\x1a\x1b\xa4\0\x05\x1a\xac\x1b\xac\0\0\0\0\0\0";

fn auction_is_held(alloc: Global) -> Result<bool, NoMemory> {
    let inputs = "Auction.aliceBids: 30\nAuction.bobBids: 45\n";
    let mut folder = folder_with(alloc, &[("Auction.class", AUCTION)], inputs)?;
    let answer = ("set Auction.best 45\nout Auction.announce 45\nend\n", 0);
    answers(alloc, "paragon Auction in.txt 1000", &mut folder, answer)
}

#[test]
fn an_auction_is_run(rt: HostRuntime) -> Result<(), Fail> {
    expect(auction_is_held(rt.alloc())?, "45 is more than 30")
}
