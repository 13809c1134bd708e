//! Class files made by hand that make objects and ask for their fields and methods.

use crate::hand_made::{Code, files_run_as, with_code};
use par_io::NoMemory;
use par_row_calls::Answer;
use par_worked::expect;
use std::alloc::Global;
use std::test::Fail;

// A class `Shop` up to what its method `main` has as code. Its constants name by 4 the class of all
// objects, by 8 the output channel `show`, by 12 and 16 the static fields `last` of Items and `on`
// of Z, by 18 the class Item, by 22 its initializer, by 26 and 29 its fields `f` of int and `flag`
// of Z, by 33 and 37 its methods `get` of `f` and `self`, by 39 and 41 the classes Bill and Bad,
// by 44 the field `code` of Bad, by 46 the class of all exceptions, by 48 that of locks, and by 51
// and 54 its fields `L3` and `L255`.
const SHOP: &[u8] = b"\
    \xca\xfe\xba\xbe\0\0\01\0:\x01\0\x04Shop\x07\0\x01\x01\0\x10java/lang/Object\x07\0\x03\x01\0\
    \x04show\x01\0\x04(I)V\x0c\0\x05\0\x06\x0a\0\x02\0\x07\x01\0\x04last\x01\0\x06LItem;\x0c\0\x09\
    \0\x0a\x09\0\x02\0\x0b\x01\0\x02on\x01\0\x01Z\x0c\0\x0d\0\x0e\x09\0\x02\0\x0f\x01\0\x04Item\
    \x07\0\x11\x01\0\x06<init>\x01\0\x03()V\x0c\0\x13\0\x14\x0a\0\x12\0\x15\x01\0\x01f\x01\0\x01I\
    \x0c\0\x17\0\x18\x09\0\x12\0\x19\x01\0\x04flag\x0c\0\x1b\0\x0e\x09\0\x12\0\x1c\x01\0\x03get\
    \x01\0\x03()I\x0c\0\x1e\0\x1f\x0a\0\x12\0\x20\x01\0\x04self\x01\0\x08()LItem;\x0c\0\"\0#\x0a\0\
    \x12\0$\x01\0\x04Bill\x07\0&\x01\0\x03Bad\x07\0(\x01\0\x04code\x0c\0*\0\x18\x09\0)\0+\x01\0\
    \x13java/lang/Exception\x07\0-\x01\0\x0dparagon/Locks\x07\0/\x01\0\x02L3\x0c\01\0\x0e\x09\00\0\
    2\x01\0\x04L255\x0c\04\0\x0e\x09\00\05\x0a\0\x04\0\x15\x01\0\x04main\x01\0\x04Code\01\0\x02\0\
    \x04\0\0\0\x02\0\x09\0\x09\0\x0a\0\0\0\x09\0\x0d\0\x0e\0\0\0\x02\x01\x09\0\x05\0\x06\0\0\0\x09\
    \08\0\x14\0\x01\09";

const ITEM: &[u8] = b"\
    \xca\xfe\xba\xbe\0\0\01\0\x14\x01\0\x04Item\x07\0\x01\x01\0\x10java/lang/Object\x07\0\x03\x01\
    \0\x06<init>\x01\0\x03()V\x0c\0\x05\0\x06\x0a\0\x04\0\x07\x01\0\x01f\x01\0\x01I\x0c\0\x09\0\
    \x0a\x09\0\x02\0\x0b\x01\0\x04flag\x01\0\x01Z\x01\0\x03get\x01\0\x03()I\x01\0\x04self\x01\0\
    \x08()LItem;\x01\0\x04Code\01\0\x02\0\x04\0\0\0\x02\0\x01\0\x09\0\x0a\0\0\0\x01\0\x0d\0\x0e\0\
    \0\0\x03\0\x01\0\x05\0\x06\0\x01\0\x13\0\0\0\x11\0\x01\0\x01\0\0\0\x05*\xb7\0\x08\xb1\0\0\0\0\
    \0\x01\0\x0f\0\x10\0\x01\0\x13\0\0\0\x11\0\x01\0\x01\0\0\0\x05*\xb4\0\x0c\xac\0\0\0\0\0\x01\0\
    \x11\0\x12\0\x01\0\x13\0\0\0\x0e\0\x01\0\x01\0\0\0\x02*\xb0\0\0\0\0\0\0";

// A class without members.
const BILL: &[u8] = b"\
    \xca\xfe\xba\xbe\0\0\01\0\x05\x01\0\x04Bill\x07\0\x01\x01\0\x10java/lang/Object\x07\0\x03\01\0\
    \x02\0\x04\0\0\0\0\0\0\0\0";

// A class of exceptions.
const BAD: &[u8] = b"\
    \xca\xfe\xba\xbe\0\0\01\0\x07\x01\0\x03Bad\x07\0\x01\x01\0\x13java/lang/Exception\x07\0\x03\
    \x01\0\x04code\x01\0\x01I\01\0\x02\0\x04\0\0\0\x01\0\x01\0\x05\0\x06\0\0\0\0\0\0";

/// A name, the code of `main`, and what comes of the run.
const CODES: &[(&str, &[u8], Answer)] = &[
    (
        "an object that two locals hold",
        b"\
          \xbb\x00\x12\x59\xb7\x00\x16\x4b\xbb\x00\x12\x59\xb7\x00\x16\x4c\x2a\x4d\x2a\x04\
          \xb5\x00\x1a\x2b\x05\xb5\x00\x1a\x2c\x06\xb5\x00\x1a\x2a\xb4\x00\x1a\xb8\x00\x08\
          \xb1",
        (
            "new Item#0\nnew Item#1\nput Item#0.f 1\nput Item#1.f 2\nput Item#0.f 3\n\
             out Shop.show 3\nend\n",
            0,
        ),
    ),
    (
        "objects of two classes, each numbered for itself",
        b"\xbb\x00\x12\x57\xbb\x00\x27\x57\xbb\x00\x12\x57\xb1",
        ("new Item#0\nnew Bill#0\nnew Item#1\nend\n", 0),
    ),
    (
        "a field before it is written",
        b"\xbb\x00\x12\xb4\x00\x1a\xb8\x00\x08\xb1",
        ("new Item#0\nout Shop.show 0\nend\n", 0),
    ),
    (
        "a field of descriptor Z keeps its number",
        b"\xbb\x00\x12\x59\x05\xb5\x00\x1d\xb4\x00\x1d\xb8\x00\x08\xb1",
        ("new Item#0\nput Item#0.flag 2\nout Shop.show 2\nend\n", 0),
    ),
    (
        "so does a static one",
        b"\x05\xb3\x00\x10\xb2\x00\x10\xb8\x00\x08\xb1",
        ("set Shop.on 2\nout Shop.show 2\nend\n", 0),
    ),
    (
        "a static field of objects",
        b"\xbb\x00\x12\xb3\x00\x0c\xb2\x00\x0c\xb4\x00\x1a\xb8\x00\x08\x01\xb3\x00\x0c\xb1",
        (
            "new Item#0\nset Shop.last Item#0\nout Shop.show 0\nset Shop.last null\nend\n",
            0,
        ),
    ),
    (
        "a static field of objects before it is written",
        b"\xb2\x00\x0c\xc6\x00\x04\xb1\x07\xb8\x00\x08\xb1",
        ("out Shop.show 4\nend\n", 0),
    ),
    (
        "a write to null, which is no event",
        b"\x01\x04\xb5\x00\x1a\xb1",
        ("uncaught NullPointerException\n", 10),
    ),
    (
        "a read of null",
        b"\x01\xb4\x00\x1a\x57\xb1",
        ("uncaught NullPointerException\n", 10),
    ),
    (
        "a call of null",
        b"\x01\xb6\x00\x21\x57\xb1",
        ("uncaught NullPointerException\n", 10),
    ),
    (
        "a call of an object",
        b"\xbb\x00\x12\x59\x07\xb5\x00\x1a\xb6\x00\x21\xb8\x00\x08\xb1",
        ("new Item#0\nput Item#0.f 4\nout Shop.show 4\nend\n", 0),
    ),
    (
        "a call that gives an object",
        b"\xbb\x00\x12\x59\xb6\x00\x25\xa5\x00\x04\xb1\x08\xb8\x00\x08\xb1",
        ("new Item#0\nout Shop.show 5\nend\n", 0),
    ),
    (
        "two objects are not the same",
        b"\xbb\x00\x12\xbb\x00\x12\xa6\x00\x04\xb1\x08\xb8\x00\x08\xb1",
        ("new Item#0\nnew Item#1\nout Shop.show 5\nend\n", 0),
    ),
    (
        "an object of another class as the owner of a field",
        b"\xbb\x00\x27\xb4\x00\x1a\x57\xb1",
        ("new Bill#0\nbad code Shop.main 3 2\n", 14),
    ),
    (
        "a number as the owner of a field",
        b"\x04\x04\xb5\x00\x1a\xb1",
        ("bad code Shop.main 2 2\n", 14),
    ),
    (
        "an object of another class for a static field",
        b"\xbb\x00\x27\xb3\x00\x0c\xb1",
        ("new Bill#0\nbad code Shop.main 3 2\n", 14),
    ),
    (
        "a field of objects named as a static one",
        b"\xb2\x00\x1a\x57\xb1",
        ("bad code Shop.main 0 7\n", 14),
    ),
    (
        "a new object of no class of its own",
        b"\xbb\x00\x04\x57\xb1",
        ("bad code Shop.main 0 9\n", 14),
    ),
    (
        "a new exception of no class of its own",
        b"\xbb\x00\x2e\x57\xb1",
        ("bad code Shop.main 0 9\n", 14),
    ),
    (
        "a new object of the class of locks",
        b"\xbb\x00\x30\x57\xb1",
        ("bad code Shop.main 0 9\n", 14),
    ),
    (
        "a field in place of a class",
        b"\xbb\x00\x1a\x57\xb1",
        ("bad code Shop.main 0 6\n", 14),
    ),
    (
        "a new exception, which is no event, and a write to it, which is one",
        b"\xbb\x00\x29\x06\xb5\x00\x2c\xb1",
        ("put Bad#0.code 3\nend\n", 0),
    ),
    (
        "exceptions, which are numbered too",
        b"\xbb\x00\x29\x57\xbb\x00\x29\x59\x06\xb5\x00\x2c\xbf",
        ("put Bad#1.code 3\nuncaught Bad\n", 10),
    ),
    (
        "a lock that is opened, which is no event",
        b"\x04\xb3\x00\x33\xb2\x00\x33\xb8\x00\x08\xb2\x00\x36\xb8\x00\x08\xb1",
        ("out Shop.show 1\nout Shop.show 0\nend\n", 0),
    ),
];

fn code_runs_as(alloc: Global, bytes: &[u8], answer: Answer) -> Result<bool, NoMemory> {
    let code = Code {
        room: 3,
        locals: 3,
        bytes,
        handlers: &[],
    };
    let shop = with_code(alloc, SHOP, code)?;
    let files = [
        ("Shop.class", shop.as_slice()),
        ("Item.class", ITEM),
        ("Bill.class", BILL),
        ("Bad.class", BAD),
    ];
    files_run_as(alloc, &files, "paragon Shop in.txt 1000", answer)
}

#[test]
fn objects_are_made_and_used(rt: HostRuntime) -> Result<(), Fail> {
    for (name, code, answer) in CODES {
        expect(code_runs_as(rt.alloc(), code, *answer)?, name)?;
    }
    Ok(())
}
