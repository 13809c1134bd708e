//! A class file made by hand, whose `main` has eight bytes of code: each reason why an instruction
//! cannot be run, and null where an object has to be.

use crate::hand_made::files_run_as;
use par_io::NoMemory;
use par_row_calls::Answer;
use par_worked::expect;
use std::alloc::Global;
use std::test::Fail;

// A class `Shop` with a static field `self` of its own class, a field `own` of its objects, and two
// static methods: `f`, of int, whose code is a return alone, and `main`, with one operand and one
// local. First what stands before the eight bytes of the code of `main`, then what stands behind.
const BEFORE: &[u8] = b"\
    \xca\xfe\xba\xbe\0\0\0\x31\0\x17\x01\0\x04Shop\x07\0\x01\x01\0\x10java/lang/Object\x07\0\
    \x03\x01\0\x04main\x01\0\x03()V\x01\0\x04Code\x01\0\x04self\x01\0\x06LShop;\x0c\0\x08\0\
    \x09\x09\0\x02\0\x0a\x01\0\x03own\x01\0\x01I\x0c\0\x0c\0\x0d\x09\0\x02\0\x0e\x01\0\x06<i\
    nit>\x0c\0\x10\0\x06\x0a\0\x04\0\x11\x01\0\x01f\x01\0\x03()I\x0c\0\x13\0\x14\x0a\0\x02\0\
    \x15\0\x31\0\x02\0\x04\0\0\0\x02\0\x09\0\x08\0\x09\0\0\0\x01\0\x0c\0\x0d\0\0\0\x02\0\x09\
    \0\x13\0\x14\0\x01\0\x07\0\0\0\x0d\0\x01\0\0\0\0\0\x01\xb1\0\0\0\0\0\x09\0\x05\0\x06\0\
    \x01\0\x07\0\0\0\x14\0\x01\0\x01\0\0\0\x08";

const BEHIND: &[u8] = b"\0\0\0\0\0\0";

const CODES: &[(&str, &[u8], Answer)] = &[
    (
        "null is given to a method",
        b"\xb2\x00\x0b\xb7\x00\x12\xb1\xb1",
        ("uncaught NullPointerException\n", 10),
    ),
    (
        "1: an operand is missing",
        b"\x3b\xb1\xb1\xb1\xb1\xb1\xb1\xb1",
        ("bad code Shop.main 0 1\n", 14),
    ),
    (
        "2: null is stored as a number",
        b"\xb2\x00\x0b\x3b\xb1\xb1\xb1\xb1",
        ("bad code Shop.main 3 2\n", 14),
    ),
    (
        "3: there is room for one operand",
        b"\x03\x03\xb1\xb1\xb1\xb1\xb1\xb1",
        ("bad code Shop.main 1 3\n", 14),
    ),
    (
        "4: a local that is not set is loaded",
        b"\x1a\xb1\xb1\xb1\xb1\xb1\xb1\xb1",
        ("bad code Shop.main 0 4\n", 14),
    ),
    (
        "5: nothing stands behind the last instruction",
        b"\x03\x3b\x03\x3b\x03\x3b\x03\x3b",
        ("bad code Shop.main 7 5\n", 14),
    ),
    (
        "6: a class in place of a field",
        b"\xb2\x00\x02\xb1\xb1\xb1\xb1\xb1",
        ("bad code Shop.main 0 6\n", 14),
    ),
    (
        "7: a field of an object in place of a static one",
        b"\xb2\x00\x0f\xb1\xb1\xb1\xb1\xb1",
        ("bad code Shop.main 0 7\n", 14),
    ),
    (
        "8: a method of int returns nothing",
        b"\xb8\x00\x16\xb1\xb1\xb1\xb1\xb1",
        ("bad code Shop.f 0 8\n", 14),
    ),
];

fn shop_of(alloc: Global, code: &[u8]) -> Result<Vec<u8>, NoMemory> {
    let mut file = BEFORE.to_vec(alloc)?;
    file.extend_from_slice(code)?;
    file.extend_from_slice(BEHIND)?;
    Ok(file)
}

fn code_runs_as(alloc: Global, code: &[u8], answer: Answer) -> Result<bool, NoMemory> {
    let file = shop_of(alloc, code)?;
    let files = [("Shop.class", file.as_slice())];
    files_run_as(alloc, &files, "paragon Shop in.txt 100", answer)
}

#[test]
fn each_reason_is_told(rt: HostRuntime) -> Result<(), Fail> {
    for (name, code, answer) in CODES {
        expect(code_runs_as(rt.alloc(), code, *answer)?, name)?;
    }
    Ok(())
}
