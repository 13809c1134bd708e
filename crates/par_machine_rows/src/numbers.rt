//! Class files made by hand that reckon with numbers and branch on them. Another Java
//! virtual machine gave the same numbers.

use crate::hand_made::{Code, files_run_as, with_code};
use par_io::NoMemory;
use par_row_calls::Answer;
use par_worked::expect;
use std::alloc::Global;
use std::test::Fail;

// A class `Shop` up to what its method `main` has as code. Its constants name by 8 the output
// channel `show`; 9 is the greatest number and 10 the least one.
const SHOP: &[u8] = b"\
    \xca\xfe\xba\xbe\0\0\01\0\x0e\x01\0\x04Shop\x07\0\x01\x01\0\x10java/lang/Object\x07\0\x03\x01\
    \0\x04show\x01\0\x04(I)V\x0c\0\x05\0\x06\x0a\0\x02\0\x07\x03\x7f\xff\xff\xff\x03\x80\0\0\0\x01\
    \0\x04main\x01\0\x03()V\x01\0\x04Code\01\0\x02\0\x04\0\0\0\0\0\x02\x01\x09\0\x05\0\x06\0\0\0\
    \x09\0\x0b\0\x0c\0\x01\0\x0d";

/// A name, the code of `main`, which shows a number, and what comes of the run.
const CODES: &[(&str, &[u8], Answer)] = &[
    (
        "a sum wraps",
        b"\x12\x09\x04\x60\xb8\x00\x08\xb1",
        ("out Shop.show -2147483648\nend\n", 0),
    ),
    (
        "a difference wraps",
        b"\x12\x0a\x04\x64\xb8\x00\x08\xb1",
        ("out Shop.show 2147483647\nend\n", 0),
    ),
    (
        "a product wraps",
        b"\x12\x09\x05\x68\xb8\x00\x08\xb1",
        ("out Shop.show -2\nend\n", 0),
    ),
    (
        "the least number by -1",
        b"\x12\x0a\x02\x6c\xb8\x00\x08\xb1",
        ("out Shop.show -2147483648\nend\n", 0),
    ),
    (
        "the rest of the least number by -1",
        b"\x12\x0a\x02\x70\xb8\x00\x08\xb1",
        ("out Shop.show 0\nend\n", 0),
    ),
    (
        "a quotient is cut towards 0",
        b"\x10\xf9\x06\x6c\xb8\x00\x08\xb1",
        ("out Shop.show -2\nend\n", 0),
    ),
    (
        "a rest has the sign of the dividend",
        b"\x10\xf9\x06\x70\xb8\x00\x08\xb1",
        ("out Shop.show -1\nend\n", 0),
    ),
    (
        "the least number has no opposite",
        b"\x12\x0a\x74\xb8\x00\x08\xb1",
        ("out Shop.show -2147483648\nend\n", 0),
    ),
    (
        "a shift to the left by 33 is one by 1",
        b"\x04\x10\x21\x78\xb8\x00\x08\xb1",
        ("out Shop.show 2\nend\n", 0),
    ),
    (
        "a shift to the right by 33 is one by 1",
        b"\x10\xf8\x10\x21\x7a\xb8\x00\x08\xb1",
        ("out Shop.show -4\nend\n", 0),
    ),
    (
        "a shift to the right that brings in zeros",
        b"\x10\xf8\x10\x21\x7c\xb8\x00\x08\xb1",
        ("out Shop.show 2147483644\nend\n", 0),
    ),
    (
        "a shift by -1 is one by 31",
        b"\x04\x02\x78\xb8\x00\x08\xb1",
        ("out Shop.show -2147483648\nend\n", 0),
    ),
    (
        "bits of both",
        b"\x10\x0c\x10\x0a\x7e\xb8\x00\x08\xb1",
        ("out Shop.show 8\nend\n", 0),
    ),
    (
        "bits of either",
        b"\x10\x0c\x10\x0a\x80\xb8\x00\x08\xb1",
        ("out Shop.show 14\nend\n", 0),
    ),
    (
        "bits of one alone",
        b"\x10\x0c\x10\x0a\x82\xb8\x00\x08\xb1",
        ("out Shop.show 6\nend\n", 0),
    ),
    (
        "a local wraps",
        b"\x12\x09\x3b\x84\x00\x01\x1a\xb8\x00\x08\xb1",
        ("out Shop.show -2147483648\nend\n", 0),
    ),
    (
        "a local is lowered",
        b"\x08\x3c\x84\x01\x80\x1b\xb8\x00\x08\xb1",
        ("out Shop.show -123\nend\n", 0),
    ),
    (
        "a number of two bytes",
        b"\x11\x80\x00\xb8\x00\x08\xb1",
        ("out Shop.show -32768\nend\n", 0),
    ),
    (
        "a constant by an index of two bytes",
        b"\x13\x00\x0a\xb8\x00\x08\xb1",
        ("out Shop.show -2147483648\nend\n", 0),
    ),
    (
        "1 and 2 and so on to 10",
        b"\
          \x03\x3b\x10\x0a\x3c\x1a\x1b\x60\x3b\x84\x01\xff\x1b\x9d\xff\xf8\x1a\xb8\x00\x08\
          \xb1",
        ("out Shop.show 55\nend\n", 0),
    ),
    (
        "ifeq of -1, 0 and 1",
        b"\
          \x03\x3b\x02\x99\x00\x06\xa7\x00\x06\x84\x00\x04\x03\x99\x00\x06\xa7\x00\x06\x84\
          \x00\x02\x04\x99\x00\x06\xa7\x00\x06\x84\x00\x01\x1a\xb8\x00\x08\xb1",
        ("out Shop.show 2\nend\n", 0),
    ),
    (
        "ifne of -1, 0 and 1",
        b"\
          \x03\x3b\x02\x9a\x00\x06\xa7\x00\x06\x84\x00\x04\x03\x9a\x00\x06\xa7\x00\x06\x84\
          \x00\x02\x04\x9a\x00\x06\xa7\x00\x06\x84\x00\x01\x1a\xb8\x00\x08\xb1",
        ("out Shop.show 5\nend\n", 0),
    ),
    (
        "iflt of -1, 0 and 1",
        b"\
          \x03\x3b\x02\x9b\x00\x06\xa7\x00\x06\x84\x00\x04\x03\x9b\x00\x06\xa7\x00\x06\x84\
          \x00\x02\x04\x9b\x00\x06\xa7\x00\x06\x84\x00\x01\x1a\xb8\x00\x08\xb1",
        ("out Shop.show 4\nend\n", 0),
    ),
    (
        "ifge of -1, 0 and 1",
        b"\
          \x03\x3b\x02\x9c\x00\x06\xa7\x00\x06\x84\x00\x04\x03\x9c\x00\x06\xa7\x00\x06\x84\
          \x00\x02\x04\x9c\x00\x06\xa7\x00\x06\x84\x00\x01\x1a\xb8\x00\x08\xb1",
        ("out Shop.show 3\nend\n", 0),
    ),
    (
        "ifgt of -1, 0 and 1",
        b"\
          \x03\x3b\x02\x9d\x00\x06\xa7\x00\x06\x84\x00\x04\x03\x9d\x00\x06\xa7\x00\x06\x84\
          \x00\x02\x04\x9d\x00\x06\xa7\x00\x06\x84\x00\x01\x1a\xb8\x00\x08\xb1",
        ("out Shop.show 1\nend\n", 0),
    ),
    (
        "ifle of -1, 0 and 1",
        b"\
          \x03\x3b\x02\x9e\x00\x06\xa7\x00\x06\x84\x00\x04\x03\x9e\x00\x06\xa7\x00\x06\x84\
          \x00\x02\x04\x9e\x00\x06\xa7\x00\x06\x84\x00\x01\x1a\xb8\x00\x08\xb1",
        ("out Shop.show 6\nend\n", 0),
    ),
    (
        "if_icmpeq of -1, 0 and 1 against 0",
        b"\
          \x03\x3b\x02\x03\x9f\x00\x06\xa7\x00\x06\x84\x00\x04\x03\x03\x9f\x00\x06\xa7\x00\
          \x06\x84\x00\x02\x04\x03\x9f\x00\x06\xa7\x00\x06\x84\x00\x01\x1a\xb8\x00\x08\xb1",
        ("out Shop.show 2\nend\n", 0),
    ),
    (
        "if_icmpne of -1, 0 and 1 against 0",
        b"\
          \x03\x3b\x02\x03\xa0\x00\x06\xa7\x00\x06\x84\x00\x04\x03\x03\xa0\x00\x06\xa7\x00\
          \x06\x84\x00\x02\x04\x03\xa0\x00\x06\xa7\x00\x06\x84\x00\x01\x1a\xb8\x00\x08\xb1",
        ("out Shop.show 5\nend\n", 0),
    ),
    (
        "if_icmplt of -1, 0 and 1 against 0",
        b"\
          \x03\x3b\x02\x03\xa1\x00\x06\xa7\x00\x06\x84\x00\x04\x03\x03\xa1\x00\x06\xa7\x00\
          \x06\x84\x00\x02\x04\x03\xa1\x00\x06\xa7\x00\x06\x84\x00\x01\x1a\xb8\x00\x08\xb1",
        ("out Shop.show 4\nend\n", 0),
    ),
    (
        "if_icmpge of -1, 0 and 1 against 0",
        b"\
          \x03\x3b\x02\x03\xa2\x00\x06\xa7\x00\x06\x84\x00\x04\x03\x03\xa2\x00\x06\xa7\x00\
          \x06\x84\x00\x02\x04\x03\xa2\x00\x06\xa7\x00\x06\x84\x00\x01\x1a\xb8\x00\x08\xb1",
        ("out Shop.show 3\nend\n", 0),
    ),
    (
        "if_icmpgt of -1, 0 and 1 against 0",
        b"\
          \x03\x3b\x02\x03\xa3\x00\x06\xa7\x00\x06\x84\x00\x04\x03\x03\xa3\x00\x06\xa7\x00\
          \x06\x84\x00\x02\x04\x03\xa3\x00\x06\xa7\x00\x06\x84\x00\x01\x1a\xb8\x00\x08\xb1",
        ("out Shop.show 1\nend\n", 0),
    ),
    (
        "if_icmple of -1, 0 and 1 against 0",
        b"\
          \x03\x3b\x02\x03\xa4\x00\x06\xa7\x00\x06\x84\x00\x04\x03\x03\xa4\x00\x06\xa7\x00\
          \x06\x84\x00\x02\x04\x03\xa4\x00\x06\xa7\x00\x06\x84\x00\x01\x1a\xb8\x00\x08\xb1",
        ("out Shop.show 6\nend\n", 0),
    ),
    (
        "null is no object",
        b"\x01\xc7\x00\x07\x03\xa7\x00\x04\x04\xb8\x00\x08\xb1",
        ("out Shop.show 0\nend\n", 0),
    ),
];

fn code_runs_as(alloc: Global, bytes: &[u8], answer: Answer) -> Result<bool, NoMemory> {
    let code = Code {
        room: 2,
        locals: 2,
        bytes,
        handlers: &[],
    };
    let shop = with_code(alloc, SHOP, code)?;
    let files = [("Shop.class", shop.as_slice())];
    files_run_as(alloc, &files, "paragon Shop in.txt 1000", answer)
}

#[test]
fn numbers_are_reckoned(rt: HostRuntime) -> Result<(), Fail> {
    for (name, code, answer) in CODES {
        expect(code_runs_as(rt.alloc(), code, *answer)?, name)?;
    }
    Ok(())
}
