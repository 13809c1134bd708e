use par_instr::{Instr, InstrError, decode, encode, stack_effect};
use par_worked::expect;
use std::alloc::Global;
use std::test::Fail;

// The bytes and the instruction of a row of the Java Virtual Machine Specification, and the change
// of the operand list.
type Row = (&'static str, &'static [u8], Instr, Option<i8>);

const ROWS: &[Row] = &[
    ("bipush -128", &[0x10, 0x80], Instr::Bipush(-128), Some(1)),
    ("iconst_m1", &[0x02], Instr::Iconst(-1), Some(1)),
    (
        "sipush -500",
        &[0x11, 0xfe, 0x0c],
        Instr::Sipush(-500),
        Some(1),
    ),
    ("ldc_w 258", &[0x13, 0x01, 0x02], Instr::LdcW(258), Some(1)),
    ("iload 7", &[0x15, 0x07], Instr::Iload(7), Some(1)),
    ("iload_3", &[0x1d], Instr::IloadShort(3), Some(1)),
    ("iadd", &[0x60], Instr::Iadd, Some(-1)),
    ("return", &[0xb1], Instr::Return, Some(0)),
    (
        "putstatic 5",
        &[0xb3, 0x00, 0x05],
        Instr::Putstatic(5),
        None,
    ),
    (
        "invokestatic 4096",
        &[0xb8, 0x10, 0x00],
        Instr::Invokestatic(4096),
        None,
    ),
];

fn is_read(bytes: &[u8], instr: &Instr, change: Option<i8>) -> bool {
    decode(bytes, 0) == Ok((*instr, bytes.len())) && stack_effect(instr) == change
}

fn is_written(alloc: Global) -> bool {
    let mut out = Vec::new(alloc);
    let encoded = encode(&Instr::Bipush(-128), &mut out);
    encoded.is_ok() && out.as_slice() == [0x10, 0x80].as_slice()
}

fn check_rows(rows: &[Row]) -> Result<(), Fail> {
    for (name, bytes, instr, change) in rows {
        expect(is_read(bytes, instr, *change), name)?;
    }
    Ok(())
}

#[test]
fn rows_are_read_and_written(rt: HostRuntime) -> Result<(), Fail> {
    check_rows(ROWS)?;
    expect(is_written(rt.alloc()), "bipush -128 is written")
}

// A row's name, and bytes of which no instruction is read from an offset, with the error.
type Other = (&'static str, &'static [u8], usize, InstrError);

const OTHERS: &[Other] = &[
    (
        "wide is not listed",
        &[0xc4],
        0,
        InstrError::Unsupported(196),
    ),
    ("getstatic is cut", &[0xb2, 0x00], 0, InstrError::Cut),
    ("no byte is left", &[0x60], 1, InstrError::Cut),
];

fn is_refused(bytes: &[u8], at: usize, error: InstrError) -> bool {
    at <= bytes.len() && decode(bytes, at) == Err(error)
}

fn check_others(rows: &[Other]) -> Result<(), Fail> {
    for (name, bytes, at, error) in rows {
        expect(is_refused(bytes, *at, *error), name)?;
    }
    Ok(())
}

#[test]
fn others_are_refused(_rt: HostRuntime) -> Result<(), Fail> {
    check_others(OTHERS)
}
