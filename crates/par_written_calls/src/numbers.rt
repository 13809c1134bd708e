//! How numbers and locals stand in code.

ghost use Rattle.std.specs.Prelude.{◌<◌, length};

use crate::sources::first_file;
use par_class::ClassFile;
use par_worked::expect;
use std::alloc::Global;
use std::rt::HostRuntime;
use std::test::Fail;

// The code of the last method of the last of two files is that of `main`.
const BEFORE: &[u8] = b"class Shop { output void show(int v); static void main() {\n";

const BEHIND: &[u8] = b"\n} }\n";

/// A body, and the bytes with which its code begins.
struct Row {
    body: &'static [u8],
    begins: &'static [u8],
}

const ROWS: &[Row] = &[
    Row {
        body: b"show(-1);",
        begins: &[0x02],
    },
    Row {
        body: b"show(5);",
        begins: &[0x08],
    },
    Row {
        body: b"show(6);",
        begins: &[0x10, 0x06],
    },
    Row {
        body: b"show(127);",
        begins: &[0x10, 0x7f],
    },
    Row {
        body: b"show(128);",
        begins: &[0x11, 0x00, 0x80],
    },
    Row {
        body: b"show(32767);",
        begins: &[0x11, 0x7f, 0xff],
    },
    Row {
        body: b"show(32768);",
        begins: &[0x12],
    },
    Row {
        body: b"int a = 0; int b = 0; int c = 0; int d = 0; int e = 0;",
        begins: &[
            0x03, 0x3b, 0x03, 0x3c, 0x03, 0x3d, 0x03, 0x3e, 0x03, 0x36, 0x04,
        ],
    },
];

// The code of the last method of a file.
fn last_code(file: &ClassFile) -> Result<&[u8], Fail> {
    let Some(method) = file.methods.as_slice().last() else {
        return Err(Fail::new("no method"));
    };
    match &method.code {
        None => Err(Fail::new("no code")),
        Some(code) => Ok(code.code.as_slice()),
    }
}

fn with_body(alloc: Global, body: &[u8]) -> Result<ClassFile, Fail> {
    let mut source = Vec::from_slice(alloc, BEFORE)?;
    source.extend_from_slice(body)?;
    source.extend_from_slice(BEHIND)?;
    first_file(alloc, source.as_slice())
}

fn begins(file: &ClassFile, bytes: &[u8]) -> Result<(), Fail> {
    let code = last_code(file)?;
    expect(code.get(..bytes.len()) == Some(bytes), "the code")
}

fn check_row(alloc: Global, row: &Row) -> Result<(), Fail> {
    let file = with_body(alloc, row.body)?;
    let checked = begins(&file, row.begins);
    drop(file);
    checked
}

fn check_rows(alloc: Global, rows: &[Row]) -> Result<(), Fail> {
    for row in rows {
        check_row(alloc, row)?;
    }
    Ok(())
}

#[test]
fn numbers_and_locals_have_short_forms(rt: HostRuntime) -> Result<(), Fail> {
    check_rows(rt.alloc(), ROWS)
}

const DIGITS: &[u8] = b"0123456789";

fn put_show(source: &mut Vec<u8>, digits: &[u8]) -> Result<(), Fail> {
    source.extend_from_slice(b"show(100")?;
    source.extend_from_slice(digits)?;
    source.extend_from_slice(b");\n")?;
    Ok(())
}

fn put_hundred(source: &mut Vec<u8>, first: u8) -> Result<(), Fail> {
    for second in DIGITS {
        for third in DIGITS {
            put_show(source, &[first, *second, *third])?;
        }
    }
    Ok(())
}

// Three hundred different numbers beyond 16 bits, put out one after the other.
fn put_numbers(source: &mut Vec<u8>) -> Result<(), Fail> {
    source.extend_from_slice(BEFORE)?;
    for first in b"123" {
        put_hundred(source, *first)?;
    }
    source.extend_from_slice(BEHIND)?;
    Ok(())
}

// Whether these bytes stand in the code one behind the other.
fn contains(code: &[u8], bytes: &[u8]) -> bool
    requires { 0 < length bytes.now }
{
    code.windows(bytes.len()).any(|part| part == bytes)
}

fn of_many_numbers(alloc: Global) -> Result<ClassFile, Fail> {
    let mut source = Vec::new(alloc);
    put_numbers(&mut source)?;
    first_file(alloc, source.as_slice())
}

fn check_indices(file: &ClassFile) -> Result<(), Fail> {
    let code = last_code(file)?;
    expect(contains(code, &[0x12, 0xff, 0xb8]), "ldc at 255")?;
    expect(contains(code, &[0x13, 0x01, 0x00, 0xb8]), "ldc_w at 256")
}

#[test]
fn an_index_beyond_255_takes_two_bytes(rt: HostRuntime) -> Result<(), Fail> {
    let file = of_many_numbers(rt.alloc())?;
    let checked = check_indices(&file);
    drop(file);
    checked
}
