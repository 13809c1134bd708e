//! The most classes that a program may have, and code about as long as a method may have.

use crate::sources::{files_of, first_file};
use par_class::ClassFile;
use par_compile::CompiledClass;
use par_lexer::list::List;
use par_typed_sources::large_classes::{put_classes, put_loop};
use par_worked::expect;
use std::alloc::Global;
use std::rt::HostRuntime;
use std::test::Fail;

// 128 classes, of which the first and the last have names of their own.
fn many(alloc: Global) -> Result<List<CompiledClass>, Fail> {
    let mut source = Vec::new(alloc);
    put_classes(&mut source)?;
    files_of(alloc, source.as_slice())
}

fn expect_name(files: &[CompiledClass], place: usize, name: &[u8]) -> Result<(), Fail> {
    match files.get(place) {
        None => Err(Fail::new("too few files")),
        Some(file) => expect(file.name.bytes() == name, "the name of a file"),
    }
}

fn check_names(files: &[CompiledClass]) -> Result<(), Fail> {
    expect(files.len() == 128, "128 files")?;
    expect_name(files, 0, b"Shop")?;
    expect_name(files, 1, b"Kaa")?;
    expect_name(files, 127, b"Last")
}

#[test]
fn each_of_128_classes_has_a_file(rt: HostRuntime) -> Result<(), Fail> {
    let files = many(rt.alloc())?;
    let checked = check_names(files.as_slice());
    drop(files);
    checked
}

// Each turn has 8 bytes, and each statement two more.
fn long_file(alloc: Global) -> Result<ClassFile, Fail> {
    let mut source = Vec::new(alloc);
    put_loop(&mut source)?;
    first_file(alloc, source.as_slice())
}

// The code of the method behind the initializer.
fn second_code(file: &ClassFile) -> Option<&[u8]> {
    let method = file.methods.get(1)?;
    match &method.code {
        Some(attribute) => Some(attribute.code.as_slice()),
        None => None,
    }
}

const OUT: &[u8] = &[0x99, 0x3a, 0x64];

const AGAIN: &[u8] = &[0xa7, 0xc5, 0x9e];

fn check_branches(code: &[u8]) -> Result<(), Fail> {
    expect(code.len() == 14_952, "the bytes of the code")?;
    let is_left = code.get(3..6) == Some(OUT);
    expect(is_left, "out of the loop, by 14,948 bytes")?;
    let comes_again = code.get(14_948..14_951) == Some(AGAIN);
    expect(comes_again, "again, by 14,946 bytes back")
}

fn check_long(file: &ClassFile) -> Result<(), Fail> {
    match second_code(file) {
        Some(code) => check_branches(code),
        None => Err(Fail::new("a method without code")),
    }
}

#[test]
fn long_code_branches_far(rt: HostRuntime) -> Result<(), Fail> {
    let file = long_file(rt.alloc())?;
    let checked = check_long(&file);
    drop(file);
    checked
}
