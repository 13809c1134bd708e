//! A program whose files have both versions: one of its classes has too many frames for the later.

use par_io::NoMemory;
use par_row_calls::{Answer, KEY_42, answers, compiled, with_lines};
use par_worked::expect;
use std::alloc::Global;
use std::test::Fail;

const VERIFIED: Answer = ("verified 2\n", 0);

/// The methods of 200 locals, each of which calls one of 16 arguments 33 times.
const METHODS: &str = "1234";

const CALLS: u32 = 33;

const MORE_ARGUMENTS: u32 = 15;

/// Puts the head of the method that is called behind a source.
fn put_head(source: &mut String) -> Result<(), NoMemory> {
    source.push_str("class Big {\nstatic void f(int n")?;
    for digit in "123456789".chars() {
        source.push_str(", boolean b")?;
        source.push(digit)?;
    }
    for digit in "012345".chars() {
        source.push_str(", boolean b1")?;
        source.push(digit)?;
    }
    source.push_str(") { }\n")?;
    Ok(())
}

/// Puts 200 locals behind a source.
fn put_locals(source: &mut String) -> Result<(), NoMemory> {
    for letter in "abcdefghijklmnopqrst".chars() {
        for digit in "0123456789".chars() {
            source.push_str("Big ")?;
            source.push(letter)?;
            source.push('x')?;
            source.push(digit)?;
            source.push_str(" = null;\n")?;
        }
    }
    Ok(())
}

/// Puts a call behind a source.
fn put_call(source: &mut String) -> Result<(), NoMemory> {
    source.push_str("f(1")?;
    for _ in 0..MORE_ARGUMENTS {
        source.push_str(", 2 < 3")?;
    }
    source.push_str(");\n")?;
    Ok(())
}

/// Puts a method behind a source.
fn put_method(source: &mut String, digit: char) -> Result<(), NoMemory> {
    source.push_str("static void g")?;
    source.push(digit)?;
    source.push_str("() {\n")?;
    put_locals(source)?;
    for _ in 0..CALLS {
        put_call(source)?;
    }
    source.push_str("}\n")?;
    Ok(())
}

/// The source of a small class and of a large one.
fn small_and_large(alloc: Global) -> Result<String, NoMemory> {
    let mut source = with_lines(alloc, &[(8, "Big.g1();")])?;
    put_head(&mut source)?;
    for digit in METHODS.chars() {
        put_method(&mut source, digit)?;
    }
    source.push_str("}\n")?;
    Ok(source)
}

/// Whether files of both versions are verified.
fn both_are_verified(alloc: Global) -> Result<bool, NoMemory> {
    let source = small_and_large(alloc)?;
    let mut folder = compiled(alloc, source.as_str(), KEY_42)?;
    answers(alloc, "paragon --verify Shop", &mut folder, VERIFIED)
}

#[test]
fn files_of_both_versions_are_verified(rt: HostRuntime) -> Result<(), Fail> {
    expect(both_are_verified(rt.alloc())?, "two files")
}
