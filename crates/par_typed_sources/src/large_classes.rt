//! Sources of many classes, and of classes whose methods are about as long as they may be.

use std::alloc::AllocError;

const PARAMETERS: &[u8] = b"int n, boolean b1, boolean b2, boolean b3, boolean b4, boolean b5, \
    boolean b6, boolean b7, boolean b8, boolean b9, boolean b10, boolean b11, boolean b12, \
    boolean b13, boolean b14, boolean b15";

/// As many classes as a program may have, of which the first and the last have names of their own.
pub fn put_classes(source: &mut Vec<u8>) -> Result<(), AllocError> {
    source.extend_from_slice(b"class Shop { static void main() { } }\n")?;
    for first in b"abcdefg" {
        for second in b"abcdefghijklmnopqr" {
            put_class(source, *first, *second)?;
        }
    }
    source.extend_from_slice(b"class Last { }\n")
}

fn put_class(source: &mut Vec<u8>, first: u8, second: u8) -> Result<(), AllocError> {
    source.extend_from_slice(b"class K")?;
    source.extend_from_slice(&[first, second])?;
    source.extend_from_slice(b" { }\n")
}

/// A loop of 31 statements, each of which turns a value 60 times: 1,929 nodes, most of which have
/// as much code as any node has.
pub fn put_loop(source: &mut Vec<u8>) -> Result<(), AllocError> {
    source.extend_from_slice(b"class Shop { static void main() {")?;
    source.extend_from_slice(b"boolean b = false; while (b) {\n")?;
    for _ in 0..31u32 {
        put_turns(source)?;
    }
    source.extend_from_slice(b"} } }\n")
}

fn put_turns(source: &mut Vec<u8>) -> Result<(), AllocError> {
    source.extend_from_slice(b"b = ")?;
    for _ in 0..60u32 {
        source.push(b'!')?;
    }
    source.extend_from_slice(b"b;\n")
}

/// A class of four methods of 200 locals, each of which calls a method of 16 arguments 33 times.
pub fn put_big(source: &mut Vec<u8>) -> Result<(), AllocError> {
    source.extend_from_slice(b"class Big { static void f(")?;
    source.extend_from_slice(PARAMETERS)?;
    source.extend_from_slice(b") { }\n")?;
    for digit in b"1234" {
        put_method(source, *digit)?;
    }
    source.extend_from_slice(b"}\n")
}

fn put_method(source: &mut Vec<u8>, digit: u8) -> Result<(), AllocError> {
    source.extend_from_slice(b"static void g")?;
    source.push(digit)?;
    source.extend_from_slice(b"() {\n")?;
    put_locals(source)?;
    for _ in 0..33u32 {
        put_call(source)?;
    }
    source.extend_from_slice(b"}\n")
}

fn put_locals(source: &mut Vec<u8>) -> Result<(), AllocError> {
    for letter in b"abcdefghij" {
        for tens in b"0123456789" {
            put_local(source, *letter, *tens, b'a')?;
            put_local(source, *letter, *tens, b'b')?;
        }
    }
    Ok(())
}

fn put_local(source: &mut Vec<u8>, letter: u8, digit: u8, last: u8) -> Result<(), AllocError> {
    source.extend_from_slice(b"Big ")?;
    source.extend_from_slice(&[letter, digit, last])?;
    source.extend_from_slice(b" = null;\n")
}

fn put_call(source: &mut Vec<u8>) -> Result<(), AllocError> {
    source.extend_from_slice(b"f(1")?;
    for _ in 0..15u32 {
        source.extend_from_slice(b", 2 < 3")?;
    }
    source.extend_from_slice(b");\n")
}

// A method with nearly as many nodes as it may have, most of them objects.
fn put_crowd(source: &mut Vec<u8>, name: u8) -> Result<(), AllocError> {
    source.extend_from_slice(b"static void ")?;
    source.push(name)?;
    source.extend_from_slice(b"() {")?;
    for _ in 0..110u32 {
        put_objects(source)?;
    }
    source.extend_from_slice(b"}\n")
}

/// A class of four such methods.
pub fn put_crowded(source: &mut Vec<u8>) -> Result<(), AllocError> {
    source.extend_from_slice(b"class A { } class Big { static void f(A a, A b, A c, A d, A e")?;
    source.extend_from_slice(b", A g, A h, A i, A j, A k, A l, A m, A n, A o, A p, A q) { }\n")?;
    for name in b"wxyz" {
        put_crowd(source, *name)?;
    }
    source.extend_from_slice(b"} class Shop { static void main() { Big.w(); } }")
}

fn put_objects(source: &mut Vec<u8>) -> Result<(), AllocError> {
    source.extend_from_slice(b"f(new A()")?;
    for _ in 0..15u32 {
        source.extend_from_slice(b", new A()")?;
    }
    source.extend_from_slice(b");\n")
}
