//! What the files of a program hold, and what they do not hold.

use crate::sources::{bytes_at, file_at, files_of, first_file};
use par_compile::CompiledClass;
use par_pool::Constant;
use par_worked::expect;
use std::alloc::Global;
use std::rt::HostRuntime;
use std::test::Fail;

const SOURCE: &[u8] = b"actor alice;
lock Shown ?bottom;
class Bad extends Exception { }
class Item { int f; Item me() { return this; } int take(int n) { return n; } }
class Shop {
  input int key();
  output void show(int v);
  static int got;
  static Item item;
  static boolean is(boolean a, Item b, int c) { return a && c < 70000; }
  static void main() {
    open Shown;
    item = new Item();
    try {
      while (got < 3) { got = got + key(); if (got == 2) { throw new Bad(); } }
    } catch (Bad e) {
      when (Shown) { show(item.me().take(100000)); } else { show(-7); }
    }
  }
}
";

// The files are those of the three classes, and of so many methods.
const METHODS: &[usize] = &[1, 3, 5];

// Whether the file at a place has the version 51 and so many methods.
fn has_methods(
    alloc: Global,
    files: &[CompiledClass],
    place: usize,
    count: usize,
) -> Result<bool, Fail> {
    let read = file_at(alloc, files, place)?;
    let has_these = read.major == 51 && read.methods.len() == count;
    drop(read);
    Ok(has_these)
}

fn check_files(alloc: Global, files: &[CompiledClass], methods: &[usize]) -> Result<(), Fail> {
    expect(files.len() == methods.len(), "a file for each class")?;
    for (place, count) in methods.iter().enumerate() {
        let is_so = has_methods(alloc, files, place, *count)?;
        expect(is_so, "the version and the methods")?;
    }
    Ok(())
}

#[test]
fn files_of_a_program_are_read(rt: HostRuntime) -> Result<(), Fail> {
    let files = files_of(rt.alloc(), SOURCE)?;
    let checked = check_files(rt.alloc(), files.as_slice(), METHODS);
    drop(files);
    checked
}

// Two sources that differ in policies and locks alone.
const GUARDED: &[u8] = b"actor alice, bob;
lock Paid;
class Shop {
?{alice:; bob: Paid} input int key();
?{alice:; bob:} output void show(int v);
?{alice:; bob:} static int got;
static void main() !bottom {
open Paid; show(key());
}
}
";

const OPEN: &[u8] = b"actor alice, bob;
lock Paid;
class Shop {
?{alice:; bob:} input int key();
?{alice:; bob:} output void show(int v);
?{alice:; bob:} static int got;
static void main() !bottom {
{ } show(key());
}
}
";

// Whether a constant is this text.
fn spells(constant: &Constant, text: &[u8]) -> bool {
    match constant {
        Constant::Utf8(bytes) => bytes.as_slice() == text,
        _ => false,
    }
}

fn is_secret(constant: &Constant) -> bool {
    spells(constant, b"alice") || spells(constant, b"bob") || spells(constant, b"Paid")
}

fn has_secret(constants: &[Constant]) -> bool {
    for constant in constants {
        if is_secret(constant) {
            return true;
        }
    }
    false
}

#[test]
fn no_entry_spells_an_actor_or_a_lock(rt: HostRuntime) -> Result<(), Fail> {
    let read = first_file(rt.alloc(), GUARDED)?;
    let secret = has_secret(read.pool.entries.as_slice());
    drop(read);
    expect(!secret, "an actor or a lock")
}

fn begins_with(files: &[CompiledClass], bytes: &[u8]) -> Result<bool, Fail> {
    Ok(bytes_at(files, 0)? == bytes)
}

// Whether the first file of a source has these bytes.
fn has_bytes(alloc: Global, source: &[u8], bytes: &[u8]) -> Result<bool, Fail> {
    let files = files_of(alloc, source)?;
    let has_these = begins_with(files.as_slice(), bytes);
    drop(files);
    has_these
}

// Whether the first file of a source is the first of these.
fn begins_again(alloc: Global, files: &[CompiledClass], source: &[u8]) -> Result<bool, Fail> {
    has_bytes(alloc, source, bytes_at(files, 0)?)
}

// Whether the first file of a source is that of the guarded one.
fn is_guarded_again(alloc: Global, source: &[u8]) -> Result<bool, Fail> {
    let guarded = files_of(alloc, GUARDED)?;
    let is_again = begins_again(alloc, guarded.as_slice(), source);
    drop(guarded);
    is_again
}

#[test]
fn files_are_the_same_again(rt: HostRuntime) -> Result<(), Fail> {
    expect(is_guarded_again(rt.alloc(), GUARDED)?, "a second time")?;
    expect(
        is_guarded_again(rt.alloc(), OPEN)?,
        "other policies and locks",
    )
}
