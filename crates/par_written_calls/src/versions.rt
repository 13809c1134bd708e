//! The versions of files: 51 with frames, 49 where those would be too long.

use crate::sources::{bytes_at, file_at, files_of};
use par_class::LONGEST_CLASS;
use par_compile::CompiledClass;
use par_lexer::list::List;
use par_typed_sources::large_classes::{put_big, put_crowded};
use par_worked::expect;
use std::alloc::Global;
use std::rt::HostRuntime;
use std::test::Fail;

const SHOP: &[u8] = b"actor alice, bob;
lock Paid;
class Shop {
?{alice:; bob: Paid} input int key();
?{alice:; bob:} output void show(int v);
?{alice:; bob:} static int got;
static void main() !bottom {
";

const BEHIND: &[u8] = b"
}
}
";

fn with_body(alloc: Global, body: &[u8]) -> Result<Vec<u8>, Fail> {
    let mut source = Vec::from_slice(alloc, SHOP)?;
    source.extend_from_slice(body)?;
    source.extend_from_slice(BEHIND)?;
    Ok(source)
}

fn files_with_body(alloc: Global, body: &[u8]) -> Result<List<CompiledClass>, Fail> {
    let source = with_body(alloc, body)?;
    let files = files_of(alloc, source.as_slice());
    drop(source);
    files
}

fn check_version(files: &[CompiledClass]) -> Result<(), Fail> {
    let bytes = bytes_at(files, 0)?;
    expect(
        bytes.get(6..8) == Some([0x00, 0x33].as_slice()),
        "51 at offset 6",
    )
}

#[test]
fn a_file_begins_with_its_version(rt: HostRuntime) -> Result<(), Fail> {
    let files = files_with_body(rt.alloc(), b"open Paid; show(key());")?;
    let checked = check_version(files.as_slice());
    drop(files);
    checked
}

// The files of a small class and of one of many frames.
fn small_and_big(alloc: Global) -> Result<List<CompiledClass>, Fail> {
    let mut source = with_body(alloc, b"Big.g1();")?;
    put_big(&mut source)?;
    files_of(alloc, source.as_slice())
}

fn version_at(alloc: Global, files: &[CompiledClass], place: usize) -> Result<u16, Fail> {
    let read = file_at(alloc, files, place)?;
    let major = read.major;
    drop(read);
    Ok(major)
}

fn are_short(files: &[CompiledClass]) -> bool {
    files.iter().all(|file| file.bytes.len() <= LONGEST_CLASS)
}

fn check_versions(alloc: Global, files: &[CompiledClass]) -> Result<(), Fail> {
    expect(files.len() == 2, "two files")?;
    let small = version_at(alloc, files, 0)?;
    expect(small == 51, "the version of the small class")?;
    let large = version_at(alloc, files, 1)?;
    expect(large == 49, "the version of the large class")?;
    expect(are_short(files), "short files")
}

#[test]
fn a_class_of_many_frames_has_none(rt: HostRuntime) -> Result<(), Fail> {
    let files = small_and_big(rt.alloc())?;
    let checked = check_versions(rt.alloc(), files.as_slice());
    drop(files);
    checked
}

fn crowded(alloc: Global) -> Result<List<CompiledClass>, Fail> {
    let mut source = Vec::new(alloc);
    put_crowded(&mut source)?;
    files_of(alloc, source.as_slice())
}

fn check_crowded(alloc: Global, files: &[CompiledClass]) -> Result<(), Fail> {
    expect(files.len() == 3, "three files")?;
    let big = file_at(alloc, files, 1)?;
    let methods = big.methods.len();
    drop(big);
    expect(methods == 6, "the methods")
}

#[test]
fn a_crowded_class_has_a_file(rt: HostRuntime) -> Result<(), Fail> {
    let files = crowded(rt.alloc())?;
    let checked = check_crowded(rt.alloc(), files.as_slice());
    drop(files);
    checked
}
