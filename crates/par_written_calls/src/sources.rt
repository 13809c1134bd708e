//! Sources of tests, and their files.

use par_class::{ClassFile, LONGEST_CLASS, read_class};
use par_compile::{CompiledClass, compile};
use par_lexer::list::List;
use par_typed_sources::typed;
use std::alloc::Global;
use std::test::Fail;

/// The class files of a source.
pub fn files_of(alloc: Global, source: &[u8]) -> Result<List<CompiledClass>, Fail> {
    let typed = typed(alloc, source)?;
    let files = compile(alloc, &typed);
    drop(typed);
    Ok(files?)
}

/// The bytes of the file at a place.
pub fn bytes_at(files: &[CompiledClass], place: usize) -> Result<&[u8], Fail> {
    match files.get(place) {
        None => Err(Fail::new("too few files")),
        Some(file) => Ok(file.bytes.as_slice()),
    }
}

/// The first file of a source, read again.
pub fn first_file(alloc: Global, source: &[u8]) -> Result<ClassFile, Fail> {
    let files = files_of(alloc, source)?;
    let first = file_at(alloc, files.as_slice(), 0);
    drop(files);
    first
}

/// The file at a place, read again.
pub fn file_at(alloc: Global, files: &[CompiledClass], place: usize) -> Result<ClassFile, Fail> {
    let bytes = bytes_at(files, place)?;
    if bytes.len() > LONGEST_CLASS {
        return Err(Fail::new("a long file"));
    }
    Ok(read_class(alloc, bytes)?)
}
