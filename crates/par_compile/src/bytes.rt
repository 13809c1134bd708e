//! The bytes of a class's file.

ghost use Rattle.std.specs.Prelude.{◌≡◌, ◌<◌, ◌≤◌, ℕ, false, true, length, IfOk, MatchOption};
ghost use Rattle.std.specs.Prelude.{List as Items};
ghost use Rattle.std.specs.List.{list_any};
ghost use Rattle.par_class.specs.Spelling.{Spells};
ghost use Rattle.par_compile_laws.specs.Files.{written};
ghost use Rattle.par_erase.specs.Shown.{class_info, table_of};
ghost use Rattle.par_compile.specs.Own.{AreNamed, IsReady, own_members};
ghost use Rattle.par_compile.specs.Whole as whole;
ghost use Rattle.par_compile.specs.Whole.{IsShortFile, IsLongFile, AreOwnBytes, IsFirstMade};

use crate::class::class_file;
use par_base::list::List;
use par_base::memory::NoMemory;
use par_class::{Attribute, ClassFile, LONGEST_CLASS, MethodFile, write_class};
use par_erase::{Plain, PlainClass};
use std::alloc::Global;

/// Whether one of these is longer than a class file may be.
fn any_long(attributes: &[Attribute]) -> bool
    ensures { result ≡ whole.any_long attributes.now }
{
    attributes
        .iter()
        .any(|attribute| attribute.bytes.len() > LONGEST_CLASS)
}

/// Whether an attribute of a method's code is.
fn has_long_attribute(method: &MethodFile) -> bool
    ensures { result ≡ whole.has_long_attribute method.now.code }
{
    match &method.code {
        None => false,
        Some(attr) => any_long(attr.attributes.as_slice()),
    }
}

/// Whether one of the methods has such code.
fn has_long_code(methods: &[MethodFile]) -> bool
    ensures { result ≡ whole.has_long_code methods.now }
{
    methods.iter().any(|method| has_long_attribute(method))
}

/// The bytes of a file; none where they are too many to be read again.
fn short_bytes(alloc: Global, file: &ClassFile) -> Result<Option<List<u8>>, NoMemory>
    requires { whole.has_long_code file.now.methods ≡ false →
        (bytes : Items ℕ) × Spells bytes file.now }
    ensures { IfOk result (λ found. MatchOption found
        (LONGEST_CLASS < length (written file.now))
        (λ bytes. Spells bytes file.now × (length bytes ≤ LONGEST_CLASS))) }
{
    let long = has_long_code(file.methods.as_slice());
    if long {
        return Ok(None);
    }
    let bytes = List::wrap(write_class(alloc, file)?);
    if bytes.len() > LONGEST_CLASS {
        return Ok(None);
    }
    Ok(Some(bytes))
}

/// The bytes of a file with frames or without them; none where they are too many to be read again.
fn file_bytes(
    alloc: Global,
    plain: &Plain,
    class: &PlainClass,
    frames: bool,
) -> Result<Option<List<u8>>, NoMemory>
    requires named { AreNamed plain.now }
    requires ready { IsReady plain.now class.now }
    ensures { IfOk result (λ found. MatchOption found
        (IsLongFile frames (table_of plain.now) (class_info class.now)
        (own_members plain.now class.now))
        (IsShortFile frames (table_of plain.now) (class_info class.now)
        (own_members plain.now class.now))) }
{
    let file = class_file(alloc, plain, class, frames)?;
    let bytes = short_bytes(alloc, &file);
    drop(file);
    bytes
}

/// What is made with frames, or without them where nothing is made with them.
///
/// It cannot give up: no error can be made here but by what makes.
fn with_or_without<E: Drop, F: Fn(bool) -> Result<Option<List<u8>>, E>>(
    make: F,
) -> Result<Option<List<u8>>, E>
    requires { F.IsAlwaysCallable make }
    ensures { IsFirstMade (F.post make) result }
{
    if let Some(bytes) = make(true)? {
        return Ok(Some(bytes));
    }
    make(false)
}

/// The bytes of the file of a class: with frames where these are few enough to be read again. None
/// where it is too long even without frames.
pub fn class_bytes(
    alloc: Global,
    plain: &Plain,
    class: &PlainClass,
) -> Result<Option<List<u8>>, NoMemory>
    requires named { AreNamed plain.now }
    requires ready { IsReady plain.now class.now }
    ensures { IfOk result (AreOwnBytes (table_of plain.now) (class_info class.now)
        (own_members plain.now class.now)) }
{
    with_or_without(|frames| file_bytes(alloc, plain, class, frames))
}
