//! How many arguments the descriptors of methods have, counted once for each text of a constant
//! pool, however many methods share it.

ghost use Rattle.std.specs.Prelude.{◌≡◌, ◌<◌, ◌≤◌, ◌^◌, Some, length, IfOk, IfSome};
ghost use Rattle.std.specs.List.{All};
ghost use Rattle.par_single.specs.Descriptors.{kinds_at};
ghost use Rattle.par_single.specs.Members.{text_of};
ghost use Rattle.par_given_frames.specs.Takes.{takes_many, IsFew, AreCounts, count_in, given_in};

use par_base::list::List;
use par_base::memory::NoMemory;
use par_class::file::MethodFile;
use par_pool::constant::Constant;
use par_single::descriptor::{kind_at, method_gives};
use par_single::member::is_static;
use std::alloc::Global;

/// The number of the kinds that a text begins with, where `)` ends them.
fn kinds_counted(text: &[u8]) -> usize
    ensures many { IfSome (kinds_at text.now) (λ found. result ≡ length found.0) }
    ensures few { result ≤ length text.now }
{
    let mut many = 0;
    let mut rest = text;
    while let Some((_, behind)) = kind_at(rest) {
        many += 1;
        rest = behind;
    }
    many
}

/// The number of the arguments that a text says.
fn arguments_counted(text: &[u8]) -> usize
    ensures many { result ≡ takes_many text.now }
    ensures few { IsFew result }
{
    match method_gives(text) {
        Some(_) => kinds_counted(&text[1..]),
        None => 0,
    }
}

/// The number of the arguments that the text of a constant says.
fn constant_counted(constant: &Constant) -> usize
    ensures many { result ≡ takes_many (text_of (Some constant.now)) }
    ensures few { IsFew result }
{
    match constant {
        Constant::Utf8(text) => arguments_counted(text.as_slice()),
        _ => 0,
    }
}

/// The numbers of the arguments that the texts of a constant pool say, by their indices.
pub(crate) fn argument_counts(alloc: Global, entries: &[Constant]) -> Result<List<usize>, NoMemory>
    ensures { IfOk result (AreCounts entries.now) }
{
    let mut counts = List::new(alloc);
    counts.push(0)?;
    for constant in entries {
        counts.push(constant_counted(constant))?;
    }
    Ok(counts)
}

/// The number of the arguments of the descriptor that has this index.
fn count_at(counts: &[usize], index: u16) -> usize
    requires { All IsFew counts.now }
    ensures many { result ≡ count_in counts.now index }
    ensures few { IsFew result }
{
    match counts.get(index as usize) {
        Some(many) => *many,
        None => 0,
    }
}

/// The number of the receiver and the arguments of a method.
pub(crate) fn many_given(counts: &[usize], m: &MethodFile) -> usize
    requires { All IsFew counts.now }
    ensures many { result ≡ given_in counts.now m.now }
    ensures few { result < 2 ^ 63 }
{
    let arguments = count_at(counts, m.descriptor);
    if is_static(m.access) {
        arguments
    } else {
        arguments + 1
    }
}
