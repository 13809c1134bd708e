//! The names of the exception classes.

ghost use Rattle.std.specs.Prelude.{◌≡◌, ◌++◌, IfOk};
ghost use Rattle.par_step_laws.specs.Classes.{is_exception};
ghost use Rattle.par_kinds.specs.Linked.{exception_names};
ghost use Rattle.par_frame_steps.specs.Marks.{names};
ghost use Rattle.par_verify.specs.Starts.{named_in};

use par_base::memory::NoMemory;
use par_class::file::ClassFile;
use par_link::Linked;
use par_single::member::{class_name_at, own_name};
use std::alloc::Global;

/// Whether the class of a file is one of exceptions.
fn is_exception(file: &ClassFile) -> bool
    ensures { result ≡ is_exception file.now }
{
    class_name_at(file.pool.entries.as_slice(), file.super_class)
        == b"java/lang/Exception".as_slice()
}

/// Names, and behind them that of the class of a file, if it is one of exceptions.
fn with_name<'f>(begun: Vec<&'f [u8]>, file: &'f ClassFile) -> Result<Vec<&'f [u8]>, NoMemory>
    ensures { IfOk result (λ all.
        names all.items ≡ names begun.entry.items ++ named_in file.entry.now) }
{
    let mut all = begun;
    if is_exception(file) {
        all.push(own_name(file))?;
    }
    Ok(all)
}

/// The names of the exception classes of linked files, files in their order.
pub(crate) fn exception_names<'f>(
    alloc: Global,
    linked: &'f Linked,
) -> Result<Vec<&'f [u8]>, NoMemory>
    ensures { IfOk result (λ all. names all.items ≡ exception_names linked.entry.now) }
{
    let mut all = Vec::new(alloc);
    for file in linked.files() {
        all = with_name(all, file)?;
    }
    all.push(b"ArithmeticException".as_slice())?;
    all.push(b"NullPointerException".as_slice())?;
    Ok(all)
}
