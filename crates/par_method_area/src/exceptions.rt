//! Which classes are those of exceptions.

ghost use Rattle.std.specs.Prelude.{◌≡◌, map, IfOk};
ghost use Rattle.par_step_laws.specs.Classes.{is_exception};
ghost use Rattle.par_method_area.specs.Classes.{exception_flags};

use par_base::list::List;
use par_base::memory::NoMemory;
use par_class::file::ClassFile;
use par_single::member::class_name_at;
use std::alloc::Global;

/// Whether the class of a file is one of exceptions.
fn is_exception(file: &ClassFile) -> bool
    ensures { result ≡ is_exception file.now }
{
    let entries = file.pool.entries.as_slice();
    class_name_at(entries, file.super_class) == b"java/lang/Exception".as_slice()
}

/// Of the class of each file whether it is one of exceptions.
fn file_flags(alloc: Global, files: &[ClassFile]) -> Result<List<bool>, NoMemory>
    ensures { IfOk result (λ flags. flags ≡ map is_exception files.now) }
{
    let mut flags = List::new(alloc);
    for file in files {
        flags.push(is_exception(file))?;
    }
    Ok(flags)
}

/// Of each class whether it is one of exceptions, as the last two are.
pub(crate) fn exception_flags(alloc: Global, files: &[ClassFile]) -> Result<List<bool>, NoMemory>
    ensures { IfOk result (λ flags. flags ≡ exception_flags files.now) }
{
    let mut flags = file_flags(alloc, files)?;
    flags.push(true)?;
    flags.push(true)?;
    Ok(flags)
}
