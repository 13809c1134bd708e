//! The files of a program.

ghost use Rattle.std.specs.Prelude.{◌≡◌, ℕ, slice_get, Some, IfOk, OnOk, drop};
ghost use Rattle.std.specs.List.{All};
ghost use Rattle.par_compile_laws.specs.Files.{FIRST_DECLARED};
ghost use Rattle.par_typed.specs.Shown.{bodies};
ghost use Rattle.par_source_code_laws.specs.par_typed_laws.WellTyped.{IsWellTyped};
ghost use Rattle.par_erase.specs.Erased.{erased_table, erased_bodies};
ghost use Rattle.par_erase.specs.Named as names;
ghost use Rattle.par_erase.specs.Shown.{class_info, table_of, bodies_of};
ghost use Rattle.par_compile.specs.Own.{AreNamed, IsReady};
ghost use Rattle.par_compile.specs.Compiled.{IsCompiledClass, AreCompiled};

use crate::bytes::class_bytes;
use crate::compiled::CompiledClass;
use par_base::list::List;
use par_base::memory::NoMemory;
use par_erase::{Plain, PlainClass, erase};
use par_typed::program::Typed;
use std::alloc::Global;

/// The two exceptions that every program has are not declared.
const BUILT_IN: usize = 2;

/// The declared classes.
fn declared(plain: &Plain) -> &[PlainClass]
    ensures { result.now ≡ drop FIRST_DECLARED plain.now.classes }
{
    match plain.classes.as_slice().get(BUILT_IN..) {
        None => &[],
        Some(classes) => classes,
    }
}

/// The file of a class, under the name of the class. Want of memory is told of one that is too long
/// to be read again.
fn compiled(alloc: Global, plain: &Plain, class: &PlainClass) -> Result<CompiledClass, NoMemory>
    requires named { AreNamed plain.now }
    requires ready { IsReady plain.now class.now }
    ensures { IfOk result (λ file. (c : ℕ) → slice_get plain.now.classes c ≡ Some class.now →
        IsCompiledClass (table_of plain.now) (bodies_of plain.now) c (class_info class.now) file) }
{
    let Some(bytes) = class_bytes(alloc, plain, class)? else {
        return Err(NoMemory);
    };
    Ok(CompiledClass {
        name: class.name.copy(alloc)?,
        bytes,
    })
}

/// The files of the declared classes, in the order of the source. A file that is too long to be
/// read again, even without frames, is not handed out. That the limits of sources leave none so
/// long is not proved.
pub fn compile_plain(alloc: Global, plain: &Plain) -> Result<List<CompiledClass>, NoMemory>
    requires named { AreNamed plain.now }
    requires ready { All (IsReady plain.now) (drop FIRST_DECLARED plain.now.classes) }
    ensures { IfOk result (AreCompiled (table_of plain.now) (bodies_of plain.now)) }
{
    let classes = declared(plain);
    let mut files = List::new(alloc);
    for class in classes {
        let file = compiled(alloc, plain, class)?;
        files.push(file)?;
    }
    Ok(files)
}

/// The class files of a well-typed program: one for each declared class, in the order of the
/// source.
pub fn compile(alloc: Global, typed: &Typed) -> Result<List<CompiledClass>, NoMemory>
    requires { IsWellTyped typed.now.table (bodies typed.now.bodies) }
    ensures compiled { IfOk result (AreCompiled (erased_table typed.now.table)
        (erased_bodies typed.now.table (bodies typed.now.bodies))) }
    ensures named { OnOk result (names.AreNamed (erased_table typed.now.table)) }
{
    let plain = erase(alloc, typed)?;
    let files = compile_plain(alloc, &plain)?;
    Ok(files)
}
