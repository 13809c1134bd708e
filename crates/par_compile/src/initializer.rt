//! The initializer of a class, which calls that of the class above.

ghost use Rattle.std.specs.Prelude.{◌≡◌, ◌+◌, ◌<◌, ◌≤◌, [], ◌∷◌, ◌++◌, length, codes, IfOk, OnOk};
ghost use Rattle.std.specs.Prelude.{IsTrue, Bool};
ghost use Rattle.std.specs.List.{AllByRecursion};
ghost use Rattle.par_code_form.specs.Placed.{IsWritable};
ghost use Rattle.par_pool.specs.Entries.{IsMethodAt};
ghost use Rattle.par_instr.specs.Spelling.{spelling, has_spelling, IsSpelled};
ghost use Rattle.par_compile_laws.specs.Members.{above, initializer};
ghost use Rattle.par_erase.specs.Shown.{class_info};
ghost use Rattle.par_compile.specs.Growing.{Grows, Stays, IsSuperCall};
ghost use Rattle.par_compile.specs.Initializers as specs;
ghost use Rattle.par_compile.specs.Initializers.{super_attr};
ghost use Rattle.par_compile.specs.Drafts.{Puts};

use crate::access::PUBLIC;
use crate::draft::Draft;
use crate::entries;
use par_base::list::List;
use par_base::memory::NoMemory;
use par_class::CodeAttr;
use par_erase::PlainClass;
use par_instr::{Instr, encode};
use par_pool::PoolBuilder;
use std::alloc::Global;

/// The index of the initializer of the class above.
fn super_initializer(exception: bool, pool: &mut PoolBuilder) -> Result<u16, NoMemory>
    requires { length pool.old + 6 < 65535 }
    ensures grows { OnOk result (Grows (IsSuperCall exception) pool.old pool.new) }
    ensures named { IfOk result (λ index. Stays pool.new
        (λ q. IsMethodAt q index (above exception) (codes "<init>") (codes "()V"))) }
    ensures few { length pool.new ≤ length pool.old + 6 }
{
    let index = pool.method(entries::above(exception), b"<init>", b"()V")?;
    Ok(index)
}

/// One more instruction.
fn append(code: &mut Vec<u8>, instr: Instr) -> Result<(), NoMemory>
    requires { IsTrue (has_spelling instr) }
    ensures ok { OnOk result (code.new.items ≡ code.old.items ++ spelling instr) }
    ensures spelled { OnOk result (IsSpelled (spelling instr) instr) }
{
    let Ok(()) = encode(&instr, code) else {
        return Err(NoMemory);
    };
    Ok(())
}

/// Code that calls the initializer of this index on the object itself, and returns.
fn super_call(alloc: Global, index: u16) -> Result<CodeAttr, NoMemory>
    ensures is { IfOk result (λ attr. attr ≡ super_attr index) }
    ensures writable { OnOk result (AllByRecursion IsWritable (specs.super_call index)) }
{
    let mut code = Vec::new(alloc);
    append(&mut code, Instr::AloadShort(0))?;
    append(&mut code, Instr::Invokespecial(index))?;
    append(&mut code, Instr::Return)?;
    Ok(CodeAttr {
        max_stack: 1,
        max_locals: 1,
        code: List::wrap(code),
        catches: List::new(alloc),
        attributes: List::new(alloc),
    })
}

/// The initializer.
pub fn put_initializer(alloc: Global, class: &PlainClass, draft: &mut Draft) -> Result<(), NoMemory>
    requires { length draft.old.pool + 8 < 65535 }
    ensures puts { OnOk result ((frames : Bool) →
        Puts frames (initializer (class_info class.now) ∷ []) draft.old draft.new) }
    ensures few { OnOk result (length draft.new.pool ≤ length draft.old.pool + 8) }
{
    let index = super_initializer(class.exception, &mut draft.pool)?;
    let code = super_call(alloc, index)?;
    draft.put(alloc, PUBLIC, b"<init>", b"()V", Some(code))?;
    Ok(())
}
