//! The declared methods of a class's file, and all of its methods.

ghost use Rattle.std.specs.Prelude.{◌≡◌, ◌+◌, [], ◌∷◌, map, Some, IfOk, OnOk};
ghost use Rattle.std.specs.List.{All};
ghost use Rattle.par_compile_laws.specs.Files.{IsCodeWith};
ghost use Rattle.par_framing.specs.par_frames.Room.{HasRoom, SPARE};
ghost use Rattle.par_compile.specs.Drafts.{Puts, CodeFits, IsShort};
ghost use Rattle.par_compile.specs.Growing.{Grows, Stays, IsOneCode};
ghost use Rattle.par_compile.specs.Own.{AreNamed, IsMethodReady, code_in, method_in};
ghost use Rattle.par_compile.specs.Own.{code_entries, code_classes, methods_entries};
ghost use Rattle.par_compile.specs.Own.{methods_classes, members_entries, own_members};
ghost use Rattle.par_compile.specs.Room.{Leaves};

use crate::access::member_access;
use crate::channels::put_channels;
use crate::draft::Draft;
use crate::initializer::put_initializer;
use par_base::memory::NoMemory;
use par_class::CodeAttr;
use par_code::method::method_code;
use par_code::words::method_text;
use par_erase::{Plain, PlainClass, PlainMethod};
use par_framing::place;
use par_pool::PoolBuilder;
use std::alloc::Global;

/// The code of a method over the pool of its file, with its frames or without them.
fn placed(
    alloc: Global,
    plain: &Plain,
    method: &PlainMethod,
    pool: &mut PoolBuilder,
    frames: bool,
) -> Result<CodeAttr, NoMemory>
    requires ready { IsMethodReady plain.now method.now }
    requires room { HasRoom pool.old (code_entries frames plain.now method.now + SPARE)
        (code_classes frames plain.now method.now) }
    ensures grows { OnOk result
        (Grows (IsOneCode (code_in plain.now method.now)) pool.old pool.new) }
    ensures is { IfOk result (λ attr. Stays pool.new
        (λ q. IsCodeWith frames q (Some (code_in plain.now method.now)) (Some attr))) }
    ensures fits { IfOk result (λ attr. Stays pool.new (λ q. CodeFits q (Some attr))) }
    ensures short { IfOk result (λ attr. IsShort (Some attr)) }
    ensures left { OnOk result (Leaves (code_entries frames plain.now method.now)
        (code_classes frames plain.now method.now) pool.old pool.new) }
{
    let code = method_code(alloc, plain, method)?;
    let attribute = place(alloc, &code, pool, frames)?;
    Ok(attribute)
}

fn put_method(
    alloc: Global,
    plain: &Plain,
    method: &PlainMethod,
    draft: &mut Draft,
    frames: bool,
) -> Result<(), NoMemory>
    requires named { AreNamed plain.now }
    requires ready { IsMethodReady plain.now method.now }
    requires room { HasRoom draft.old.pool
        ((code_entries frames plain.now method.now + 2) + SPARE)
        (code_classes frames plain.now method.now) }
    ensures puts { OnOk result
        (Puts frames (method_in plain.now method.now ∷ []) draft.old draft.new) }
    ensures left { OnOk result (Leaves (code_entries frames plain.now method.now + 2)
        (code_classes frames plain.now method.now) draft.old.pool draft.new.pool) }
{
    let kind = method_text(alloc, plain, method)?;
    let code = placed(alloc, plain, method, &mut draft.pool, frames)?;
    let access = member_access(method.is_static);
    draft.put(
        alloc,
        access,
        method.name.bytes(),
        kind.as_slice(),
        Some(code),
    )?;
    Ok(())
}

/// The declared methods.
fn put_methods(
    alloc: Global,
    plain: &Plain,
    methods: &[PlainMethod],
    draft: &mut Draft,
    frames: bool,
) -> Result<(), NoMemory>
    requires named { AreNamed plain.now }
    requires ready { All (IsMethodReady plain.now) methods.now }
    requires room { HasRoom draft.old.pool (methods_entries frames plain.now methods.now)
        (methods_classes frames plain.now methods.now) }
    ensures { OnOk result
        (Puts frames (map (method_in plain.now) methods.now) draft.old draft.new) }
{
    for method in methods {
        put_method(alloc, plain, method, draft, frames)?;
    }
    Ok(())
}

/// All methods of a class's file: the initializer, the channels and the declared methods.
pub fn put_members(
    alloc: Global,
    plain: &Plain,
    class: &PlainClass,
    draft: &mut Draft,
    frames: bool,
) -> Result<(), NoMemory>
    requires named { AreNamed plain.now }
    requires ready { All (IsMethodReady plain.now) class.now.methods }
    requires room { HasRoom draft.old.pool (members_entries frames plain.now class.now)
        (methods_classes frames plain.now class.now.methods) }
    ensures { OnOk result (Puts frames (own_members plain.now class.now) draft.old draft.new) }
{
    put_initializer(alloc, class, draft)?;
    put_channels(alloc, class.inputs.as_slice(), true, draft)?;
    put_channels(alloc, class.outputs.as_slice(), false, draft)?;
    put_methods(alloc, plain, class.methods.as_slice(), draft, frames)?;
    Ok(())
}
