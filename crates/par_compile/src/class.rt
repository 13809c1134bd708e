//! The file of a class.

ghost use Rattle.std.specs.Prelude.{◌≡◌, [], IfOk};
ghost use Rattle.par_compile_laws.specs.Files as files;
ghost use Rattle.par_erase.specs.Shown.{class_info, table_of};
ghost use Rattle.par_compile.specs.Own.{AreNamed, IsReady, own_members};
ghost use Rattle.par_compile.specs.Whole.{IsMadeOf, IsOwnFile};
ghost use Rattle.par_class.specs.declared.file.ClassFile.{ClassFile as File};

use crate::access::CLASS;
use crate::draft::Draft;
use crate::entries::{above, class as class_index, text};
use crate::fields::field_files;
use crate::methods::put_members;
use par_base::list::List;
use par_base::memory::NoMemory;
use par_class::{ClassFile, FieldFile};
use par_erase::{Plain, PlainClass};
use par_pool::PoolBuilder;
use std::alloc::Global;

/// The version of a file: code of version 51 has its frames, code of version 49 asks for none.
fn version(frames: bool) -> u16
    ensures { result ≡ files.version frames }
{
    if frames { 51 } else { 49 }
}

/// What the file of a class has beside its pool and its methods.
#[derive(Drop)]
struct Parts {
    this_class: u16,
    super_class: u16,
    fields: List<FieldFile>,
}

/// Puts the constants and the methods of a class of the program into an empty draft.
fn put_parts(
    alloc: Global,
    plain: &Plain,
    class: &PlainClass,
    draft: &mut Draft,
    frames: bool,
) -> Result<Parts, NoMemory>
    requires named { AreNamed plain.now }
    requires ready { IsReady plain.now class.now }
    requires pool { draft.old.pool ≡ [] }
    requires methods { draft.old.methods ≡ [] }
    ensures { IfOk result (λ parts. (file : File) → IsMadeOf frames parts draft.new file →
        IsOwnFile frames (table_of plain.now) (class_info class.now)
        (own_members plain.now class.now) file) }
{
    text(&mut draft.pool, b"Code")?;
    let this_class = class_index(&mut draft.pool, class.name.bytes())?;
    let super_class = class_index(&mut draft.pool, above(class.exception))?;
    let fields = field_files(alloc, plain, class.fields.as_slice(), &mut draft.pool)?;
    put_members(alloc, plain, class, draft, frames)?;
    Ok(Parts {
        this_class,
        super_class,
        fields,
    })
}

/// The file of a class of the program, with frames or without them.
pub fn class_file(
    alloc: Global,
    plain: &Plain,
    class: &PlainClass,
    frames: bool,
) -> Result<ClassFile, NoMemory>
    requires named { AreNamed plain.now }
    requires ready { IsReady plain.now class.now }
    ensures { IfOk result (IsOwnFile frames (table_of plain.now) (class_info class.now)
        (own_members plain.now class.now)) }
{
    let mut draft = Draft {
        pool: PoolBuilder::new(alloc),
        methods: List::new(alloc),
    };
    match put_parts(alloc, plain, class, &mut draft, frames) {
        Ok(parts) => {
            let attributes = List::new(alloc);
            Ok(ClassFile {
                minor: 0,
                major: version(frames),
                pool: draft.pool.finish(),
                access: CLASS,
                this_class: parts.this_class,
                super_class: parts.super_class,
                fields: parts.fields,
                methods: draft.methods,
                attributes,
            })
        }
        Err(error) => {
            drop(draft);
            Err(error)
        }
    }
}
