//! The fields of a class's file, in the order of the source.

ghost use Rattle.std.specs.Prelude.{◌≡◌, ◌+◌, ◌*◌, ◌<◌, ◌≤◌, length, map, IfOk, OnOk};
ghost use Rattle.std.specs.List.{AllZip};
ghost use Rattle.par_compile_laws.specs.Files.{IsFieldOf};
ghost use Rattle.par_erase.specs.Shown.{field_info, table_of};
ghost use Rattle.par_compile.specs.Growing.{Grows, Stays, IsOneField, IsOfFields};
ghost use Rattle.par_compile.specs.Own.{AreNamed};

use crate::access::member_access;
use crate::entries::text;
use par_base::list::List;
use par_base::memory::NoMemory;
use par_class::FieldFile;
use par_code::words::type_text;
use par_erase::{Plain, PlainField};
use par_pool::PoolBuilder;
use std::alloc::Global;

fn field_file(
    alloc: Global,
    plain: &Plain,
    field: &PlainField,
    pool: &mut PoolBuilder,
) -> Result<FieldFile, NoMemory>
    requires named { AreNamed plain.now }
    requires room { length pool.old + 2 < 65535 }
    ensures grows { OnOk result
        (Grows (IsOneField (table_of plain.now) (field_info field.now)) pool.old pool.new) }
    ensures is { IfOk result (λ file. Stays pool.new
        (λ q. IsFieldOf (table_of plain.now) q (field_info field.now) file)) }
    ensures few { OnOk result (length pool.new ≤ length pool.old + 2) }
{
    let kind = type_text(alloc, plain, field.ty)?;
    let name = text(pool, field.name.bytes())?;
    let descriptor = text(pool, kind.as_slice())?;
    Ok(FieldFile {
        access: member_access(field.is_static),
        name,
        descriptor,
        attributes: List::new(alloc),
    })
}

/// The fields of a class.
pub fn field_files(
    alloc: Global,
    plain: &Plain,
    fields: &[PlainField],
    pool: &mut PoolBuilder,
) -> Result<List<FieldFile>, NoMemory>
    requires named { AreNamed plain.now }
    requires room { length pool.old + 2 * length fields.now < 65535 }
    ensures grows { OnOk result (Grows
        (IsOfFields (table_of plain.now) (map field_info fields.now)) pool.old pool.new) }
    ensures are { IfOk result (λ files. Stays pool.new
        (λ q. AllZip (IsFieldOf (table_of plain.now) q) (map field_info fields.now) files)) }
    ensures few { OnOk result (length pool.new ≤ length pool.old + 2 * length fields.now) }
{
    let mut files = List::new(alloc);
    for field in fields {
        let file = field_file(alloc, plain, field, pool)?;
        files.push(file)?;
    }
    Ok(files)
}
