//! The index of what each item names.

ghost use Rattle.std.specs.Prelude.{◌≡◌, ◌+◌, ◌<◌, true, length, All, sum_by, IfOk};
ghost use Rattle.std.specs.Prelude.{IsTrue};
ghost use Rattle.std.specs.List.{AllZip};
ghost use Rattle.par_pool.specs.declared.constant.Constant.TheVariants.{Field};
ghost use Rattle.par_pool.specs.Entries.{IsMemberAt, IsClassAt, IsFieldAt};
ghost use Rattle.par_pool.specs.Growth.{Adds, IsMemberPart, IsClassPart};
ghost use Rattle.par_pool.specs.Spelling.{IsText};
ghost use Rattle.par_code_form.specs.Instructions.{within};
ghost use Rattle.par_code_form.specs.PoolNames as spec;
ghost use Rattle.par_code_form.specs.PoolNames.{Names, IsPartOf, IsNamedIn, entries};
ghost use Rattle.par_code_form.specs.PoolNames.{member_form, LOCKS, LOCK_TYPE};
ghost use Rattle.par_code_form.specs.PoolNames.{lock_field};
ghost use Rattle.par_code_form.specs.Placeable.{FitsItem, MOST_LOCKS};

use crate::name::{full_name, lock_field};
use par_base::memory::NoMemory;
use par_base::name::Name;
use par_code_form::Item;
use par_code_form::opcode::INVOKEVIRTUAL;
use par_pool::PoolBuilder;
use std::alloc::Global;

/// Whether a number has at most 16 bits.
fn is_short(number: i32) -> bool
    ensures { result ≡ within 32768 number }
{
    number >= -32768 && number <= 32767
}

/// The index of a class, by its name in programs.
pub fn class_index(alloc: Global, class: &Name, pool: &mut PoolBuilder) -> Result<u16, NoMemory>
    requires room { length pool.old + 2 < 65535 }
    requires text { IsText (spec.full_name class.now) }
    ensures named { IfOk result (λ index. IsClassAt pool.new index (spec.full_name class.now)) }
    ensures added { Adds pool.old pool.new 2
        (IsClassPart pool.new (spec.full_name class.now)) }
{
    let name = full_name(alloc, class)?;
    pool.class(&name)
}

/// The index of the member that an instruction of this opcode works on.
fn member_index(
    alloc: Global,
    opcode: u8,
    class: &Name,
    name: &[u8],
    descriptor: &[u8],
    pool: &mut PoolBuilder,
) -> Result<u16, NoMemory>
    requires room { length pool.old + 6 < 65535 }
    requires class { IsText (spec.full_name class.now) }
    requires name { IsText name.now }
    requires descriptor { IsText descriptor.now }
    ensures named { IfOk result (λ index. IsMemberAt (member_form opcode) pool.new index
        (spec.full_name class.now) name.now descriptor.now) }
    ensures added { Adds pool.old pool.new 6 (IsMemberPart (member_form opcode) pool.new
        (spec.full_name class.now) name.now descriptor.now) }
{
    let class = full_name(alloc, class)?;
    if opcode < INVOKEVIRTUAL {
        pool.field(&class, name, descriptor)
    } else {
        pool.method(&class, name, descriptor)
    }
}

/// The index of the field that says whether a lock is open.
fn lock_index(alloc: Global, lock: u16, pool: &mut PoolBuilder) -> Result<u16, NoMemory>
    requires room { length pool.old + 6 < 65535 }
    requires few { lock < MOST_LOCKS }
    ensures named { IfOk result (λ index.
        IsFieldAt pool.new index LOCKS (lock_field lock) LOCK_TYPE) }
    ensures added { Adds pool.old pool.new 6
        (IsMemberPart Field pool.new LOCKS (lock_field lock) LOCK_TYPE) }
{
    let field = lock_field(alloc, lock)?;
    pool.field(b"paragon/Locks", &field, b"Z")
}

/// The index of what an item names; 0 where it names nothing.
fn index_of(alloc: Global, item: &Item, pool: &mut PoolBuilder) -> Result<u16, NoMemory>
    requires fits { FitsItem item.now }
    requires room { length pool.old + entries item.now < 65535 }
    ensures named { IfOk result (λ index. Names pool.new item.now index) }
    ensures added { Adds pool.old pool.new (entries item.now)
        (IsPartOf pool.new item.now) }
{
    match item {
        Item::Const(number) if !is_short(*number) => pool.integer(*number),
        Item::Member(opcode, class, name, descriptor) => member_index(
            alloc,
            *opcode,
            class,
            name.as_slice(),
            descriptor.as_slice(),
            pool,
        ),
        Item::ClassOp(_, class) => class_index(alloc, class, pool),
        Item::LockOp(_, lock) => lock_index(alloc, *lock, pool),
        _ => Ok(0),
    }
}

/// The index of what each item names.
pub fn indices_of(
    alloc: Global,
    items: &[Item],
    pool: &mut PoolBuilder,
) -> Result<Vec<u16>, NoMemory>
    requires fits { All FitsItem items.now }
    requires room { length pool.old + sum_by entries items.now < 65535 }
    ensures named { IfOk result (λ indices. AllZip (Names pool.new) items.now indices.items) }
    ensures added { Adds pool.old pool.new (sum_by entries items.now)
        (IsNamedIn pool.new items.now) }
{
    let mut indices = Vec::new(alloc);
    for item in items {
        let index = index_of(alloc, item, pool)?;
        indices.push(index)?;
    }
    Ok(indices)
}
