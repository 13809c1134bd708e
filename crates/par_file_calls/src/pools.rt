ghost use Rattle.std.specs.Prelude.{◌≡◌, length};

use par_base::memory::NoMemory;
use par_pool::writer::{put_pool, put_u2, put_u4};
use par_pool::{ClassError, Constant, PoolBuilder, entries_of, read_pool};
use par_worked::expect;
use std::alloc::Global;
use std::test::Fail;

// Whether the first entries have these indices, and a text that is there keeps its own.
fn are_added(alloc: Global) -> Result<bool, NoMemory> {
    let mut builder = PoolBuilder::new(alloc);
    let indices = added(&mut builder);
    let many = count(builder);
    Ok(indices? == [1, 2, 1] && many == 2)
}

fn added(builder: &mut PoolBuilder) -> Result<[u16; 3], NoMemory>
    requires { length builder.old ≡ 0 }
{
    let text = builder.utf8(b"Shop")?;
    let number = builder.integer(-1)?;
    let again = builder.utf8(b"Shop")?;
    Ok([text, number, again])
}

fn count(builder: PoolBuilder) -> usize {
    let pool = builder.finish();
    let many = pool.entries.len();
    drop(pool);
    many
}

// Shop, its class, got, I, both, and the field, which is the sixth.
fn is_field_added(alloc: Global) -> Result<bool, NoMemory> {
    let mut builder = PoolBuilder::new(alloc);
    let field = builder.field(b"Shop", b"got", b"I");
    let many = count(builder);
    Ok(field? == 6 && many == 6)
}

// Shop and its class, which is the second, and then main, ()V, both, and the method.
fn is_method_added(alloc: Global) -> Result<bool, NoMemory> {
    let mut builder = PoolBuilder::new(alloc);
    let indices = class_and_method(&mut builder);
    let many = count(builder);
    Ok(indices? == (2, 6) && many == 6)
}

fn class_and_method(builder: &mut PoolBuilder) -> Result<(u16, u16), NoMemory>
    requires { length builder.old ≡ 0 }
{
    let class = builder.class(b"Shop")?;
    let method = builder.method(b"Shop", b"main", b"()V")?;
    Ok((class, method))
}

#[test]
fn an_entry_is_not_added_again(rt: HostRuntime) -> Result<(), Fail> {
    expect(are_added(rt.alloc())?, "a text, a number and the text")
}

#[test]
fn members_name_their_parts(rt: HostRuntime) -> Result<(), Fail> {
    expect(is_field_added(rt.alloc())?, "a field")?;
    expect(is_method_added(rt.alloc())?, "a method")
}

// A pool of the text `I` and the class of that name.
const POOL: &[u8] = &[0, 3, 1, 0, 1, 73, 7, 0, 1];

fn is_read(alloc: Global) -> bool {
    match read_pool(alloc, POOL, 0) {
        Ok((pool, end)) => {
            let are_read = are_of_pool(pool.entries.as_slice());
            drop(pool);
            end == 9 && are_read
        }
        Err(_) => false,
    }
}

fn are_read(alloc: Global) -> bool {
    match entries_of(alloc, ClassError::Cut(9), POOL) {
        Ok((entries, rest)) => {
            let are_read = are_of_pool(entries.as_slice());
            drop(entries);
            rest.is_empty() && are_read
        }
        Err(_) => false,
    }
}

fn are_of_pool(entries: &[Constant]) -> bool {
    let [Constant::Utf8(text), Constant::Class(1)] = entries else {
        return false;
    };
    text.as_slice() == b"I".as_slice()
}

// Whether the pool with the class is written so.
fn put_class(alloc: Global, out: &mut Vec<u8>) -> Result<(), NoMemory> {
    let mut builder = PoolBuilder::new(alloc);
    builder.class(b"I")?;
    let pool = builder.finish();
    let put = put_pool(out, pool.entries.as_slice());
    drop(pool);
    put
}

fn is_written(alloc: Global) -> Result<bool, NoMemory> {
    let mut out = Vec::new(alloc);
    put_class(alloc, &mut out)?;
    let is_this = out.as_slice() == POOL;
    drop(out);
    Ok(is_this)
}

fn put_numbers(out: &mut Vec<u8>) -> Result<(), NoMemory> {
    put_u2(out, 0x0102)?;
    put_u4(out, 0x03040506)?;
    Ok(())
}

// Whether numbers are written with their highest byte in front.
fn are_numbers_written(alloc: Global) -> Result<bool, NoMemory> {
    let mut out = Vec::new(alloc);
    put_numbers(&mut out)?;
    let are_these = out.as_slice() == [1, 2, 3, 4, 5, 6].as_slice();
    drop(out);
    Ok(are_these)
}

#[test]
fn pools_are_written(rt: HostRuntime) -> Result<(), Fail> {
    expect(is_written(rt.alloc())?, "a pool of two entries")?;
    expect(are_numbers_written(rt.alloc())?, "numbers of 2 and 4 bytes")
}

// A row's name, and bytes that are no pool, with the error.
type Other = (&'static str, &'static [u8], ClassError);

const OTHERS: &[Other] = &[
    (
        "a pool cut short",
        &[0, 3, 1, 0, 1, 73, 7, 0],
        ClassError::Cut(8),
    ),
    (
        "a class without a name",
        &[0, 2, 7, 0, 1],
        ClassError::Pool(1),
    ),
    (
        "a text with a byte 0",
        &[0, 2, 1, 0, 1, 0],
        ClassError::Pool(1),
    ),
    ("no count", &[0, 0], ClassError::Pool(0)),
];

fn is_refused(alloc: Global, bytes: &[u8], error: ClassError) -> bool {
    if bytes.len() > 9 {
        return false;
    }
    match read_pool(alloc, bytes, 0) {
        Ok(_) => false,
        Err(found) => found == error,
    }
}

fn check_others(alloc: Global, rows: &[Other]) -> Result<(), Fail> {
    for (name, bytes, error) in rows {
        expect(is_refused(alloc, bytes, *error), name)?;
    }
    Ok(())
}

#[test]
fn pools_are_read(rt: HostRuntime) -> Result<(), Fail> {
    expect(is_read(rt.alloc()), "a pool of two entries")?;
    expect(are_read(rt.alloc()), "its entries alone")?;
    check_others(rt.alloc(), OTHERS)
}
