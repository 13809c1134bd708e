//! Items put behind the bytes that a vector has.

ghost use Rattle.std.specs.Prelude.{◌≡◌, [], ◌∷◌, ◌++◌, OnOk};
ghost use Rattle.std.specs.List.{All, flat_map};
ghost use Rattle.par_pool.specs.Spelling as spelling;
ghost use Rattle.par_pool.specs.Spelling.{u2, u4, Fits, IsPool};

use crate::constant::Constant;
use byteorder::{BigEndian, ByteOrder};
use par_base::memory::NoMemory;

/// Puts a number of two bytes behind the others.
pub fn put_u2(out: &mut Vec<u8>, number: u16) -> Result<(), NoMemory>
    ensures { OnOk result (out.new.items ≡ out.old.items ++ u2 number) }
{
    let mut cell = [0; 2];
    BigEndian::write_u16(&mut cell, number);
    out.extend_from_slice(&cell)?;
    Ok(())
}

/// Puts a number of four bytes behind the others.
pub fn put_u4(out: &mut Vec<u8>, number: u32) -> Result<(), NoMemory>
    ensures { OnOk result (out.new.items ≡ out.old.items ++ u4 number) }
{
    let mut cell = [0; 4];
    BigEndian::write_u32(&mut cell, number);
    out.extend_from_slice(&cell)?;
    Ok(())
}

/// Puts a constant.
#[tactic(auto, unfolding(crate::specs::Spelling::constant))]
pub(crate) fn put_constant(out: &mut Vec<u8>, constant: &Constant) -> Result<(), NoMemory>
    requires { Fits constant.now }
    ensures { OnOk result (out.new.items ≡ out.old.items ++ spelling.constant constant.now) }
{
    match constant {
        Constant::Utf8(text) => {
            out.push(1)?;
            put_u2(out, text.len() as u16)?;
            out.extend_from_slice(text.as_slice())?;
            Ok(())
        }
        Constant::Integer(number) => {
            out.push(3)?;
            put_u4(out, number.cast_unsigned())
        }
        Constant::Class(name) => put_one(out, 7, *name),
        Constant::Text(text) => put_one(out, 8, *text),
        Constant::Field(class, member) => put_two(out, 9, *class, *member),
        Constant::Method(class, member) => put_two(out, 10, *class, *member),
        Constant::NameType(name, descriptor) => put_two(out, 12, *name, *descriptor),
    }
}

/// Puts a tag and an index.
fn put_one(out: &mut Vec<u8>, tag: u8, index: u16) -> Result<(), NoMemory>
    ensures { OnOk result (out.new.items ≡ out.old.items ++ (tag ∷ [] ++ u2 index)) }
{
    out.push(tag)?;
    put_u2(out, index)
}

/// Puts a tag and two indices.
fn put_two(out: &mut Vec<u8>, tag: u8, first: u16, second: u16) -> Result<(), NoMemory>
    ensures { OnOk result (out.new.items ≡ out.old.items ++ (tag ∷ [] ++ (u2 first ++ u2 second))) }
{
    out.push(tag)?;
    put_u2(out, first)?;
    put_u2(out, second)
}

fn put_each(out: &mut Vec<u8>, constants: &[Constant]) -> Result<(), NoMemory>
    requires { All Fits constants.now }
    ensures { OnOk result
        (out.new.items ≡ out.old.items ++ flat_map spelling.constant constants.now) }
{
    for constant in constants {
        put_constant(out, constant)?;
    }
    Ok(())
}

/// Puts a constant pool.
#[tactic(auto, unfolding(crate::specs::Spelling::pool))]
pub fn put_pool(out: &mut Vec<u8>, entries: &[Constant]) -> Result<(), NoMemory>
    requires { IsPool entries.now }
    ensures { OnOk result (out.new.items ≡ out.old.items ++ spelling.pool entries.now) }
{
    put_u2(out, entries.len() as u16 + 1)?;
    put_each(out, entries)
}
