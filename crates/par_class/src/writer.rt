ghost use Rattle.std.specs.Prelude.{◌≡◌, ◌+◌, ◌<◌, ◌^◌, ◌++◌, length, OnOk};
ghost use Rattle.std.specs.List.{All, flat_map};
ghost use Rattle.par_class.specs.Spelling as spelling;
ghost use Rattle.par_class.specs.Spelling.{counted, sized};
ghost use Rattle.par_class.specs.Writing.{IsSized, SizedCode, SizedField};
ghost use Rattle.par_class.specs.declared.file.Piece.TheVariants as pieces;

use crate::file::{Attribute, Catch, CodeAttr, FieldFile};
use par_pool::par_base::memory::NoMemory;
use par_pool::writer::{put_u2, put_u4};
use std::alloc::Global;

/// Puts the number of some bytes, and the bytes.
pub fn put_sized(out: &mut Vec<u8>, bytes: &[u8]) -> Result<(), NoMemory>
    requires { length bytes.now < 2 ^ 32 }
    ensures { OnOk result (out.new.items ≡ out.old.items ++ sized bytes.now) }
{
    put_u4(out, bytes.len() as u32)?;
    out.extend_from_slice(bytes)?;
    Ok(())
}

#[tactic(auto, unfolding(crate::specs::Spelling::attribute))]
fn put_attribute(out: &mut Vec<u8>, attribute: &Attribute) -> Result<(), NoMemory>
    requires { IsSized attribute.now }
    ensures { OnOk result (out.new.items ≡ out.old.items ++ spelling.attribute attribute.now) }
{
    put_u2(out, attribute.name)?;
    put_sized(out, attribute.bytes.as_slice())
}

/// Puts attributes, one after the other.
pub fn put_each(out: &mut Vec<u8>, attributes: &[Attribute]) -> Result<(), NoMemory>
    requires { All IsSized attributes.now }
    ensures { OnOk result
        (out.new.items ≡ out.old.items ++ flat_map spelling.attribute attributes.now) }
{
    for attribute in attributes {
        put_attribute(out, attribute)?;
    }
    Ok(())
}

/// Puts the number of attributes, and these.
pub fn put_attributes(out: &mut Vec<u8>, attributes: &[Attribute]) -> Result<(), NoMemory>
    requires few { length attributes.now < 2 ^ 16 }
    requires each { All IsSized attributes.now }
    ensures { OnOk result
        (out.new.items ≡ out.old.items ++ counted spelling.attribute attributes.now) }
{
    put_u2(out, attributes.len() as u16)?;
    put_each(out, attributes)
}

#[tactic(auto, unfolding(crate::specs::Spelling::catch))]
fn put_catch(out: &mut Vec<u8>, catch: &Catch) -> Result<(), NoMemory>
    ensures { OnOk result (out.new.items ≡ out.old.items ++ spelling.catch catch.now) }
{
    put_u2(out, catch.start)?;
    put_u2(out, catch.end)?;
    put_u2(out, catch.handler)?;
    put_u2(out, catch.class)
}

fn put_each_catch(out: &mut Vec<u8>, catches: &[Catch]) -> Result<(), NoMemory>
    ensures { OnOk result (out.new.items ≡ out.old.items ++ flat_map spelling.catch catches.now) }
{
    for catch in catches {
        put_catch(out, catch)?;
    }
    Ok(())
}

/// Puts the inside of a Code attribute.
#[tactic(auto, unfolding(crate::specs::Spelling::code))]
fn put_code(out: &mut Vec<u8>, code: &CodeAttr) -> Result<(), NoMemory>
    requires { SizedCode code.now }
    ensures { OnOk result (out.new.items ≡ out.old.items ++ spelling.code code.now) }
{
    put_u2(out, code.max_stack)?;
    put_u2(out, code.max_locals)?;
    put_sized(out, code.code.as_slice())?;
    put_u2(out, code.catches.len() as u16)?;
    put_each_catch(out, code.catches.as_slice())?;
    put_attributes(out, code.attributes.as_slice())
}

/// Puts a Code attribute, under the index of its name.
#[tactic(auto, unfolding(crate::specs::Spelling::piece, crate::specs::Spelling::attribute))]
pub fn put_code_attribute(
    alloc: Global,
    out: &mut Vec<u8>,
    name: u16,
    code: &CodeAttr,
) -> Result<(), NoMemory>
    requires { SizedCode code.now }
    ensures { OnOk result
        (out.new.items ≡ out.old.items ++ spelling.piece (pieces.Code name code.now)) }
{
    let mut inside = Vec::new(alloc);
    put_code(&mut inside, code)?;
    put_u2(out, name)?;
    put_sized(out, &inside)
}

#[tactic(auto, unfolding(crate::specs::Spelling::field))]
fn put_field(out: &mut Vec<u8>, field: &FieldFile) -> Result<(), NoMemory>
    requires { SizedField field.now }
    ensures { OnOk result (out.new.items ≡ out.old.items ++ spelling.field field.now) }
{
    put_u2(out, field.access)?;
    put_u2(out, field.name)?;
    put_u2(out, field.descriptor)?;
    put_attributes(out, field.attributes.as_slice())
}

/// Puts fields, one after the other.
pub fn put_each_field(out: &mut Vec<u8>, fields: &[FieldFile]) -> Result<(), NoMemory>
    requires { All SizedField fields.now }
    ensures { OnOk result (out.new.items ≡ out.old.items ++ flat_map spelling.field fields.now) }
{
    for field in fields {
        put_field(out, field)?;
    }
    Ok(())
}
