ghost use Rattle.std.specs.Prelude.{◌≡◌, ◌≤◌, ℕ, length, IfOk, Ok};
ghost use Rattle.par_pool.specs.Reading.{Gives, made};
ghost use Rattle.par_class.specs.declared.file.ClassFile.{ClassFile as File};
ghost use Rattle.par_class.specs.Layout.{file_of};
ghost use Rattle.par_class.specs.Spelling.{Spells};
ghost use Rattle.par_class.specs.Reading as reading;
ghost use Rattle.par_class.specs.Reading.{laid_at, file_at};

use crate::attribute::{attributes_of, class_index};
use crate::file::ClassFile;
use crate::member::{fields_of, methods_of};
use crate::name::is_super;
use crate::place::place;
use par_pool::constant::{Constant, Pool};
use par_pool::error::ClassError;
use par_pool::item::{u2, u4};
use par_pool::par_base::list::List;
use par_pool::{LONGEST_CLASS, entries_of};
use std::alloc::Global;

/// What stands in a class file up to and with its constant pool.
#[derive(Drop)]
struct Front {
    minor: u16,
    major: u16,
    entries: Vec<Constant>,
}

/// The number that each class file begins with.
#[tactic(auto, unfolding(crate::specs::Reading::magic_at))]
fn magic(short: ClassError, bytes: &[u8]) -> Result<(u32, &[u8]), ClassError>
    ensures { Gives (λ x. (x.0, x.1.now)) result (reading.magic_at short bytes.now) }
{
    let (number, rest) = u4(short, bytes)?;
    if number != 0xCAFE_BABE {
        return Err(ClassError::Magic);
    }
    Ok((number, rest))
}

/// The major version, from 45 to 51.
#[tactic(auto, unfolding(crate::specs::Reading::major_at))]
fn major_version(short: ClassError, bytes: &[u8]) -> Result<(u16, &[u8]), ClassError>
    ensures { Gives (λ x. (x.0, x.1.now)) result (reading.major_at short bytes.now) }
{
    let (major, rest) = u2(short, bytes)?;
    if major < 45 || major > 51 {
        return Err(ClassError::Version(major));
    }
    Ok((major, rest))
}

/// The magic number, the versions and the constant pool.
#[tactic(auto, unfolding(crate::specs::Reading::front_at))]
fn front_of(
    alloc: Global,
    short: ClassError,
    bytes: &[u8],
) -> Result<(u32, Front, &[u8]), ClassError>
    ensures { Gives (λ x. ((x.0, (x.1.minor, (x.1.major, x.1.entries.items))), x.2.now)) result
        (reading.front_at short bytes.now) }
{
    let (number, rest) = magic(short, bytes)?;
    let (minor, rest) = u2(short, rest)?;
    let (major, rest) = major_version(short, rest)?;
    let (entries, rest) = entries_of(alloc, short, rest)?;
    let front = Front {
        minor,
        major,
        entries,
    };
    Ok((number, front, rest))
}

/// The index of the superclass.
#[tactic(auto, unfolding(crate::specs::Reading::super_at))]
fn super_index<'b>(
    entries: &[Constant],
    short: ClassError,
    end: u32,
    bytes: &'b [u8],
) -> Result<(u16, &'b [u8]), ClassError>
    ensures { Gives (λ x. (x.0, x.1.now)) result
        (reading.super_at entries.now short end bytes.now) }
{
    let (index, rest) = class_index(entries, short, end, bytes)?;
    if !is_super(entries, index) {
        return Err(ClassError::Shape(place(end, bytes)));
    }
    Ok((index, rest))
}

/// The number of interfaces, which is 0.
#[tactic(auto, unfolding(crate::specs::Reading::interfaces_at))]
fn interfaces(short: ClassError, end: u32, bytes: &[u8]) -> Result<(u16, &[u8]), ClassError>
    ensures { Gives (λ x. (x.0, x.1.now)) result (reading.interfaces_at short end bytes.now) }
{
    let (number, rest) = u2(short, bytes)?;
    if number != 0 {
        return Err(ClassError::Shape(place(end, bytes)));
    }
    Ok((number, rest))
}

/// What stands behind the constant pool, as a file.
#[tactic(auto, unfolding(crate::specs::Reading::back_at))]
fn back_of<'b>(
    alloc: Global,
    short: ClassError,
    end: u32,
    number: u32,
    front: Front,
    bytes: &'b [u8],
) -> Result<(ClassFile, &'b [u8]), ClassError>
    ensures { Gives (λ x. (x.0, x.1.now)) result
        (made file_of
        (reading.back_at short end (number, (front.minor, (front.major, front.entries.items))))
        bytes.now) }
{
    let entries = front.entries.as_slice();
    let (access, rest) = u2(short, bytes)?;
    let (this_class, rest) = class_index(entries, short, end, rest)?;
    let (super_class, rest) = super_index(entries, short, end, rest)?;
    let (_, rest) = interfaces(short, end, rest)?;
    let (fields, rest) = fields_of(alloc, entries, short, end, rest)?;
    let (methods, rest) = methods_of(alloc, entries, short, end, rest)?;
    let (attributes, rest) = attributes_of(alloc, entries, short, end, rest)?;
    let file = ClassFile {
        minor: front.minor,
        major: front.major,
        pool: Pool {
            entries: List::wrap(front.entries),
        },
        access,
        this_class,
        super_class,
        fields,
        methods,
        attributes,
    };
    Ok((file, rest))
}

/// A class file, and the bytes behind it.
fn laid_of(
    alloc: Global,
    short: ClassError,
    end: u32,
    bytes: &[u8],
) -> Result<(ClassFile, &[u8]), ClassError>
    ensures { Gives (λ x. (x.0, x.1.now)) result (made file_of (laid_at short end) bytes.now) }
{
    let (number, front, rest) = front_of(alloc, short, bytes)?;
    back_of(alloc, short, end, number, front, rest)
}

/// The whole file, behind which nothing stands.
#[tactic(auto, unfolding(crate::specs::Reading::file_at))]
fn whole(alloc: Global, bytes: &[u8]) -> Result<ClassFile, ClassError>
    requires { length bytes.now ≤ LONGEST_CLASS }
    ensures { Gives (λ file. file) result (file_at bytes.now) }
{
    let end = bytes.len() as u32;
    let (file, rest) = laid_of(alloc, ClassError::Cut(end), end, bytes)?;
    if !rest.is_empty() {
        return Err(ClassError::Extra(place(end, rest)));
    }
    Ok(file)
}

/// The class file that the bytes spell.
pub fn read_class(alloc: Global, bytes: &[u8]) -> Result<ClassFile, ClassError>
    requires { length bytes.now ≤ LONGEST_CLASS }
    // What is read is spelled so.
    ensures found { IfOk result (λ file. Spells bytes.now file) }
    // What is spelled so is read, unless memory runs out.
    ensures only { (file : File) → Spells bytes.now file → Gives (λ file. file) result (Ok file) }
    // What is refused is the first that reading from the left refuses, unless memory runs out.
    ensures exact { Gives (λ file. file) result (file_at bytes.now) }
{
    whole(alloc, bytes)
}
