ghost use Rattle.std.specs.Prelude.{◌≡◌};
ghost use Rattle.par_pool.specs.Reading.{Gives};
ghost use Rattle.par_class.specs.Reading.{text_index_at, class_index_at, attribute_at};
ghost use Rattle.par_class.specs.Reading.{attributes_at};

use crate::file::Attribute;
use crate::place::place;
use par_pool::constant::Constant;
use par_pool::error::ClassError;
use par_pool::item::{taken, u2, u4};
use par_pool::kind::{is_class, is_text};
use par_pool::par_base::list::List;
use std::alloc::Global;

/// The index of a text.
#[tactic(auto, unfolding(crate::specs::Reading::text_index_at))]
pub fn text_index<'b>(
    entries: &[Constant],
    short: ClassError,
    end: u32,
    bytes: &'b [u8],
) -> Result<(u16, &'b [u8]), ClassError>
    ensures { Gives (λ x. (x.0, x.1.now)) result (text_index_at entries.now short end bytes.now) }
{
    let (index, rest) = u2(short, bytes)?;
    if !is_text(entries, index) {
        return Err(ClassError::Index(place(end, bytes)));
    }
    Ok((index, rest))
}

/// The index of a class.
#[tactic(auto, unfolding(crate::specs::Reading::class_index_at))]
pub fn class_index<'b>(
    entries: &[Constant],
    short: ClassError,
    end: u32,
    bytes: &'b [u8],
) -> Result<(u16, &'b [u8]), ClassError>
    ensures { Gives (λ x. (x.0, x.1.now)) result (class_index_at entries.now short end bytes.now) }
{
    let (index, rest) = u2(short, bytes)?;
    if !is_class(entries, index) {
        return Err(ClassError::Index(place(end, bytes)));
    }
    Ok((index, rest))
}

/// An attribute, whose inside is not looked at.
#[tactic(auto, unfolding(crate::specs::Reading::attribute_at))]
pub fn attribute_of<'b>(
    alloc: Global,
    entries: &[Constant],
    short: ClassError,
    end: u32,
    bytes: &'b [u8],
) -> Result<(Attribute, &'b [u8]), ClassError>
    ensures { Gives (λ x. (x.0, x.1.now)) result (attribute_at entries.now short end bytes.now) }
{
    let (name, rest) = text_index(entries, short, end, bytes)?;
    let (len, rest) = u4(short, rest)?;
    let (inside, rest) = taken(short, len as usize, rest)?;
    let bytes = List::wrap(Vec::from_slice(alloc, inside)?);
    Ok((Attribute { name, bytes }, rest))
}

/// The attributes behind their number.
#[tactic(auto, unfolding(crate::specs::Reading::attributes_at))]
pub fn attributes_of<'b>(
    alloc: Global,
    entries: &[Constant],
    short: ClassError,
    end: u32,
    bytes: &'b [u8],
) -> Result<(List<Attribute>, &'b [u8]), ClassError>
    ensures { Gives (λ x. (x.0, x.1.now)) result (attributes_at entries.now short end bytes.now) }
{
    let (count, mut rest) = u2(short, bytes)?;
    let mut attributes = List::new(alloc);
    for _ in 0..count {
        let (attribute, after) = attribute_of(alloc, entries, short, end, rest)?;
        attributes.push(attribute)?;
        rest = after;
    }
    Ok((attributes, rest))
}
