ghost use Rattle.std.specs.Prelude.{◌≡◌, IfOk, IfErr, count_by, map};
ghost use Rattle.par_pool.specs.Reading.{Gives, made};
ghost use Rattle.par_class.specs.Reading as reading;
ghost use Rattle.par_class.specs.Reading.{list_at};
ghost use Rattle.par_class.specs.Layout as layout;
ghost use Rattle.par_class.specs.Spelling as spelling;
ghost use Rattle.par_pool.specs.declared.error.ClassError.TheVariants.{Memory};

use crate::attribute::{attribute_of, attributes_of, text_index};
use crate::code::code_inside;
use crate::file::{Attribute, CodeAttr, FieldFile, MethodFile, Piece};
use crate::name::names_code;
use crate::place::place;
use par_pool::constant::Constant;
use par_pool::error::ClassError;
use par_pool::item::u2;
use par_pool::par_base::list::List;
use std::alloc::Global;

/// A field.
#[tactic(auto, unfolding(crate::specs::Reading::field_at))]
fn field_of<'b>(
    alloc: Global,
    entries: &[Constant],
    short: ClassError,
    end: u32,
    bytes: &'b [u8],
) -> Result<(FieldFile, &'b [u8]), ClassError>
    ensures { Gives (λ x. (x.0, x.1.now)) result
        (reading.field_at entries.now short end bytes.now) }
{
    let (access, rest) = u2(short, bytes)?;
    let (name, rest) = text_index(entries, short, end, rest)?;
    let (descriptor, rest) = text_index(entries, short, end, rest)?;
    let (attributes, rest) = attributes_of(alloc, entries, short, end, rest)?;
    let field = FieldFile {
        access,
        name,
        descriptor,
        attributes,
    };
    Ok((field, rest))
}

/// The fields behind their number.
#[tactic(auto, unfolding(crate::specs::Reading::fields_at))]
pub fn fields_of<'b>(
    alloc: Global,
    entries: &[Constant],
    short: ClassError,
    end: u32,
    bytes: &'b [u8],
) -> Result<(List<FieldFile>, &'b [u8]), ClassError>
    ensures { Gives (λ x. (x.0, x.1.now)) result
        (reading.fields_at entries.now short end bytes.now) }
{
    let (count, mut rest) = u2(short, bytes)?;
    let mut fields = List::new(alloc);
    for _ in 0..count {
        let (field, after) = field_of(alloc, entries, short, end, rest)?;
        fields.push(field)?;
        rest = after;
    }
    Ok((fields, rest))
}

/// An attribute of a method, which is code where its name says so.
#[tactic(auto, unfolding(crate::specs::Reading::piece_at))]
fn piece_of<'b>(
    alloc: Global,
    entries: &[Constant],
    short: ClassError,
    end: u32,
    bytes: &'b [u8],
) -> Result<(Piece, &'b [u8]), ClassError>
    ensures { Gives (λ x. (x.0, x.1.now)) result
        (reading.piece_at entries.now short end bytes.now) }
{
    let (attribute, rest) = attribute_of(alloc, entries, short, end, bytes)?;
    if !names_code(entries, attribute.name) {
        return Ok((Piece::Plain(attribute), rest));
    }
    let code = code_inside(alloc, entries, place(end, rest), attribute.bytes.as_slice())?;
    Ok((Piece::Code(attribute.name, code), rest))
}

/// The attributes of a method behind their number.
#[tactic(auto, unfolding(crate::specs::Reading::pieces_at))]
fn pieces_of<'b>(
    alloc: Global,
    entries: &[Constant],
    short: ClassError,
    end: u32,
    bytes: &'b [u8],
) -> Result<(Vec<Piece>, &'b [u8]), ClassError>
    ensures { Gives (λ x. (x.0.items, x.1.now)) result
        (reading.pieces_at entries.now short end bytes.now) }
{
    let (count, mut rest) = u2(short, bytes)?;
    let mut pieces = Vec::new(alloc);
    for _ in 0..count {
        let (piece, after) = piece_of(alloc, entries, short, end, rest)?;
        pieces.push(piece)?;
        rest = after;
    }
    Ok((pieces, rest))
}

/// Whether access flags have NATIVE.
pub fn is_native(access: u16) -> bool
    ensures { result ≡ spelling.is_native access }
{
    access & 0x0100 != 0
}

/// How often a method has code.
fn codes_in(pieces: &[Piece]) -> usize
    ensures { result ≡ count_by spelling.is_code pieces.now }
{
    pieces
        .iter()
        .filter(|piece| matches!(piece, Piece::Code(_, _)))
        .count()
}

/// Whether a method has code as often as its access flags allow: never where it is NATIVE, and
/// else once.
fn is_coded(access: u16, pieces: &[Piece]) -> bool
    ensures { result ≡ spelling.is_coded access pieces.now }
{
    let wanted = if is_native(access) { 0 } else { 1 };
    codes_in(pieces) == wanted
}

/// The code among the attributes of a method, and the other attributes.
fn parted(
    alloc: Global,
    pieces: Vec<Piece>,
) -> Result<(Option<CodeAttr>, List<Attribute>), ClassError>
    ensures parts { IfOk result (λ parts.
        (parts.0 ≡ layout.code_in pieces.items) × (parts.1 ≡ layout.others_in pieces.items)) }
    ensures memory { IfErr result (λ e. e ≡ Memory) }
{
    let mut code = None;
    let mut attributes = List::new(alloc);
    for piece in pieces {
        match piece {
            Piece::Plain(attribute) => attributes.push(attribute)?,
            Piece::Code(_, found) => code = Some(found),
        }
    }
    Ok((code, attributes))
}

/// A method.
#[tactic(auto, unfolding(crate::specs::Reading::method_at))]
fn method_of<'b>(
    alloc: Global,
    entries: &[Constant],
    short: ClassError,
    end: u32,
    bytes: &'b [u8],
) -> Result<(MethodFile, &'b [u8]), ClassError>
    ensures { Gives (λ x. (x.0, x.1.now)) result
        (made layout.method_of (reading.method_at entries.now short end) bytes.now) }
{
    let (access, rest) = u2(short, bytes)?;
    let (name, rest) = text_index(entries, short, end, rest)?;
    let (descriptor, rest) = text_index(entries, short, end, rest)?;
    let (pieces, rest) = pieces_of(alloc, entries, short, end, rest)?;
    if !is_coded(access, &pieces) {
        return Err(ClassError::Shape(place(end, bytes)));
    }
    let (code, attributes) = parted(alloc, pieces)?;
    let method = MethodFile {
        access,
        name,
        descriptor,
        code,
        attributes,
    };
    Ok((method, rest))
}

/// The methods behind their number, one after the other.
fn each_method<'b>(
    alloc: Global,
    entries: &[Constant],
    short: ClassError,
    end: u32,
    bytes: &'b [u8],
) -> Result<(List<MethodFile>, &'b [u8]), ClassError>
    ensures { Gives (λ x. (x.0, x.1.now)) result
        (list_at short
        (made layout.method_of (reading.method_at entries.now short end)) bytes.now) }
{
    let (count, mut rest) = u2(short, bytes)?;
    let mut methods = List::new(alloc);
    for _ in 0..count {
        let (method, after) = method_of(alloc, entries, short, end, rest)?;
        methods.push(method)?;
        rest = after;
    }
    Ok((methods, rest))
}

/// The methods behind their number.
pub fn methods_of<'b>(
    alloc: Global,
    entries: &[Constant],
    short: ClassError,
    end: u32,
    bytes: &'b [u8],
) -> Result<(List<MethodFile>, &'b [u8]), ClassError>
    ensures { Gives (λ x. (x.0, x.1.now)) result
        (made (λ methods. map layout.method_of methods)
        (reading.methods_at entries.now short end) bytes.now) }
{
    each_method(alloc, entries, short, end, bytes)
}
