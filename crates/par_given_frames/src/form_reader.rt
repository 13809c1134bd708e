//! The forms of frames that bytes spell.

ghost use Rattle.std.specs.Prelude.{◌≡◌, ◌≤◌, ◌<◌, ◌^◌, length, IfOk, IfErr};
ghost use Rattle.par_frame_forms.specs.Reading as reading;
ghost use Rattle.par_frame_forms.specs.Reading.{read_u2, type_of, read_type, read_types};
ghost use Rattle.par_frame_forms.specs.Reading.{read_list, form_of, read_form, read_forms};
ghost use Rattle.par_frames.specs.Given as given;
ghost use Rattle.par_given_frames.specs.Reads.{Gives, seen};

use crate::error::Unread;
use byteorder::{BigEndian, ByteOrder};
use par_base::list::List;
use par_frame_forms::{FrameForm, PlaceType};
use std::alloc::Global;

/// The number of the first two bytes, and the bytes behind it.
fn u2(bytes: &[u8]) -> Result<(u16, &[u8]), Unread>
    ensures read { Gives (λ x. seen x.0 x.1.now) result (read_u2 bytes.now) }
    ensures few { IfOk result (λ x. x.0 < 2 ^ 16) }
    ensures refused { IfErr result (λ e. e ≡ Unread.Refused) }
{
    if bytes.len() < 2 {
        return Err(Unread::Refused);
    }
    Ok((BigEndian::read_u16(bytes), &bytes[2..]))
}

/// The type of this tag, and the bytes behind it.
fn type_of(tag: u8, bytes: &[u8]) -> Result<(PlaceType, &[u8]), Unread>
    ensures read { Gives (λ x. seen x.0 x.1.now) result (type_of tag bytes.now) }
    ensures refused { IfErr result (λ e. e ≡ Unread.Refused) }
{
    match tag {
        0 => Ok((PlaceType::Top, bytes)),
        1 => Ok((PlaceType::Int, bytes)),
        5 => Ok((PlaceType::Null, bytes)),
        7 => {
            let (index, rest) = u2(bytes)?;
            Ok((PlaceType::Class(index), rest))
        }
        _ => Err(Unread::Refused),
    }
}

/// The type of a local or an operand.
fn place_type(bytes: &[u8]) -> Result<(PlaceType, &[u8]), Unread>
    ensures read { Gives (λ x. seen x.0 x.1.now) result (read_type bytes.now) }
    ensures refused { IfErr result (λ e. e ≡ Unread.Refused) }
{
    match bytes {
        [] => Err(Unread::Refused),
        [tag, rest @ ..] => type_of(*tag, rest),
    }
}

/// So many types, one behind the other.
fn place_types(alloc: Global, many: u16, bytes: &[u8]) -> Result<(List<PlaceType>, &[u8]), Unread>
    ensures { Gives (λ x. seen x.0 x.1.now) result (read_types many bytes.now) }
{
    let mut types = List::new(alloc);
    let mut rest = bytes;
    for _ in 0..many {
        let (t, behind) = place_type(rest)?;
        types.push(t)?;
        rest = behind;
    }
    Ok((types, rest))
}

/// The types behind their number.
fn counted_types(alloc: Global, bytes: &[u8]) -> Result<(List<PlaceType>, &[u8]), Unread>
    ensures { Gives (λ x. seen x.0 x.1.now) result (read_list bytes.now) }
{
    let (many, rest) = u2(bytes)?;
    place_types(alloc, many, rest)
}

/// What stands behind the tag and the distance of a form with all locals and operands.
fn full_form(alloc: Global, delta: u16, bytes: &[u8]) -> Result<(FrameForm, &[u8]), Unread>
    ensures { Gives (λ x. seen x.0 x.1.now) result (reading.form_behind 255 delta bytes.now) }
{
    let (locals, rest) = counted_types(alloc, bytes)?;
    let (stack, rest) = counted_types(alloc, rest)?;
    Ok((FrameForm::Full(delta, locals, stack), rest))
}

/// What stands behind such a tag and a distance.
fn form_behind(
    alloc: Global,
    tag: u8,
    delta: u16,
    bytes: &[u8],
) -> Result<(FrameForm, &[u8]), Unread>
    requires { 247 ≤ tag }
    ensures { Gives (λ x. seen x.0 x.1.now) result (reading.form_behind tag delta bytes.now) }
{
    match tag {
        247 => {
            let (t, rest) = place_type(bytes)?;
            Ok((FrameForm::OneOperandFar(delta, t), rest))
        }
        248..=250 => Ok((FrameForm::Cut(251 - tag, delta), bytes)),
        251..=254 => {
            let (types, rest) = place_types(alloc, u16::from(tag - 251), bytes)?;
            Ok((FrameForm::More(delta, types), rest))
        }
        _ => full_form(alloc, delta, bytes),
    }
}

/// The form of this tag, and the bytes behind it.
fn form_of(alloc: Global, tag: u8, bytes: &[u8]) -> Result<(FrameForm, &[u8]), Unread>
    ensures { Gives (λ x. seen x.0 x.1.now) result (form_of tag bytes.now) }
{
    match tag {
        0..=63 => Ok((FrameForm::Same(tag), bytes)),
        64..=127 => {
            let (t, rest) = place_type(bytes)?;
            Ok((FrameForm::OneOperand(tag - 64, t), rest))
        }
        128..=246 => Err(Unread::Refused),
        _ => {
            let (delta, rest) = u2(bytes)?;
            form_behind(alloc, tag, delta, rest)
        }
    }
}

fn form(alloc: Global, bytes: &[u8]) -> Result<(FrameForm, &[u8]), Unread>
    ensures { Gives (λ x. seen x.0 x.1.now) result (read_form bytes.now) }
{
    match bytes {
        [] => Err(Unread::Refused),
        [tag, rest @ ..] => form_of(alloc, *tag, rest),
    }
}

/// So many forms, one behind the other.
fn forms(alloc: Global, many: u16, bytes: &[u8]) -> Result<(List<FrameForm>, &[u8]), Unread>
    ensures { Gives (λ x. seen x.0 x.1.now) result (read_forms many bytes.now) }
{
    let mut forms = List::new(alloc);
    let mut rest = bytes;
    for _ in 0..many {
        let (f, behind) = form(alloc, rest)?;
        forms.push(f)?;
        rest = behind;
    }
    Ok((forms, rest))
}

/// The forms behind their number, with nothing behind them.
pub(crate) fn forms_in(alloc: Global, bytes: &[u8]) -> Result<List<FrameForm>, Unread>
    ensures forms { Gives (λ forms. forms) result (given.forms_in bytes.now) }
    ensures few { IfOk result (λ forms. length forms < 2 ^ 16) }
{
    let (many, rest) = u2(bytes)?;
    let (forms, rest) = forms(alloc, many, rest)?;
    if !rest.is_empty() {
        return Err(Unread::Refused);
    }
    Ok(forms)
}
