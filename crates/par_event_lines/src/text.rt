//! The text of a line, from its event or its ending.

ghost use Rattle.std.specs.Prelude.{◌≡◌, ◌++◌, ◌∷◌, [], IfOk, OnOk, codes};
ghost use Rattle.std.specs.Fmt.{decimal, signed_decimal};
ghost use Rattle.par_values.specs.Ran.{Fine, BadCode};
ghost use Rattle.par_event_lines.specs.Texts as spec;
ghost use Rattle.par_event_lines.specs.Texts.{line};

use par_base::memory::NoMemory;
use par_base::name::Name;
use par_values::run::{Ending, Event, Val};
use std::alloc::Global;

/// Adds a number.
fn add_number(alloc: Global, text: &mut Vec<u8>, number: u32) -> Result<(), NoMemory>
    ensures { OnOk result (text.new.items ≡ text.old.items ++ decimal number) }
{
    let digits = format!(in alloc; "{number}")?;
    text.extend_from_slice(digits.as_bytes())?;
    Ok(())
}

/// Adds a number with its sign.
fn add_signed(alloc: Global, text: &mut Vec<u8>, number: i32) -> Result<(), NoMemory>
    ensures { OnOk result (text.new.items ≡ text.old.items ++ signed_decimal number) }
{
    let digits = format!(in alloc; "{number}")?;
    text.extend_from_slice(digits.as_bytes())?;
    Ok(())
}

/// Adds an object.
fn add_object(alloc: Global, text: &mut Vec<u8>, class: &[u8], number: u32) -> Result<(), NoMemory>
    ensures { OnOk result (text.new.items ≡ text.old.items ++ spec.object_text class.now number) }
{
    text.extend_from_slice(class)?;
    text.extend_from_slice(b"#")?;
    add_number(alloc, text, number)
}

/// Adds a value.
fn add_value(alloc: Global, text: &mut Vec<u8>, value: &Val) -> Result<(), NoMemory>
    ensures { OnOk result (text.new.items ≡ text.old.items ++ spec.value_text value.now) }
{
    match value {
        Val::Int(number) => add_signed(alloc, text, *number),
        Val::Null => {
            text.extend_from_slice(b"null")?;
            Ok(())
        }
        Val::Ref(class, number) => add_object(alloc, text, class.bytes(), *number),
    }
}

/// Adds a word, a member of a class, and a space.
fn add_member(text: &mut Vec<u8>, word: &[u8], class: &[u8], member: &[u8]) -> Result<(), NoMemory>
    ensures { OnOk result (text.new.items
        ≡ text.old.items ++ (word.now ++ (class.now ++ (codes "." ++ (member.now ++ codes " "))))) }
{
    text.extend_from_slice(word)?;
    text.extend_from_slice(class)?;
    text.extend_from_slice(b".")?;
    text.extend_from_slice(member)?;
    text.extend_from_slice(b" ")?;
    Ok(())
}

/// Adds the text of an event.
pub fn add_event(alloc: Global, text: &mut Vec<u8>, event: &Event) -> Result<(), NoMemory>
    ensures { OnOk result (text.new.items ≡ text.old.items ++ spec.event_text event.now) }
{
    match event {
        Event::Out(class, channel, number) => {
            add_member(text, b"out ", class.bytes(), channel.bytes())?;
            add_signed(alloc, text, *number)
        }
        Event::Set(class, field, value) => {
            add_member(text, b"set ", class.bytes(), field.bytes())?;
            add_value(alloc, text, value)
        }
        Event::Put(class, number, field, value) => {
            text.extend_from_slice(b"put ")?;
            add_object(alloc, text, class.bytes(), *number)?;
            add_member(text, b"", b"", field.bytes())?;
            add_value(alloc, text, value)
        }
        Event::Born(class, number) => {
            text.extend_from_slice(b"new ")?;
            add_object(alloc, text, class.bytes(), *number)
        }
    }
}

/// Adds the line of an event, with its end.
pub fn add_event_line(alloc: Global, text: &mut Vec<u8>, event: &Event) -> Result<(), NoMemory>
    ensures { OnOk result (text.new.items ≡ text.old.items ++ line (spec.event_text event.now)) }
{
    add_event(alloc, text, event)?;
    text.extend_from_slice(b"\n")?;
    Ok(())
}

/// The line of an event, with its end.
pub fn event_line(alloc: Global, event: &Event) -> Result<Vec<u8>, NoMemory>
    ensures { IfOk result (λ text. text.items ≡ line (spec.event_text event.now)) }
{
    let mut text = Vec::new(alloc);
    add_event_line(alloc, &mut text, event)?;
    Ok(text)
}

/// Adds the text of an ending.
fn add_ending(text: &mut Vec<u8>, ending: &Ending) -> Result<(), NoMemory>
    ensures { OnOk result (text.new.items ≡ text.old.items ++ spec.ending_text (Fine ending.now)) }
{
    match ending {
        Ending::End => {
            text.extend_from_slice(b"end")?;
            Ok(())
        }
        Ending::Uncaught(class) => {
            text.extend_from_slice(b"uncaught ")?;
            text.extend_from_slice(class.bytes())?;
            Ok(())
        }
        Ending::Stopped => {
            text.extend_from_slice(b"budget")?;
            Ok(())
        }
    }
}

/// The line of an ending, with its end.
pub fn ending_line(alloc: Global, ending: &Ending) -> Result<Vec<u8>, NoMemory>
    ensures { IfOk result (λ text. text.items ≡ line (spec.ending_text (Fine ending.now))) }
{
    let mut text = Vec::new(alloc);
    add_ending(&mut text, ending)?;
    text.extend_from_slice(b"\n")?;
    Ok(text)
}

/// Adds the line of code that cannot be run, with its end.
fn add_bad_code_line(
    alloc: Global,
    text: &mut Vec<u8>,
    class: &Name,
    method: &[u8],
    offset: u32,
    reason: u8,
) -> Result<(), NoMemory>
    ensures { OnOk result (text.new.items ≡ text.old.items
        ++ line (spec.ending_text (BadCode class.now method.now offset reason))) }
{
    add_member(text, b"bad code ", class.bytes(), method)?;
    add_number(alloc, text, offset)?;
    text.extend_from_slice(b" ")?;
    add_number(alloc, text, u32::from(reason))?;
    text.extend_from_slice(b"\n")?;
    Ok(())
}

/// The line of code that cannot be run, with its end.
pub fn bad_code_line(
    alloc: Global,
    class: &Name,
    method: &[u8],
    offset: u32,
    reason: u8,
) -> Result<Vec<u8>, NoMemory>
    ensures { IfOk result (λ text.
        text.items ≡ line (spec.ending_text (BadCode class.now method.now offset reason))) }
{
    let mut text = Vec::new(alloc);
    add_bad_code_line(alloc, &mut text, class, method, offset, reason)?;
    Ok(text)
}
