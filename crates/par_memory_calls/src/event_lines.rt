//! The line of each event and of each ending that a run can have.

use par_base::name::Name;
use par_event_lines::{bad_code_line, ending_line, event_line};
use par_values::run::{Ending, Event, Val};
use par_worked::expect;
use std::alloc::Global;
use std::test::Fail;

fn item(alloc: Global) -> Result<Name, Fail> {
    Ok(Name::new(alloc, b"Item")?)
}

fn field(alloc: Global) -> Result<Name, Fail> {
    Ok(Name::new(alloc, b"f")?)
}

fn is_line_of(alloc: Global, event: &Event, text: &[u8]) -> Result<bool, Fail> {
    let line = event_line(alloc, event)?;
    let is_this = line.as_slice() == text;
    drop(line);
    Ok(is_this)
}

// Whether an event that nobody asks for again has this line.
fn is_told(alloc: Global, event: Event, text: &[u8]) -> Result<bool, Fail> {
    let is_told = is_line_of(alloc, &event, text);
    drop(event);
    is_told
}

fn output_is_told(alloc: Global) -> Result<bool, Fail> {
    let class = item(alloc)?;
    let channel = field(alloc)?;
    is_told(alloc, Event::Out(class, channel, -5), b"out Item.f -5\n")
}

fn static_write_is_told(alloc: Global) -> Result<bool, Fail> {
    let class = item(alloc)?;
    let field = field(alloc)?;
    is_told(
        alloc,
        Event::Set(class, field, Val::Null),
        b"set Item.f null\n",
    )
}

fn write_is_told(alloc: Global) -> Result<bool, Fail> {
    let class = item(alloc)?;
    let of = item(alloc)?;
    let field = field(alloc)?;
    is_told(
        alloc,
        Event::Put(class, 3, field, Val::Ref(of, 12)),
        b"put Item#3.f Item#12\n",
    )
}

fn birth_is_told(alloc: Global) -> Result<bool, Fail> {
    let class = item(alloc)?;
    is_told(alloc, Event::Born(class, 0), b"new Item#0\n")
}

#[test]
fn each_event_has_its_line(rt: HostRuntime) -> Result<(), Fail> {
    expect(output_is_told(rt.alloc())?, "an output")?;
    expect(static_write_is_told(rt.alloc())?, "a static field")?;
    expect(write_is_told(rt.alloc())?, "a field of an object")?;
    expect(birth_is_told(rt.alloc())?, "a new object")
}

fn exception_is_told(alloc: Global) -> Result<bool, Fail> {
    let ending = Ending::Uncaught(item(alloc)?);
    let line = ending_line(alloc, &ending);
    drop(ending);
    let line = line?;
    let is_told = line.as_slice() == b"uncaught Item\n".as_slice();
    drop(line);
    Ok(is_told)
}

fn bad_code_is_told(alloc: Global) -> Result<bool, Fail> {
    let class = item(alloc)?;
    let line = bad_code_line(alloc, &class, b"<init>", 7, 4);
    drop(class);
    let line = line?;
    let is_told = line.as_slice() == b"bad code Item.<init> 7 4\n".as_slice();
    drop(line);
    Ok(is_told)
}

#[test]
fn each_ending_has_its_line(rt: HostRuntime) -> Result<(), Fail> {
    expect(exception_is_told(rt.alloc())?, "an exception")?;
    expect(bad_code_is_told(rt.alloc())?, "bad code")
}
