ghost use Rattle.std.specs.Prelude.{◌≡◌, ◌≤◌, length, IfOk};
ghost use Rattle.par_pool.specs.Reading.{Gives};
ghost use Rattle.par_class.specs.Reading as reading;
ghost use Rattle.par_class.specs.Reading.{inside};

use crate::attribute::attributes_of;
use crate::file::{Catch, CodeAttr};
use crate::place::place;
use par_pool::constant::Constant;
use par_pool::error::ClassError;
use par_pool::item::{taken, u2, u4};
use par_pool::kind::is_class;
use par_pool::par_base::list::List;
use std::alloc::Global;

/// The four numbers of a handler.
#[tactic(auto, unfolding(crate::specs::Reading::numbers_at))]
fn numbers(short: ClassError, bytes: &[u8]) -> Result<(Catch, &[u8]), ClassError>
    ensures read { Gives (λ x. (x.0, x.1.now)) result (reading.numbers_at short bytes.now) }
    ensures long { IfOk result (λ _. 8 ≤ length bytes.now) }
{
    let (start, rest) = u2(short, bytes)?;
    let (end, rest) = u2(short, rest)?;
    let (handler, rest) = u2(short, rest)?;
    let (class, rest) = u2(short, rest)?;
    let catch = Catch {
        start,
        end,
        handler,
        class,
    };
    Ok((catch, rest))
}

/// A handler of code of this length, which is looked at when all of it is there: first the range
/// that it covers, then the class, whose index stands six bytes behind the head.
#[tactic(auto, unfolding(crate::specs::Reading::catch_at))]
fn catch_of<'b>(
    entries: &[Constant],
    short: ClassError,
    end: u32,
    len: usize,
    bytes: &'b [u8],
) -> Result<(Catch, &'b [u8]), ClassError>
    ensures { Gives (λ x. (x.0, x.1.now)) result
        (reading.catch_at entries.now short end len bytes.now) }
{
    let (catch, rest) = numbers(short, bytes)?;
    if catch.start >= catch.end || catch.end as usize > len || catch.handler as usize >= len {
        return Err(ClassError::Shape(place(end, bytes)));
    }
    if catch.class != 0 && !is_class(entries, catch.class) {
        return Err(ClassError::Index(place(end, bytes) + 6));
    }
    Ok((catch, rest))
}

/// The handlers behind their number.
#[tactic(auto, unfolding(crate::specs::Reading::catches_at))]
fn catches_of<'b>(
    alloc: Global,
    entries: &[Constant],
    short: ClassError,
    end: u32,
    len: usize,
    bytes: &'b [u8],
) -> Result<(List<Catch>, &'b [u8]), ClassError>
    ensures { Gives (λ x. (x.0, x.1.now)) result
        (reading.catches_at entries.now short end len bytes.now) }
{
    let (count, mut rest) = u2(short, bytes)?;
    let mut catches = List::new(alloc);
    for _ in 0..count {
        let (catch, after) = catch_of(entries, short, end, len, rest)?;
        catches.push(catch)?;
        rest = after;
    }
    Ok((catches, rest))
}

/// The number of code bytes, from 1 to 65535.
#[tactic(auto, unfolding(crate::specs::Reading::code_length_at))]
fn code_length<'b>(
    short: ClassError,
    end: u32,
    bytes: &'b [u8],
) -> Result<(u32, &'b [u8]), ClassError>
    ensures { Gives (λ x. (x.0, x.1.now)) result (reading.code_length_at short end bytes.now) }
{
    let (len, rest) = u4(short, bytes)?;
    if len == 0 || len > 65535 {
        return Err(ClassError::Shape(place(end, bytes)));
    }
    Ok((len, rest))
}

/// The bytes of code, and the limits that stand before them.
#[derive(Clone, Copy)]
struct Instructions<'b> {
    max_stack: u16,
    max_locals: u16,
    code: &'b [u8],
}

/// The two limits, and the code itself.
#[tactic(auto, unfolding(crate::specs::Reading::instructions_at))]
fn instructions_of<'b>(
    short: ClassError,
    end: u32,
    bytes: &'b [u8],
) -> Result<(Instructions<'b>, &'b [u8]), ClassError>
    ensures { Gives (λ x. ((x.0.max_stack, (x.0.max_locals, x.0.code.now)), x.1.now)) result
        (reading.instructions_at short end bytes.now) }
{
    let (max_stack, rest) = u2(short, bytes)?;
    let (max_locals, rest) = u2(short, rest)?;
    let (len, rest) = code_length(short, end, rest)?;
    let (code, rest) = taken(short, len as usize, rest)?;
    let instructions = Instructions {
        max_stack,
        max_locals,
        code,
    };
    Ok((instructions, rest))
}

/// Code, with its limits, handlers and attributes.
#[tactic(auto, unfolding(crate::specs::Reading::handled_at, crate::specs::Reading::code_at))]
fn code_of<'b>(
    alloc: Global,
    entries: &[Constant],
    short: ClassError,
    end: u32,
    bytes: &'b [u8],
) -> Result<(CodeAttr, &'b [u8]), ClassError>
    ensures { Gives (λ x. (x.0, x.1.now)) result (reading.code_at entries.now short end bytes.now) }
{
    let (head, rest) = instructions_of(short, end, bytes)?;
    let (catches, rest) = catches_of(alloc, entries, short, end, head.code.len(), rest)?;
    let (attributes, rest) = attributes_of(alloc, entries, short, end, rest)?;
    let code = List::wrap(Vec::from_slice(alloc, head.code)?);
    let attribute = CodeAttr {
        max_stack: head.max_stack,
        max_locals: head.max_locals,
        code,
        catches,
        attributes,
    };
    Ok((attribute, rest))
}

/// The code that is all of the inside of an attribute, which ends at `end`.
pub fn code_inside(
    alloc: Global,
    entries: &[Constant],
    end: u32,
    bytes: &[u8],
) -> Result<CodeAttr, ClassError>
    ensures { Gives (λ x. x) result (inside entries.now end bytes.now) }
{
    let shape = ClassError::Shape(place(end, bytes));
    let (code, rest) = code_of(alloc, entries, shape, end, bytes)?;
    if !rest.is_empty() {
        return Err(shape);
    }
    Ok(code)
}
