//! The frame of a call. Descriptors are read once for all methods of a class that share them.

ghost use Rattle.std.specs.Prelude.{◌≡◌, ◌++◌, ◌<◌, List, Some, length, map, IfOk};
ghost use Rattle.par_class.specs.par_pool.declared.constant.Constant.{Constant};
ghost use Rattle.par_values.specs.Areas.{Name};
ghost use Rattle.par_single.specs.Links.{signature_said};
ghost use Rattle.par_single.specs.Members.{text_of, text_at};
ghost use Rattle.par_kinds.specs.Kinds.{vkind};
ghost use Rattle.par_kinds.specs.Linked.{given_to};
ghost use Rattle.par_frame_steps.specs.Marks.{asked_of, kinds_of, frame_of};
ghost use Rattle.par_verify.specs.Calls.{call_of, call_said, given_in, frame_given, AreCalls};

use par_base::memory::NoMemory;
use par_class::par_pool::constant::Constant;
use par_frame_acts::{arguments_at, asked_kind, gives_at};
use par_frame_steps::{Asked, Pile, PlaceFrame, PlaceKind};
use par_single::descriptor::Said;
use std::alloc::Global;

/// What the calls of methods of a class that have one descriptor are given, and give.
#[derive(Drop)]
pub(crate) struct Call<'f> {
    /// The arguments.
    of_class: Pile<'f>,
    /// The receiver and the arguments.
    of_object: Pile<'f>,
    /// None where they give nothing.
    pub(crate) gives: Option<Said<'f>>,
}

impl<'f> Call<'f> {
    /// What a call is given.
    fn given(&self, is_static: bool) -> &Pile<'f>
        ensures { kinds_of result.now ≡ given_in is_static (call_of self.now) }
    {
        if is_static {
            return &self.of_class;
        }
        &self.of_object
    }
}

/// Kinds, and behind them those of what is asked for.
fn with_asked<'f>(
    kinds: Vec<PlaceKind<'f>>,
    asked: &[Asked<'f>],
) -> Result<Vec<PlaceKind<'f>>, NoMemory>
    ensures { IfOk result (λ all. kinds_of all.items
        ≡ kinds_of kinds.entry.items ++ map vkind (map asked_of asked.now)) }
{
    let mut all = kinds;
    for asked in asked {
        all.push(asked_kind(*asked))?;
    }
    Ok(all)
}

/// The kinds of receiver and arguments of a method of this class and descriptor.
fn arguments<'f>(
    alloc: Global,
    is_static: bool,
    class: &'f [u8],
    descriptor: &'f [u8],
) -> Result<Vec<PlaceKind<'f>>, NoMemory>
    ensures { IfOk result (λ all. kinds_of all.items ≡ map vkind
        (given_to is_static class.entry.now (signature_said descriptor.entry.now).takes)) }
{
    let asked = arguments_at(alloc, descriptor)?;
    let mut first = Vec::new(alloc);
    if is_static {
        return with_asked(first, asked.as_slice());
    }
    first.push(PlaceKind::Object(class))?;
    with_asked(first, asked.as_slice())
}

/// The same, on one another.
fn given<'f>(
    alloc: Global,
    is_static: bool,
    class: &'f [u8],
    descriptor: &'f [u8],
) -> Result<Pile<'f>, NoMemory>
    ensures { IfOk result (λ pile. kinds_of pile ≡ map vkind
        (given_to is_static class.entry.now (signature_said descriptor.entry.now).takes)) }
{
    let kinds = arguments(alloc, is_static, class, descriptor)?;
    Pile::of(alloc, &kinds)
}

/// The calls of methods of this class and descriptor.
fn read<'f>(alloc: Global, class: &'f [u8], descriptor: &'f [u8]) -> Result<Call<'f>, NoMemory>
    ensures { IfOk result (λ call.
        call_of call ≡ call_said class.entry.now descriptor.entry.now) }
{
    let of_class = given(alloc, true, class, descriptor)?;
    let of_object = given(alloc, false, class, descriptor)?;
    Ok(Call {
        of_class,
        of_object,
        gives: gives_at(descriptor),
    })
}

/// The text of a constant, no bytes where it is none.
fn text_of(constant: &Constant) -> &[u8]
    ensures { result.now ≡ text_of (Some constant.now) }
{
    match constant {
        Constant::Utf8(text) => text.as_slice(),
        _ => &[],
    }
}

/// The calls of methods of this class, by the indices of their descriptors.
pub(crate) fn calls<'f>(
    alloc: Global,
    class: &'f [u8],
    entries: &'f [Constant],
) -> Result<Vec<Call<'f>>, NoMemory>
    ensures { IfOk result (λ calls. AreCalls class.entry.now entries.entry.now calls.items) }
{
    let mut calls = Vec::new(alloc);
    calls.push(read(alloc, class, &[])?)?;
    for constant in entries {
        calls.push(read(alloc, class, text_of(constant))?)?;
    }
    Ok(calls)
}

/// The calls of methods whose descriptor has this index.
pub(crate) fn call_at<'c, 'f>(calls: &'c [Call<'f>], descriptor: u16) -> &'c Call<'f>
    requires { 0 < length calls.now }
    ensures { (class : Name) (pool : List Constant) → AreCalls class pool calls.entry.now →
        call_of result.now ≡ call_said class (text_at pool descriptor) }
{
    let index = descriptor as usize;
    // Behind the last index no text stands, as at index 0.
    let index = if index < calls.len() { index } else { 0 };
    &calls[index]
}

/// The frame of a call of a method, whose code has so many locals. It shares what it is given.
pub(crate) fn first_frame<'f>(
    alloc: Global,
    many: u16,
    is_static: bool,
    call: &Call<'f>,
) -> Result<PlaceFrame<'f>, NoMemory>
    ensures frame { IfOk result (λ first.
        frame_of first ≡ frame_given many (given_in is_static (call_of call.now))) }
    ensures listed { IfOk result (λ first.
        kinds_of first.locals ≡ given_in is_static (call_of call.now)) }
{
    Ok(PlaceFrame {
        many: many as usize,
        locals: call.given(is_static).copied(alloc)?,
        stack: Pile::new(alloc),
    })
}
