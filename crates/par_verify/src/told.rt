//! What the forms of frames say, as a verifier keeps it. A form that says nothing stands in no file
//! whose methods have their frames.

ghost use Rattle.std.specs.Prelude.{◌≡◌, ◌-◌, [], ◌∷◌, ◌++◌, length, take, map, reverse};
ghost use Rattle.std.specs.Prelude.{IfOk, IfSome};
ghost use Rattle.par_kinds.specs.Linked.{padded};
ghost use Rattle.par_frame_steps.specs.Marks.{kind_of, kinds_of, frame_of};
ghost use Rattle.par_given_frames.specs.par_frames.Given.{locals_said, stack_said};
ghost use Rattle.par_verify.specs.Said.{kind_in, kind_in_class};

use par_base::memory::NoMemory;
use par_class::par_pool::constant::Constant;
use par_class::par_pool::kind::entry;
use par_frame_forms::{FrameForm, PlaceType};
use par_frame_steps::{Pile, PlaceFrame, PlaceKind};
use par_single::member::text_at;
use std::alloc::Global;

/// The kind of the class of this name.
fn class_kind(name: &[u8]) -> PlaceKind
    ensures { kind_of result ≡ kind_in_class name.now }
{
    if name == b"java/lang/Object".as_slice() {
        PlaceKind::Base(false)
    } else if name == b"java/lang/Exception".as_slice() {
        PlaceKind::Base(true)
    } else if name == b"java/lang/ArithmeticException".as_slice() {
        PlaceKind::Object(b"ArithmeticException")
    } else if name == b"java/lang/NullPointerException".as_slice() {
        PlaceKind::Object(b"NullPointerException")
    } else if name == b"paragon/Locks".as_slice() {
        PlaceKind::Top
    } else {
        PlaceKind::Object(name)
    }
}

/// The kind that a type says.
fn kind_said<'f>(entries: &'f [Constant], t: &PlaceType) -> PlaceKind<'f>
    ensures { kind_of result ≡ kind_in entries.entry.now t.now }
{
    match t {
        PlaceType::Top => PlaceKind::Top,
        PlaceType::Int => PlaceKind::Int,
        PlaceType::Null => PlaceKind::Null,
        PlaceType::Class(index) => match entry(entries, *index) {
            Some(Constant::Class(name)) => class_kind(text_at(entries, *name)),
            _ => PlaceKind::Top,
        },
    }
}

/// The kinds that types say, put behind others.
fn put_kinds<'f>(
    alloc: Global,
    entries: &'f [Constant],
    types: &[PlaceType],
    first: Pile<'f>,
) -> Result<Pile<'f>, NoMemory>
    ensures { IfOk result (λ all. kinds_of all
        ≡ kinds_of first.entry ++ map (kind_in entries.entry.now) types.now) }
{
    let mut all = first;
    for t in types {
        all.push(alloc, kind_said(entries, t))?;
    }
    Ok(all)
}

/// Kinds without the last ones.
fn cut<'f>(alloc: Global, many: u8, listed: Pile<'f>) -> Result<Pile<'f>, NoMemory>
    ensures { IfOk result (λ left.
        left ≡ take (length listed.entry - many) listed.entry) }
{
    let mut left = listed;
    left.take(alloc, usize::from(many))?;
    Ok(left)
}

/// The locals of a form, behind a frame that lists these.
pub(crate) fn locals_said<'f>(
    alloc: Global,
    entries: &'f [Constant],
    listed: Pile<'f>,
    form: &FrameForm,
) -> Result<Pile<'f>, NoMemory>
    ensures { IfOk result (λ locals.
        IfSome (locals_said entries.entry.now (kinds_of listed.entry) form.now)
        (λ said. kinds_of locals ≡ said)) }
{
    match form {
        FrameForm::Cut(many, _) => cut(alloc, *many, listed),
        FrameForm::More(_, types) => put_kinds(alloc, entries, types.as_slice(), listed),
        FrameForm::Full(_, locals, _) => {
            put_kinds(alloc, entries, locals.as_slice(), Pile::new(alloc))
        }
        _ => Ok(listed),
    }
}

/// The one kind that a type says.
fn single<'f>(alloc: Global, entries: &'f [Constant], t: &PlaceType) -> Result<Pile<'f>, NoMemory>
    ensures { IfOk result (λ kinds. kinds_of kinds ≡ kind_in entries.entry.now t.now ∷ []) }
{
    let mut kinds = Pile::new(alloc);
    kinds.push(alloc, kind_said(entries, t))?;
    Ok(kinds)
}

/// The operands of a form.
fn stack_said<'f>(
    alloc: Global,
    entries: &'f [Constant],
    form: &FrameForm,
) -> Result<Pile<'f>, NoMemory>
    ensures { IfOk result (λ stack. IfSome (stack_said entries.entry.now form.now)
        (λ said. kinds_of stack ≡ said)) }
{
    match form {
        FrameForm::OneOperand(_, t) => single(alloc, entries, t),
        FrameForm::OneOperandFar(_, t) => single(alloc, entries, t),
        FrameForm::Full(_, _, stack) => {
            put_kinds(alloc, entries, stack.as_slice(), Pile::new(alloc))
        }
        _ => Ok(Pile::new(alloc)),
    }
}

/// The frame of a form that lists these locals, of code with so many. It shares them.
pub(crate) fn frame_said<'f>(
    alloc: Global,
    entries: &'f [Constant],
    many: u16,
    listed: &Pile<'f>,
    form: &FrameForm,
) -> Result<PlaceFrame<'f>, NoMemory>
    ensures { IfOk result (λ frame. IfSome (stack_said entries.entry.now form.now)
        (λ said. frame_of frame ≡ record {
          locals = padded many (kinds_of listed.now);
          stack = reverse said;
        })) }
{
    Ok(PlaceFrame {
        many: usize::from(many),
        locals: listed.copied(alloc)?,
        stack: stack_said(alloc, entries, form)?,
    })
}
