//! The frames that forms say.

ghost use Rattle.std.specs.Prelude.{◌≡◌, ◌+◌, ◌≤◌, ◌<◌, ◌^◌, [], ◌∷◌, ◌++◌, length, map, IfOk};
ghost use Rattle.par_base.specs.Names.{IsName};
ghost use Rattle.par_single.specs.Members as members;
ghost use Rattle.par_kinds.specs.Kinds.{vkind};
ghost use Rattle.par_frames.specs.Given as given;
ghost use Rattle.par_given_frames.specs.Reads.{Gives};
ghost use Rattle.par_given_frames.specs.Named.{AreNamed};
ghost use Rattle.par_given_frames.specs.Before.{next_from, listed_by};

use crate::error::Unread;
use crate::kinds::{all_copied, kind_of, put_kinds};
use crate::sizes::delta;
use par_base::list::List;
use par_base::memory::NoMemory;
use par_base::name::Name;
use par_class::file::{ClassFile, MethodFile};
use par_frame_forms::{FrameForm, PlaceType};
use par_kinds::frame::{Frame, PlacedFrame, VKind};
use par_pool::constant::Constant;
use par_single::descriptor::method_signature;
use par_single::member::{is_static, own_name, text_at};
use par_values::kind::Kind;
use std::alloc::Global;

/// What the next frame counts and lists from.
#[derive(Clone, Copy)]
struct Before<'f> {
    offset: u32,
    locals: &'f [VKind],
}

/// The kind of what a descriptor says.
fn kind_said(alloc: Global, kind: &Kind) -> Result<VKind, NoMemory>
    ensures { IfOk result (λ said. said ≡ vkind kind.now) }
{
    match kind {
        Kind::Number => Ok(VKind::Int),
        Kind::Object(name) => Ok(VKind::Object(name.copy(alloc)?)),
        Kind::AnyObject => Ok(VKind::Base(false)),
        Kind::Anything => Ok(VKind::Top),
    }
}

/// The kinds of what a descriptor says, put behind others.
fn put_said(alloc: Global, said: &[Kind], first: List<VKind>) -> Result<List<VKind>, NoMemory>
    ensures { IfOk result (λ all. all ≡ first ++ map vkind said.now) }
{
    let mut kinds = first;
    let mut rest = said;
    while let [kind, behind @ ..] = rest {
        kinds.push(kind_said(alloc, kind)?)?;
        rest = behind;
    }
    Ok(kinds)
}

/// The receiver and the arguments of a method.
pub(crate) fn start_of(
    alloc: Global,
    file: &ClassFile,
    m: &MethodFile,
) -> Result<List<VKind>, NoMemory>
    requires { IsName (members.own_name file.now) }
    ensures { IfOk result (λ start. start ≡ given.start_of file.now m.now) }
{
    let mut start = List::new(alloc);
    if !is_static(m.access) {
        start.push(VKind::Object(Name::new(alloc, own_name(file))?))?;
    }
    let descriptor = text_at(file.pool.entries.as_slice(), m.descriptor);
    match method_signature(alloc, descriptor)? {
        Some(signature) => put_said(alloc, signature.takes.as_slice(), start),
        None => Ok(start),
    }
}

/// The locals of a form, behind a frame that lists these.
fn locals_said(
    alloc: Global,
    entries: &[Constant],
    listed: &[VKind],
    form: &FrameForm,
) -> Result<List<VKind>, Unread>
    requires { AreNamed entries.now }
    ensures { Gives (λ locals. locals) result
        (given.locals_said entries.now listed.now form.now) }
{
    match form {
        FrameForm::Cut(many, _) => match listed.len().checked_sub(usize::from(*many)) {
            Some(left) => Ok(all_copied(alloc, &listed[..left])?),
            None => Err(Unread::Refused),
        },
        FrameForm::More(_, types) => {
            let first = all_copied(alloc, listed)?;
            put_kinds(alloc, entries, types.as_slice(), first)
        }
        FrameForm::Full(_, locals, _) => {
            put_kinds(alloc, entries, locals.as_slice(), List::new(alloc))
        }
        _ => Ok(all_copied(alloc, listed)?),
    }
}

/// A list of the one kind that a type says.
fn single(alloc: Global, entries: &[Constant], t: &PlaceType) -> Result<List<VKind>, Unread>
    requires { AreNamed entries.now }
    ensures { Gives (λ kinds. kinds) result (given.kinds_of entries.now (t.now ∷ [])) }
{
    let mut kinds = List::new(alloc);
    kinds.push(kind_of(alloc, entries, t)?)?;
    Ok(kinds)
}

/// The operands of a form.
fn stack_said(alloc: Global, entries: &[Constant], form: &FrameForm) -> Result<List<VKind>, Unread>
    requires { AreNamed entries.now }
    ensures { Gives (λ stack. stack) result (given.stack_said entries.now form.now) }
{
    match form {
        FrameForm::OneOperand(_, t) => single(alloc, entries, t),
        FrameForm::OneOperandFar(_, t) => single(alloc, entries, t),
        FrameForm::Full(_, _, stack) => {
            put_kinds(alloc, entries, stack.as_slice(), List::new(alloc))
        }
        _ => Ok(List::new(alloc)),
    }
}

/// The frame of a form.
fn frame_said(
    alloc: Global,
    entries: &[Constant],
    before: Before,
    form: &FrameForm,
) -> Result<PlacedFrame, Unread>
    requires named { AreNamed entries.now }
    requires near { before.offset + 65535 < 2 ^ 32 }
    ensures said { Gives (λ f. f) result
        (given.frame_said entries.now before.entry.offset before.entry.locals.now form.now) }
    ensures near { IfOk result (λ f. f.offset ≤ before.entry.offset + 65535) }
{
    let locals = locals_said(alloc, entries, before.locals, form)?;
    let stack = stack_said(alloc, entries, form)?;
    Ok(PlacedFrame {
        offset: before.offset + u32::from(delta(form)),
        frame: Frame { locals, stack },
    })
}

/// What the next frame counts and lists from, behind these.
fn before_next<'f>(start: &'f [VKind], frames: &'f [PlacedFrame]) -> Before<'f>
    requires { next_from frames.now < 2 ^ 32 }
    ensures offset { result.offset ≡ next_from frames.now }
    ensures locals { result.locals.now ≡ listed_by start.now frames.now }
{
    match frames.last() {
        Some(f) => Before {
            offset: f.offset + 1,
            locals: f.frame.locals.as_slice(),
        },
        None => Before {
            offset: 0,
            locals: start,
        },
    }
}

/// The frames of forms, behind the locals of the call.
pub(crate) fn frames_said(
    alloc: Global,
    entries: &[Constant],
    start: &[VKind],
    forms: &[FrameForm],
) -> Result<List<PlacedFrame>, Unread>
    requires named { AreNamed entries.now }
    requires few { length forms.now < 2 ^ 16 }
    ensures { Gives (λ frames. frames) result
        (given.frames_said entries.now 0 start.now forms.now) }
{
    let mut frames = List::new(alloc);
    let mut rest = forms;
    while let [form, behind @ ..] = rest {
        let f = frame_said(alloc, entries, before_next(start, frames.as_slice()), form)?;
        frames.push(f)?;
        rest = behind;
    }
    Ok(frames)
}
