//! Where frames stand and how many locals and operands they list. Their kinds are not kept, so
//! that a look at all frames takes no more memory than their forms.

ghost use Rattle.std.specs.Prelude.{◌≡◌, ℕ, ◌≤◌, ◌<◌, ◌^◌, [], length, false, slice_index_or};
ghost use Rattle.std.specs.Bool.{OnTrue};
ghost use Rattle.std.specs.Prelude.{replicate, IfSome};
ghost use Rattle.std.specs.List.{list_all};
ghost use Rattle.par_frame_forms.specs.Spelled.{says};
ghost use Rattle.par_single.specs.Walk.{starts_at};
ghost use Rattle.par_given_frames.specs.Sizes as sizes;
ghost use Rattle.par_given_frames.specs.Sizes.{counted, size_said, is_placed, placed, framed};

use crate::kinds::is_kind;
use par_class::file::CodeAttr;
use par_frame_forms::{FrameForm, PlaceType};
use par_pool::constant::Constant;
use par_starts::Starts;

/// How much a frame lists, and where it stands.
#[derive(Clone, Copy)]
pub(crate) struct Size {
    pub(crate) offset: u32,
    pub(crate) locals: usize,
    pub(crate) stack: usize,
}

/// Whether all types say kinds.
fn are_kinds(entries: &[Constant], types: &[PlaceType]) -> bool
    ensures { result ≡ list_all (sizes.is_kind entries.now) types.now }
{
    types.iter().all(|t| is_kind(entries, t))
}

/// The number of types, if all of them say kinds.
fn counted(entries: &[Constant], types: &[PlaceType]) -> Option<usize>
    ensures many { result ≡ counted entries.now types.now }
    ensures few { IfSome result (λ many. many < 2 ^ 63) }
{
    if are_kinds(entries, types) {
        Some(types.len())
    } else {
        None
    }
}

/// How many locals a form lists behind so many.
fn locals_counted(entries: &[Constant], listed: usize, form: &FrameForm) -> Option<usize>
    requires { listed < 2 ^ 63 }
    ensures { result ≡ sizes.locals_counted entries.now listed form.now }
{
    match form {
        FrameForm::Cut(many, _) => listed.checked_sub(usize::from(*many)),
        FrameForm::More(_, types) => {
            let more = counted(entries, types.as_slice())?;
            Some(listed + more)
        }
        FrameForm::Full(_, locals, _) => counted(entries, locals.as_slice()),
        _ => Some(listed),
    }
}

/// How many operands a form lists.
fn stack_counted(entries: &[Constant], form: &FrameForm) -> Option<usize>
    ensures { result ≡ sizes.stack_counted entries.now form.now }
{
    match form {
        FrameForm::OneOperand(_, t) => is_kind(entries, t).then_some(1),
        FrameForm::OneOperandFar(_, t) => is_kind(entries, t).then_some(1),
        FrameForm::Full(_, _, stack) => counted(entries, stack.as_slice()),
        _ => Some(0),
    }
}

/// How far a frame is from the offset behind the one before.
pub fn delta(form: &FrameForm) -> u16
    ensures { result ≡ (says [] form.now).delta }
{
    match form {
        FrameForm::Same(delta) => u16::from(*delta),
        FrameForm::OneOperand(delta, _) => u16::from(*delta),
        FrameForm::OneOperandFar(delta, _) => *delta,
        FrameForm::Cut(_, delta) => *delta,
        FrameForm::More(delta, _) => *delta,
        FrameForm::Full(delta, _, _) => *delta,
    }
}

/// The frame of a form, behind one that lists so many locals.
fn size_said(entries: &[Constant], from: u32, listed: usize, form: &FrameForm) -> Option<Size>
    requires near { from ≤ 65535 }
    requires few { listed < 2 ^ 63 }
    ensures { result ≡ size_said entries.now from listed form.now }
{
    let locals = locals_counted(entries, listed, form)?;
    let stack = stack_counted(entries, form)?;
    Some(Size {
        offset: from + u32::from(delta(form)),
        locals,
        stack,
    })
}

/// Whether an instruction starts where a frame stands, and code has room for what it lists.
fn is_placed(starts: &Starts, code: &CodeAttr, size: Size) -> bool
    requires { (k : ℕ) → slice_index_or starts.now k false ≡ starts_at code.now.code k }
    ensures placed { result ≡ is_placed code.now size }
    ensures few { OnTrue result (size.locals < 2 ^ 16) }
{
    starts.has(size.offset)
        && size.locals <= usize::from(code.max_locals)
        && size.stack <= usize::from(code.max_stack)
}

/// Flags the offsets of frames, behind one that lists so many locals; whether all of them stand
/// where they may.
pub(crate) fn place_all(
    flags: &mut [bool],
    starts: &Starts,
    code: &CodeAttr,
    entries: &[Constant],
    listed: usize,
    forms: &[FrameForm],
) -> bool
    requires blank { flags.old ≡ replicate (length code.now.code) false }
    requires short { length code.now.code ≤ 65535 }
    requires starts { (k : ℕ) → slice_index_or starts.now k false ≡ starts_at code.now.code k }
    requires few { listed < 2 ^ 63 }
    ensures placed { result ≡ placed code.now entries.now 0 listed forms.now }
    ensures framed { OnTrue result ((at : ℕ) →
        slice_index_or flags.new at false ≡ framed entries.now 0 listed forms.now at) }
{
    let mut from = 0;
    let mut locals = listed;
    let mut rest = forms;
    while let [form, behind @ ..] = rest {
        let Some(size) = size_said(entries, from, locals, form) else {
            return false;
        };
        if !is_placed(starts, code, size) {
            return false;
        }
        flags[size.offset as usize] = true;
        from = size.offset + 1;
        locals = size.locals;
        rest = behind;
    }
    true
}
