//! Which form is written for a frame: the shortest.

ghost use Rattle.std.specs.Prelude.{◌≡◌, ◌++◌, ◌≤◌, ◌<◌, ◌^◌, None, Some, [], ◌∷◌, length, OnOk};
ghost use Rattle.std.specs.Prelude.{MatchOption, IfSome, IfOk, map};
ghost use Rattle.std.specs.List.{AllByRecursion, list_all};
ghost use Rattle.par_frame_forms.specs.Spelled.{spelled, spelled_all, says};
ghost use Rattle.par_frame_forms.specs.Written.{same_type, behind, is_top, known, many_cut};
ghost use Rattle.par_frame_forms.specs.Written.{shorter, bare, by_stack, written};
ghost use Rattle.par_frames.specs.Room.{Ascend};
ghost use Rattle.par_frames.specs.Forms.{IndexedFits, listed_by, forms_from};

use crate::form_bytes::{FEW, NEAR, put_cut, put_full, put_more, put_operand};
use crate::indexed::IndexedFrame;
use par_base::memory::NoMemory;
use par_frame_forms::PlaceType;

#[tactic(auto, unfolding(par_frame_forms::specs::Written::same_type))]
fn is_same(t: &PlaceType, u: &PlaceType) -> bool
    ensures { result ≡ same_type t.now u.now }
{
    match t {
        PlaceType::Top => matches!(u, PlaceType::Top),
        PlaceType::Int => matches!(u, PlaceType::Int),
        PlaceType::Null => matches!(u, PlaceType::Null),
        PlaceType::Class(m) => matches!(u, PlaceType::Class(n) if m == n),
    }
}

/// What a list has behind another with which it begins.
#[tactic(auto, unfolding(par_frame_forms::specs::Written::behind))]
fn behind<'l>(listed: &[PlaceType], locals: &'l [PlaceType]) -> Option<&'l [PlaceType]>
    ensures behind { MatchOption result (behind listed.now locals.now ≡ None)
        (λ rest. behind listed.now locals.now ≡ Some rest.now) }
    ensures whole { IfSome result (λ rest. locals.now ≡ listed.now ++ rest.now) }
{
    let mut front = listed;
    let mut rest = locals;
    while let [t, front_behind @ ..] = front {
        let [u, rest_behind @ ..] = rest else {
            return None;
        };
        if !is_same(t, u) {
            return None;
        }
        front = front_behind;
        rest = rest_behind;
    }
    Some(rest)
}

fn is_top(t: &PlaceType) -> bool
    ensures { result ≡ is_top t.now }
{
    matches!(t, PlaceType::Top)
}

/// Whether no local is known.
fn are_tops(locals: &[PlaceType]) -> bool
    ensures { result ≡ list_all is_top locals.now }
{
    locals.iter().all(|t| is_top(t))
}

/// Locals up to the last one that is known.
fn known(locals: &[PlaceType]) -> &[PlaceType]
    ensures { result.now ≡ known locals.now }
{
    let mut rest = locals;
    while let Some(split) = rest.split_last()
        && is_top(split.0)
    {
        rest = split.1;
    }
    rest
}

/// As many of these locals as a form can cut.
fn many_cut(rest: &[PlaceType]) -> usize
    ensures many { result ≡ many_cut rest.now }
    ensures within { result ≤ length rest.now }
    ensures few { result ≤ 3 }
{
    if rest.len() <= FEW { rest.len() } else { FEW }
}

/// Puts a frame without operands, behind one that lists its locals and then others: what is listed
/// for the next one.
fn put_shorter<'l>(
    out: &mut Vec<u8>,
    listed: &'l [PlaceType],
    delta: u16,
    locals: &'l [PlaceType],
    rest: &[PlaceType],
) -> Result<&'l [PlaceType], NoMemory>
    requires few { length locals.now < 2 ^ 16 }
    requires begins { length rest.now ≤ length listed.now }
    ensures bytes { OnOk result (out.new.items ≡ out.old.items ++ spelled
        (shorter (record { delta = delta; locals = locals.now; stack = [] }) rest.now)) }
    ensures listed { IfOk result (λ next. next.now ≡ (says listed.now
        (shorter (record { delta = delta; locals = locals.now; stack = [] }) rest.now)).locals) }
{
    if are_tops(rest) && delta < NEAR {
        out.push(delta as u8)?;
        return Ok(listed);
    }
    if rest.is_empty() {
        put_more(out, delta, &[])?;
        return Ok(listed);
    }
    let many = many_cut(rest);
    if are_tops(&rest[..rest.len() - many]) {
        put_cut(out, many as u8, delta)?;
        return Ok(&listed[..listed.len() - many]);
    }
    put_full(out, delta, locals, &[])?;
    Ok(locals)
}

/// Puts a frame without operands, behind one that lists these locals: what is listed for the next
/// one.
fn put_bare<'l>(
    out: &mut Vec<u8>,
    listed: &'l [PlaceType],
    delta: u16,
    locals: &'l [PlaceType],
) -> Result<&'l [PlaceType], NoMemory>
    requires { length locals.now < 2 ^ 16 }
    ensures bytes { OnOk result (out.new.items ≡ out.old.items ++ spelled
        (bare (record { delta = delta; locals = locals.now; stack = [] })
        (behind locals.now listed.now) (behind listed.now locals.now))) }
    ensures listed { IfOk result (λ next. next.now ≡ (says listed.now
        (bare (record { delta = delta; locals = locals.now; stack = [] })
        (behind locals.now listed.now) (behind listed.now locals.now))).locals) }
{
    if let Some(rest) = behind(locals, listed) {
        return put_shorter(out, listed, delta, locals, rest);
    }
    match behind(listed, locals) {
        Some(more) if more.len() <= FEW => put_more(out, delta, more)?,
        _ => put_full(out, delta, locals, &[])?,
    }
    Ok(locals)
}

/// Puts a frame with one operand, behind one that lists these locals: what is listed for the next
/// one.
fn put_single<'l>(
    out: &mut Vec<u8>,
    listed: &'l [PlaceType],
    delta: u16,
    locals: &'l [PlaceType],
    stack: &[PlaceType],
) -> Result<&'l [PlaceType], NoMemory>
    requires few { length locals.now < 2 ^ 16 }
    requires one { length stack.now ≡ 1 }
    ensures bytes { OnOk result (out.new.items ≡ out.old.items ++ spelled
        (by_stack listed.now (record { delta = delta; locals = locals.now; stack = stack.now })
        stack.now)) }
    ensures listed { IfOk result (λ next. next.now ≡ (says listed.now
        (by_stack listed.now (record { delta = delta; locals = locals.now; stack = stack.now })
        stack.now)).locals) }
{
    match behind(locals, listed) {
        Some(rest) if are_tops(rest) => {
            put_operand(out, delta, &stack[0])?;
            Ok(listed)
        }
        _ => {
            put_full(out, delta, locals, stack)?;
            Ok(locals)
        }
    }
}

/// Puts a frame behind one that lists these locals: what is listed for the next one.
fn put_frame<'l>(
    out: &mut Vec<u8>,
    listed: &'l [PlaceType],
    delta: u16,
    locals: &'l [PlaceType],
    stack: &[PlaceType],
) -> Result<&'l [PlaceType], NoMemory>
    requires few { length locals.now < 2 ^ 16 }
    requires low { length stack.now < 2 ^ 16 }
    ensures bytes { OnOk result (out.new.items ≡ out.old.items ++ spelled
        (written listed.now (record { delta = delta; locals = locals.now; stack = stack.now }))) }
    ensures listed { IfOk result (λ next. next.now ≡ listed_by listed.now
        (record { delta = delta; locals = locals.now; stack = stack.now })) }
{
    let own = known(locals);
    match stack.len() {
        0 => put_bare(out, listed, delta, own),
        1 => put_single(out, listed, delta, own, stack),
        _ => {
            put_full(out, delta, own, stack)?;
            Ok(own)
        }
    }
}

/// Puts frames one behind the other, from an offset on.
#[tactic(auto, unfolding(crate::specs::Forms::forms_from))]
pub(crate) fn put_frames(
    out: &mut Vec<u8>,
    from: u32,
    listed: &[PlaceType],
    frames: &[IndexedFrame],
) -> Result<(), NoMemory>
    requires ascend { Ascend from (map (λ f. f.offset) frames.now) }
    requires fit { AllByRecursion IndexedFits frames.now }
    ensures { OnOk result (out.new.items
        ≡ out.old.items ++ spelled_all (forms_from from listed.now frames.now)) }
{
    let mut next = from;
    let mut earlier = listed;
    let mut rest = frames;
    while let [f, behind @ ..] = rest {
        let delta = (f.offset - next) as u16;
        earlier = put_frame(out, earlier, delta, f.locals.as_slice(), f.stack.as_slice())?;
        next = f.offset + 1;
        rest = behind;
    }
    Ok(())
}
