//! Code in pieces: each goes straight on to its end.

ghost use Rattle.std.specs.Prelude.{◌≤◌, length};
ghost use Rattle.par_frame_guesses.specs.Methods.{code_in};

use crate::back::{is_marked, mark};
use crate::bounds::Bounds;
use crate::frames::kept;
use crate::method::Method;
use par_base::memory::NoMemory;
use par_class::file::Catch;
use par_frame_acts::act;
use par_frame_steps::{Flow, PlaceFrame};
use par_instr::{Instr, decode};
use par_small_kinds::{Classes, Effect};
use par_starts::distance;
use std::alloc::Global;

/// The offsets at which a piece goes on.
#[derive(Clone, Copy)]
pub(crate) struct Goals {
    pub(crate) ahead: Option<usize>,
    pub(crate) aside: Option<usize>,
}

impl Goals {
    /// None.
    fn nowhere() -> Goals {
        Goals {
            ahead: None,
            aside: None,
        }
    }
}

/// A piece of code.
#[derive(Drop)]
pub(crate) struct Piece {
    pub(crate) effect: Effect,
    pub(crate) goals: Goals,
}

/// The offset so far from another.
fn goal(at: usize, far: i16) -> Option<usize>
    requires { at ≤ 65535 }
{
    let to = at as i32 + i32::from(far);
    if to < 0 {
        return None;
    }
    Some(to as usize)
}

/// Whether an instruction sets a local.
fn is_store(instr: Instr) -> bool {
    match instr {
        Instr::Istore(_) => true,
        Instr::Astore(_) => true,
        Instr::IstoreShort(_) => true,
        Instr::AstoreShort(_) => true,
        _ => false,
    }
}

/// Marks the offsets before which the instruction at an offset ends a piece: where it branches, and
/// where it sets a local that a handler sees.
fn mark_ends(bytes: &[u8], is_handled: bool, heads: &mut [bool], at: usize)
    requires within { at ≤ length bytes.now }
    requires small { length bytes.now ≤ 65535 }
{
    let Ok((instr, next)) = decode(bytes, at) else {
        return;
    };
    let far = distance(instr);
    if far != 0 {
        mark(heads, next);
        if let Some(to) = goal(at, far) {
            mark(heads, to);
        }
    }
    if is_handled && is_store(instr) {
        mark(heads, next);
    }
}

/// Marks where handlers begin, and what is inside them.
fn mark_handlers(catches: &[Catch], heads: &mut [bool]) {
    for catch in catches {
        mark(heads, catch.start as usize);
        mark(heads, catch.end as usize);
        mark(heads, catch.handler as usize);
    }
}

/// Lets a piece that begins within an instruction begin behind it.
fn put_off(heads: &mut [bool], at: usize) {
    if !is_marked(heads, at) {
        return;
    }
    if let Some(head) = heads.get_mut(at) {
        *head = false;
    }
    mark(heads, at.saturating_add(1));
}

/// Marks the offsets of frames that stand, and those before which instructions end a piece.
fn mark_pieces(method: &Method, table: &[Option<PlaceFrame>], heads: &mut [bool])
    requires { length (code_in method.now).code ≤ 65535 }
{
    let bytes = method.code.code.as_slice();
    let is_handled = !method.code.catches.as_slice().is_empty();
    for at in 0..bytes.len() {
        if kept(table, at).is_some() {
            mark(heads, at);
        }
        if method.starts.has(at as u32) {
            mark_ends(bytes, is_handled, heads, at);
        }
    }
}

/// Lets the pieces that begin within instructions begin behind them.
fn put_all_off(method: &Method, heads: &mut [bool])
    requires { length (code_in method.now).code ≤ 65535 }
{
    for at in 0..method.code.code.len() {
        if !method.starts.has(at as u32) {
            put_off(heads, at);
        }
    }
}

/// Of each offset whether a piece begins there, where these frames stand.
pub(crate) fn heads(
    alloc: Global,
    method: &Method,
    table: &[Option<PlaceFrame>],
) -> Result<Vec<bool>, NoMemory>
    requires { length (code_in method.now).code ≤ 65535 }
{
    let mut heads = vec![in alloc; false; method.code.code.len()]?;
    mark_handlers(method.code.catches.as_slice(), &mut heads);
    mark_pieces(method, table, &mut heads);
    put_all_off(method, &mut heads);
    Ok(heads)
}

/// Where an instruction goes on that ends a piece, none where it does not.
fn goals_of(heads: &[bool], flow: Flow, at: usize, next: usize) -> Option<Goals>
    requires { at ≤ 65535 }
{
    let ahead = Some(next);
    match flow {
        Flow::Onward if is_marked(heads, next) => Some(Goals { ahead, aside: None }),
        Flow::Onward => None,
        Flow::Jumps(far) => Some(Goals {
            ahead: None,
            aside: goal(at, far),
        }),
        Flow::Branches(far) => Some(Goals {
            ahead,
            aside: goal(at, far),
        }),
        Flow::Nowhere => Some(Goals::nowhere()),
    }
}

/// Lets an instruction follow on what code makes of a frame: where it goes on.
fn follow<'m, 'f>(
    alloc: Global,
    method: &Method<'m, 'f>,
    effect: &mut Effect,
    classes: &mut Classes<'m, 'f>,
    instr: Instr,
) -> Result<Flow, NoMemory> {
    let act = act(alloc, method.linked, method.class, method.gives, instr)?;
    effect.follow(classes, &act)?;
    Ok(act.flow)
}

/// Goes through the piece that begins at an offset: where it goes on. It goes nowhere where its
/// code is not whole, or where more would have to be looked at than may be.
fn go_along<'m, 'f>(
    alloc: Global,
    method: &Method<'m, 'f>,
    heads: &[bool],
    classes: &mut Classes<'m, 'f>,
    bounds: &mut Bounds,
    effect: &mut Effect,
    from: usize,
) -> Result<Goals, NoMemory>
    requires within { from ≤ length (code_in method.now).code }
    requires small { length (code_in method.now).code ≤ 65535 }
{
    let bytes = method.code.code.as_slice();
    let mut at = from;
    for _instr in 0..bytes.len() {
        let Ok((instr, next)) = decode(bytes, at) else {
            break;
        };
        if !bounds.may_ask(method, instr, next - at) {
            break;
        }
        let flow = follow(alloc, method, effect, classes, instr)?;
        if let Some(goals) = goals_of(heads, flow, at, next) {
            return Ok(goals);
        }
        at = next;
    }
    Ok(Goals::nowhere())
}

/// The piece that begins at an offset.
pub(crate) fn piece_at<'m, 'f>(
    alloc: Global,
    method: &Method<'m, 'f>,
    heads: &[bool],
    classes: &mut Classes<'m, 'f>,
    bounds: &mut Bounds,
    from: usize,
) -> Result<Piece, NoMemory>
    requires within { from ≤ length (code_in method.now).code }
    requires small { length (code_in method.now).code ≤ 65535 }
{
    let mut effect = Effect::of_nothing(alloc);
    let goals = go_along(alloc, method, heads, classes, bounds, &mut effect, from)?;
    Ok(Piece { effect, goals })
}
