//! The pieces of a method, and where each goes on.

ghost use Rattle.std.specs.Prelude.{◌≤◌, length};
ghost use Rattle.par_frame_guesses.specs.Methods.{code_in};

use crate::back::is_marked;
use crate::bounds::Bounds;
use crate::frames::kept;
use crate::handler::is_around;
use crate::method::Method;
use crate::piece::{Goals, heads, piece_at};
use par_base::memory::NoMemory;
use par_class::file::Catch;
use par_frame_acts::caught;
use par_frame_steps::PlaceFrame;
use par_small_kinds::{Classes, Effect, SmallKind};
use std::alloc::Global;

/// A way on from a piece.
#[derive(Clone, Copy)]
pub(crate) struct Way {
    /// The number of the piece to which it goes.
    pub(crate) to: usize,
    /// What is caught there, where that is a handler.
    pub(crate) caught: Option<SmallKind>,
}

/// A piece, and where it goes on.
pub(crate) struct Spot {
    pub(crate) at: u32,
    pub(crate) effect: Effect,
    /// Those to frames that are told are left out: these do not rise.
    pub(crate) ways: Vec<Way>,
    pub(crate) is_told: bool,
}

// Written out, so that what owns one is proved without its parts.
impl Drop for Spot {
    fn drop(self) {
        let Spot {
            at: _,
            effect: _,
            ways: _,
            is_told: _,
        } = self;
    }
}

/// A handler, and the way to it.
#[derive(Clone, Copy)]
struct Handler<'c> {
    catch: &'c Catch,
    way: Way,
}

/// The numbers of the pieces, by their offsets, of those before which no frame is told.
fn free_numbers(
    alloc: Global,
    heads: &[bool],
    table: &[Option<PlaceFrame>],
) -> Result<Vec<Option<usize>>, NoMemory> {
    let mut numbers = Vec::new(alloc);
    let mut next: usize = 0;
    for (at, head) in heads.iter().enumerate() {
        let is_free = *head && kept(table, at).is_none();
        numbers.push(if is_free { Some(next) } else { None })?;
        if *head {
            next = next.saturating_add(1);
        }
    }
    Ok(numbers)
}

/// The way to an offset, where it does not go to a frame that is told.
fn way_to(numbers: &[Option<usize>], at: usize, caught: Option<SmallKind>) -> Option<Way> {
    match numbers.get(at) {
        Some(Some(to)) => Some(Way { to: *to, caught }),
        _ => None,
    }
}

/// The handlers of a method to which there is a way.
fn handlers<'m, 'f>(
    alloc: Global,
    method: &Method<'m, 'f>,
    numbers: &[Option<usize>],
    classes: &mut Classes<'m, 'f>,
) -> Result<Vec<Handler<'f>>, NoMemory> {
    let mut handlers = Vec::new(alloc);
    for catch in method.code.catches.as_slice() {
        let kind = classes.small(caught(method.linked, method.class, catch))?;
        if let Some(way) = way_to(numbers, catch.handler as usize, Some(kind)) {
            handlers.push(Handler { catch, way })?;
        }
    }
    Ok(handlers)
}

/// The ways to some offsets.
fn ways_to(alloc: Global, numbers: &[Option<usize>], goals: Goals) -> Result<Vec<Way>, NoMemory> {
    let mut ways = Vec::new(alloc);
    for goal in [goals.ahead, goals.aside] {
        let Some(at) = goal else {
            continue;
        };
        if let Some(way) = way_to(numbers, at, None) {
            ways.push(way)?;
        }
    }
    Ok(ways)
}

/// Adds the ways to the handlers that are around an offset, but those that are too many.
fn add_throws(
    ways: &mut Vec<Way>,
    handlers: &[Handler],
    bounds: &mut Bounds,
    at: u32,
) -> Result<(), NoMemory> {
    if !bounds.may_look(handlers.len()) {
        return Ok(());
    }
    for handler in handlers {
        if is_around(at, handler.catch) && bounds.may_throw() {
            ways.push(handler.way)?;
        }
    }
    Ok(())
}

/// Where pieces begin and end.
struct Outline<'c> {
    heads: Vec<bool>,
    numbers: Vec<Option<usize>>,
    handlers: Vec<Handler<'c>>,
}

// Written out, so that what owns one is proved without its parts.
impl Drop for Outline<'_> {
    fn drop(self) {
        let Outline {
            heads: _,
            numbers: _,
            handlers: _,
        } = self;
    }
}

/// Where the pieces of a method begin and end.
fn outlined<'m, 'f>(
    alloc: Global,
    method: &Method<'m, 'f>,
    table: &[Option<PlaceFrame<'f>>],
    classes: &mut Classes<'m, 'f>,
) -> Result<Outline<'f>, NoMemory>
    requires { length (code_in method.now).code ≤ 65535 }
{
    let heads = heads(alloc, method, table)?;
    let numbers = free_numbers(alloc, &heads, table)?;
    let handlers = handlers(alloc, method, &numbers, classes)?;
    Ok(Outline {
        heads,
        numbers,
        handlers,
    })
}

impl Outline<'_> {
    /// The ways on from a piece.
    fn ways(
        &self,
        alloc: Global,
        bounds: &mut Bounds,
        goals: Goals,
        at: u32,
    ) -> Result<Vec<Way>, NoMemory> {
        let mut ways = ways_to(alloc, &self.numbers, goals)?;
        add_throws(&mut ways, &self.handlers, bounds, at)?;
        Ok(ways)
    }

    /// The piece that begins at an offset.
    fn spot<'m, 'f>(
        &self,
        alloc: Global,
        method: &Method<'m, 'f>,
        table: &[Option<PlaceFrame<'f>>],
        classes: &mut Classes<'m, 'f>,
        bounds: &mut Bounds,
        at: usize,
    ) -> Result<Spot, NoMemory>
        requires within { at ≤ length (code_in method.now).code }
        requires small { length (code_in method.now).code ≤ 65535 }
    {
        let piece = piece_at(alloc, method, &self.heads, classes, bounds, at)?;
        let is_told = kept(table, at).is_some();
        let at = at as u32;
        match self.ways(alloc, bounds, piece.goals, at) {
            Ok(ways) => Ok(Spot {
                at,
                effect: piece.effect,
                ways,
                is_told,
            }),
            Err(error) => {
                drop(piece);
                Err(error)
            }
        }
    }

    /// The pieces in their order.
    fn spots<'m, 'f>(
        &self,
        alloc: Global,
        method: &Method<'m, 'f>,
        table: &[Option<PlaceFrame<'f>>],
        classes: &mut Classes<'m, 'f>,
    ) -> Result<Vec<Spot>, NoMemory>
        requires { length (code_in method.now).code ≤ 65535 }
    {
        let mut bounds = Bounds::new();
        let mut spots = Vec::new(alloc);
        for at in 0..method.code.code.len() {
            if is_marked(&self.heads, at) {
                spots.push(self.spot(alloc, method, table, classes, &mut bounds, at)?)?;
            }
        }
        Ok(spots)
    }
}

/// The pieces of a method, by their offsets.
pub(crate) fn spots<'m, 'f>(
    alloc: Global,
    method: &Method<'m, 'f>,
    table: &[Option<PlaceFrame<'f>>],
    classes: &mut Classes<'m, 'f>,
) -> Result<Vec<Spot>, NoMemory>
    requires { length (code_in method.now).code ≤ 65535 }
{
    let outline = outlined(alloc, method, table, classes)?;
    let spots = outline.spots(alloc, method, table, classes);
    drop(outline);
    spots
}
