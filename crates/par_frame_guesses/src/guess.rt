//! Frames that a method may have where its code goes back.
//!
//! Nothing is promised of them: they are told to the way through the code, which looks at them as
//! at all frames that are told. So they are found fast: a kind that rises before a piece of code
//! goes on by itself, and no other place is looked at again.

ghost use Rattle.std.specs.Prelude.{◌≤◌, length};
ghost use Rattle.par_frame_guesses.specs.Methods.{code_in};

use crate::back::{back_offsets, is_marked};
use crate::facts::Facts;
use crate::frames::kept;
use crate::likes::{join, likes};
use crate::method::Method;
use crate::spots::{Spot, spots};
use par_base::memory::NoMemory;
use par_frame_steps::{Pile, PlaceFrame, PlaceKind};
use par_small_kinds::{Before, Classes};
use std::alloc::Global;

/// How much is looked at for each byte of code, before nothing is guessed.
const PATIENCE: usize = 4096;

/// Locals that instructions can name.
const NAMED: usize = 256;

/// A frame that is guessed of an offset.
#[derive(Drop)]
pub struct Guess<'f> {
    pub at: u32,
    pub frame: PlaceFrame<'f>,
}

/// The pieces of a method, and what is known before them.
struct Sketch<'m, 'f> {
    classes: Classes<'m, 'f>,
    spots: Vec<Spot>,
    /// Of each piece the one that goes on for it.
    likes: Vec<usize>,
    facts: Facts,
}

// Written out, so that what owns one is proved without its parts.
impl Drop for Sketch<'_, '_> {
    fn drop(self) {
        let Sketch {
            classes: _,
            spots: _,
            likes: _,
            facts: _,
        } = self;
    }
}

/// How many locals a frame lists: those that instructions can name.
fn listed(method: &Method) -> usize {
    NAMED.min(method.code.max_locals as usize)
}

/// The pieces of a method, and what is known before them, which is nothing yet.
#[derive(Drop)]
struct Pieces {
    spots: Vec<Spot>,
    likes: Vec<usize>,
    facts: Facts,
}

/// The pieces of a method, by the kinds that are met in them.
fn pieces_of<'m, 'f>(
    alloc: Global,
    method: &Method<'m, 'f>,
    table: &[Option<PlaceFrame<'f>>],
    classes: &mut Classes<'m, 'f>,
) -> Result<Pieces, NoMemory>
    requires { length (code_in method.now).code ≤ 65535 }
{
    let mut spots = spots(alloc, method, table, classes)?;
    let likes = likes(alloc, &spots)?;
    join(alloc, &mut spots, &likes)?;
    let facts = Facts::of_nothing(alloc, &spots, listed(method))?;
    Ok(Pieces {
        spots,
        likes,
        facts,
    })
}

/// The pieces of a method, before which nothing is known yet.
fn sketched<'m, 'f>(
    alloc: Global,
    method: &Method<'m, 'f>,
    table: &[Option<PlaceFrame<'f>>],
) -> Result<Sketch<'m, 'f>, NoMemory>
    requires { length (code_in method.now).code ≤ 65535 }
{
    let mut classes = Classes::new(alloc, method.exceptions);
    match pieces_of(alloc, method, table, &mut classes) {
        Ok(pieces) => Ok(Sketch {
            classes,
            spots: pieces.spots,
            likes: pieces.likes,
            facts: pieces.facts,
        }),
        Err(error) => {
            drop(classes);
            Err(error)
        }
    }
}

/// Lets the frames that are told stand before their pieces.
fn tell_all<'f>(
    alloc: Global,
    facts: &mut Facts,
    classes: &mut Classes<'_, 'f>,
    spots: &[Spot],
    table: &[Option<PlaceFrame<'f>>],
) -> Result<(), NoMemory> {
    for (number, spot) in spots.iter().enumerate() {
        if let Some(frame) = kept(table, spot.at as usize) {
            facts.tell(alloc, classes, number, frame)?;
        }
    }
    Ok(())
}

impl<'f> Sketch<'_, 'f> {
    /// Lets the frames that are told stand, and all go on from them until nothing rises: whether
    /// that was soon.
    fn settle(
        &mut self,
        alloc: Global,
        table: &[Option<PlaceFrame<'f>>],
        patience: usize,
    ) -> Result<bool, NoMemory> {
        tell_all(
            alloc,
            &mut self.facts,
            &mut self.classes,
            &self.spots,
            table,
        )?;
        let bits = self.classes.bits();
        self.facts.settle(alloc, &self.spots, bits, patience)
    }

    /// What is known before a piece, if code comes there.
    fn before(&self, number: usize) -> Option<&Before> {
        match self.likes.get(number) {
            Some(like) => self.facts.before(*like),
            None => None,
        }
    }

    /// The kinds of some places.
    fn kinds(
        &self,
        alloc: Global,
        before: &Before,
        from: usize,
        many: usize,
    ) -> Result<Vec<PlaceKind<'f>>, NoMemory> {
        let mut kinds = vec![in alloc; PlaceKind::Top; many]?;
        for nth in 0..many {
            let small = before.kind(from.saturating_add(nth));
            if nth < kinds.len() {
                kinds[nth] = self.classes.kind(small);
            }
        }
        Ok(kinds)
    }

    /// The kinds of some places, on one another.
    fn pile(
        &self,
        alloc: Global,
        before: &Before,
        from: usize,
        many: usize,
    ) -> Result<Pile<'f>, NoMemory> {
        let kinds = self.kinds(alloc, before, from, many)?;
        Pile::of(alloc, &kinds)
    }

    /// The frame of what is known before a piece.
    fn frame(
        &self,
        alloc: Global,
        before: &Before,
        many: usize,
    ) -> Result<PlaceFrame<'f>, NoMemory> {
        let listed = self.facts.locals;
        Ok(PlaceFrame {
            many,
            locals: self.pile(alloc, before, 0, listed)?,
            stack: self.pile(alloc, before, listed, before.operands())?,
        })
    }

    /// The frame of what is known before a piece. Where the same is known as of the last frame, it
    /// shares the kinds of that.
    fn next_frame(
        &self,
        alloc: Global,
        frames: &[Guess<'f>],
        last: Option<&Before>,
        before: &Before,
        many: usize,
    ) -> Result<PlaceFrame<'f>, NoMemory> {
        match like(frames, last, before) {
            Some(frame) => frame.copied(alloc),
            None => self.frame(alloc, before, many),
        }
    }

    /// Adds the frames of some offsets, but those that are told.
    fn add_frames(
        &self,
        alloc: Global,
        many: usize,
        wanted: &[bool],
        frames: &mut Vec<Guess<'f>>,
    ) -> Result<(), NoMemory> {
        let mut last: Option<&Before> = None;
        for (number, spot) in self.spots.as_slice().iter().enumerate() {
            if is_marked(wanted, spot.at as usize) && !spot.is_told {
                if let Some(before) = self.before(number) {
                    let frame = self.next_frame(alloc, frames, last, before, many)?;
                    frames.push(Guess { at: spot.at, frame })?;
                    last = Some(before);
                }
            }
        }
        Ok(())
    }

    /// Frames for some offsets, from those that stand; none where they are not found soon.
    fn frames(
        &mut self,
        alloc: Global,
        method: &Method<'_, 'f>,
        table: &[Option<PlaceFrame<'f>>],
        wanted: &[bool],
    ) -> Result<Vec<Guess<'f>>, NoMemory> {
        let patience = method.code.code.len().saturating_mul(PATIENCE);
        if !self.settle(alloc, table, patience)? {
            return Ok(Vec::new(alloc));
        }
        let mut frames = Vec::new(alloc);
        let many = method.code.max_locals as usize;
        self.add_frames(alloc, many, wanted, &mut frames)?;
        Ok(frames)
    }
}

/// The last frame, if it is that of what is known.
fn like<'g, 'f>(
    frames: &'g [Guess<'f>],
    last: Option<&Before>,
    before: &Before,
) -> Option<&'g PlaceFrame<'f>> {
    let Some(last) = last else {
        return None;
    };
    if !last.is_like(before) {
        return None;
    }
    match frames.last() {
        Some(guess) => Some(&guess.frame),
        None => None,
    }
}

/// Whether an offset of these is marked at which the frame does not stay as it is.
fn is_guessable(method: &Method, back: &[bool]) -> bool {
    for (at, mark) in back.iter().enumerate() {
        if *mark && !method.is_fixed(at) {
            return true;
        }
    }
    false
}

/// Frames for the offsets to which code goes back, from those that stand; none where they are not
/// found soon.
pub fn guessed<'f>(
    alloc: Global,
    method: &Method<'_, 'f>,
    table: &[Option<PlaceFrame<'f>>],
) -> Result<Vec<Guess<'f>>, NoMemory>
    requires { length (code_in method.now).code ≤ 65535 }
{
    let back = back_offsets(alloc, method)?;
    if !is_guessable(method, &back) {
        return Ok(Vec::new(alloc));
    }
    let mut sketch = sketched(alloc, method, table)?;
    let frames = sketch.frames(alloc, method, table, &back);
    drop(sketch);
    frames
}
