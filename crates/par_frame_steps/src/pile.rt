//! Kinds on one another, of which copies share all but the last ones.

ghost use Rattle.std.specs.Prelude.{◌≡◌, ◌-◌, ◌*◌, ◌<◌, ◌≤◌, [], ◌∷◌, ◌++◌, length, take, drop};
ghost use Rattle.std.specs.Prelude.{reverse, slice_set, IfOk};
ghost use Rattle.std.specs.List.{slice_get};
ghost use Rattle.par_kinds.specs.Passes.{all_into, merge_all};
ghost use Rattle.par_kinds.specs.Kinds.{kind_at};
ghost use Rattle.par_place_kinds.specs.Listed.{listed_into};
ghost use Rattle.par_frame_steps.specs.Marks.{names, kind_of, kinds_of};
ghost use Rattle.par_frame_steps.specs.Piled.{joined, AreWhole};

use crate::merges::Merges;
use crate::pieces::{Pieces, pieces_into};
use par_base::memory::NoMemory;
use par_place_kinds::kinds::{all_into, copied, listed_into, merged};
use par_place_kinds::{FewKinds, Piece, PlaceKind};
use std::alloc::Global;
use std::marker::Model;

/// How many kinds a piece has.
pub const PIECE: usize = 256;

/// How many pieces there are at most, which are more than code can fill.
pub const MOST_PIECES: usize = 65_536;

/// The kind at a place, if there is one.
fn at<'f>(kinds: &[PlaceKind<'f>], place: usize) -> Option<PlaceKind<'f>>
    ensures { result ≡ slice_get kinds.entry.now place }
{
    kinds.get(place).copied()
}

/// How kinds are told once more, if they are.
fn shared<'f>(few: Option<&FewKinds<'f>>) -> Result<Option<FewKinds<'f>>, NoMemory> {
    match few {
        Some(few) => Ok(Some(few.share()?)),
        None => Ok(None),
    }
}

/// The least pieces into which both fit, of as many.
fn merged_pieces<'f>(
    alloc: Global,
    merges: &mut Merges<'f>,
    exceptions: &[&[u8]],
    pieces: &[Piece<'f>],
    others: &[Piece<'f>],
) -> Result<Vec<Piece<'f>>, NoMemory>
    requires many { length pieces.now ≡ length others.now }
    requires whole { AreWhole pieces.now }
    requires others { AreWhole others.now }
    requires same { merges.old ≡ names exceptions.now }
    ensures many { IfOk result (λ all. length all.items ≡ length pieces.entry.now) }
    ensures whole { IfOk result (λ all. AreWhole all.items) }
    ensures least { IfOk result (λ all. kinds_of (joined all.items)
        ≡ merge_all (names exceptions.now) (kinds_of (joined pieces.entry.now))
        (kinds_of (joined others.entry.now))) }
{
    let mut all = Vec::new(alloc);
    for (place, piece) in pieces.iter().enumerate() {
        let least = merges.merged(alloc, exceptions, place, all.last(), piece, &others[place])?;
        all.push(least)?;
    }
    Ok(all)
}

/// Kinds on one another. Copies share those that stand below the last ones. Contracts see all of
/// them, of which the one that was pushed last stands last.
pub struct Pile<'f> {
    pieces: Pieces<'f>,
    rest: Vec<PlaceKind<'f>>,
    /// How the piece was told that was taken apart last: the next one may be like it.
    like: Option<FewKinds<'f>>,
}

// Written out, so that what owns a pile is proved without its parts.
impl Drop for Pile<'_> {
    fn drop(self) {
        let Pile {
            pieces: _,
            rest: _,
            like: _,
        } = self;
    }
}

impl<'f> Model for Pile<'f> {
    ghost use Rattle.std.specs.Prelude.{List, ◌++◌};
    ghost use Rattle.par_place_kinds.specs.declared.kind.PlaceKind.{PlaceKind};
    ghost use Rattle.par_frame_steps.specs.Piled.{joined, IsPiled};

    ghost Value = { List PlaceKind };

    ghost view = { λ p. joined p.pieces ++ p.rest.items };

    ghost invariant = { λ p. IsPiled p.pieces p.rest.items };
}

impl<'f> Pile<'f> {
    /// No kinds.
    pub fn new(alloc: Global) -> Pile<'f>
        ensures { result ≡ [] }
    {
        Pile {
            pieces: Pieces::new(),
            rest: Vec::new(alloc),
            like: None,
        }
    }

    /// These kinds, of which the last was pushed last.
    pub fn of(alloc: Global, kinds: &[PlaceKind<'f>]) -> Result<Pile<'f>, NoMemory>
        ensures { IfOk result (λ pile. pile ≡ kinds.entry.now) }
    {
        let mut pile = Pile::new(alloc);
        for kind in kinds {
            pile.push(alloc, *kind)?;
        }
        Ok(pile)
    }

    /// How many kinds there are.
    pub fn len(&self) -> usize
        ensures { result ≡ length self.now }
    {
        self.pieces.len() * PIECE + self.rest.len()
    }

    /// The kind at a place, counted from the one that was pushed first.
    pub fn get(&self, place: usize) -> Option<PlaceKind<'f>>
        ensures { result ≡ slice_get self.now place }
    {
        match self.pieces.as_slice().get(place / PIECE) {
            Some(piece) => at(piece.kinds(), place % PIECE),
            None => at(&self.rest, place - self.pieces.len() * PIECE),
        }
    }

    /// The kind that stands so far below the one that was pushed last.
    pub fn below(&self, depth: usize) -> Option<PlaceKind<'f>>
        ensures { result ≡ slice_get (reverse self.now) depth }
    {
        let many = self.len();
        if depth >= many {
            return None;
        }
        self.get(many - 1 - depth)
    }

    /// How the last piece is told.
    fn last(&self) -> Option<&FewKinds<'f>> {
        match self.pieces.as_slice().last() {
            Some(piece) => piece.few(),
            None => None,
        }
    }

    /// How a piece is told that the next one may be like.
    fn like(&self) -> Option<&FewKinds<'f>> {
        match &self.like {
            Some(few) => Some(few),
            None => self.last(),
        }
    }

    /// Pushes a kind.
    pub fn push(&mut self, alloc: Global, kind: PlaceKind<'f>) -> Result<(), NoMemory>
        ensures { IfOk result (λ done. self.new ≡ self.old ++ kind.entry ∷ []) }
    {
        if self.rest.len() < PIECE {
            self.rest.push(kind)?;
            return Ok(());
        }
        if self.pieces.len() >= MOST_PIECES {
            return Err(NoMemory);
        }
        let mut rest = Vec::new(alloc);
        rest.push(kind)?;
        let kinds = copied(alloc, &self.rest)?;
        let piece = Piece::of(alloc, self.like(), kinds)?;
        let pieces = self.pieces.and(alloc, piece)?;
        self.pieces.change_to(pieces);
        self.rest = rest;
        Ok(())
    }

    /// Sets one of the first kinds.
    pub(crate) fn set(
        &mut self,
        alloc: Global,
        place: u8,
        kind: PlaceKind<'f>,
    ) -> Result<(), NoMemory>
        requires { place < length self.old }
        ensures { IfOk result (λ done. self.new ≡ slice_set self.old place kind.entry) }
    {
        let place = place as usize;
        let whole = self.pieces.len() * PIECE;
        if place >= whole {
            self.rest[place - whole] = kind;
            return Ok(());
        }
        let pieces = self.pieces.with(alloc, place / PIECE, place % PIECE, kind)?;
        self.pieces.change_to(pieces);
        Ok(())
    }

    /// Takes the kind that was pushed last, if there is one.
    fn pop(&mut self, alloc: Global) -> Result<(), NoMemory>
        ensures { IfOk result (λ done. self.new ≡ take (length self.old - 1) self.old) }
    {
        if self.rest.len() > 1 {
            self.rest.pop();
            return Ok(());
        }
        let many = self.pieces.len();
        if many == 0 {
            self.rest.clear();
            return Ok(());
        }
        let like = shared(self.last())?;
        let rest = copied(alloc, self.pieces.as_slice()[many - 1].kinds())?;
        let pieces = self.pieces.first(alloc, many - 1)?;
        self.pieces.change_to(pieces);
        self.rest = rest;
        self.like = like;
        Ok(())
    }

    /// Takes so many kinds, all where there are fewer.
    pub fn take(&mut self, alloc: Global, many: usize) -> Result<(), NoMemory>
        ensures { IfOk result (λ done. self.new ≡ take (length self.old - many) self.old) }
    {
        for _kind in 0..many {
            self.pop(alloc)?;
        }
        Ok(())
    }

    /// A copy.
    pub fn copied(&self, alloc: Global) -> Result<Pile<'f>, NoMemory>
        ensures { IfOk result (λ pile. pile ≡ self.now) }
    {
        let rest = copied(alloc, &self.rest)?;
        let like = shared(self.like.as_ref())?;
        Ok(Pile {
            pieces: self.pieces.share()?,
            rest,
            like,
        })
    }

    /// Whether each kind fits into the one at its place, of as many.
    pub fn fits_into(&self, exceptions: &[&[u8]], other: &Pile) -> bool
        ensures { result
            ≡ all_into (names exceptions.now) (kinds_of self.now) (kinds_of other.now) }
    {
        if self.pieces.len() != other.pieces.len() {
            return false;
        }
        pieces_into(exceptions, self.pieces.as_slice(), other.pieces.as_slice())
            && all_into(exceptions, &self.rest, &other.rest)
    }

    /// Whether each kind fits into the one at its place, of as many. What was seen to fit a short
    /// while ago is found there.
    pub fn fits(
        &self,
        alloc: Global,
        merges: &mut Merges<'f>,
        exceptions: &[&[u8]],
        other: &Pile<'f>,
    ) -> Result<bool, NoMemory>
        ensures { IfOk result (λ fits. fits
            ≡ all_into (names exceptions.now) (kinds_of self.now) (kinds_of other.now)) }
    {
        if self.pieces.len() != other.pieces.len() {
            return Ok(false);
        }
        let fit = merges
            .fits
            .fit(alloc, exceptions, &self.pieces, &other.pieces)?;
        Ok(fit && all_into(exceptions, &self.rest, &other.rest))
    }

    /// The least kinds into which both fit, of as many.
    pub fn merged(
        &self,
        alloc: Global,
        merges: &mut Merges<'f>,
        exceptions: &[&[u8]],
        other: &Pile<'f>,
    ) -> Result<Pile<'f>, NoMemory>
        requires { length self.now ≡ length other.now }
        ensures { IfOk result (λ pile. kinds_of pile
            ≡ merge_all (names exceptions.now) (kinds_of self.now) (kinds_of other.now)) }
    {
        merges.begin(alloc, exceptions)?;
        let (mine, its) = (self.pieces.as_slice(), other.pieces.as_slice());
        let pieces = merged_pieces(alloc, merges, exceptions, mine, its)?;
        let rest = merged(alloc, exceptions, &self.rest, &other.rest)?;
        Ok(Pile {
            pieces: Pieces::told(alloc, pieces)?,
            rest,
            like: None,
        })
    }

    /// The kinds of one piece, or those behind all pieces.
    fn part(&self, place: usize) -> &[PlaceKind<'f>]
        ensures { result.now ≡ take PIECE (drop (place * PIECE) self.now) }
    {
        if place < self.pieces.len() {
            return self.pieces.as_slice()[place].kinds();
        }
        if place > self.pieces.len() {
            return &[];
        }
        self.rest.as_slice()
    }

    /// Whether each kind of a part fits into the one at its place that is listed.
    fn part_into(&self, exceptions: &[&[u8]], other: &Pile, place: usize) -> bool
        ensures { result ≡ listed_into (names exceptions.now)
            (kinds_of (take PIECE (drop (place * PIECE) self.now)))
            (kinds_of (take PIECE (drop (place * PIECE) other.now))) }
    {
        if place < self.pieces.len() && place < other.pieces.len() {
            let (mine, its) = (self.pieces.as_slice(), other.pieces.as_slice());
            return mine[place].listed_into(exceptions, &its[place]);
        }
        listed_into(exceptions, self.part(place), other.part(place))
    }

    /// How many parts there are.
    fn parts(&self) -> usize
        ensures { length self.now ≤ result * PIECE }
    {
        self.pieces.len() + 1
    }

    /// Its first kinds, of so many.
    fn first(&self, alloc: Global, many: usize) -> Result<Pile<'f>, NoMemory>
        ensures { IfOk result (λ pile. pile ≡ take many self.now) }
    {
        if many >= self.len() {
            return self.copied(alloc);
        }
        let whole = many.saturating_sub(1) / PIECE;
        let behind = many - whole * PIECE;
        Ok(Pile {
            pieces: self.pieces.first(alloc, whole)?,
            rest: copied(alloc, &self.part(whole)[..behind])?,
            like: None,
        })
    }

    /// The kind at a place, where those that are not listed hold anything.
    pub(crate) fn kind_at(&self, place: usize) -> PlaceKind<'f>
        ensures { kind_of result ≡ kind_at (kinds_of self.now) place }
    {
        match self.get(place) {
            Some(kind) => kind,
            None => PlaceKind::Top,
        }
    }

    /// Whether each kind fits into the one at its place that is listed.
    pub(crate) fn listed_into(&self, exceptions: &[&[u8]], other: &Pile) -> bool
        ensures { result
            ≡ listed_into (names exceptions.now) (kinds_of self.now) (kinds_of other.now) }
    {
        for place in 0..other.parts() {
            if !self.part_into(exceptions, other, place) {
                return false;
            }
        }
        true
    }

    /// The least kinds into which these fit and the first of others, which are as many.
    fn merged_first(
        &self,
        alloc: Global,
        merges: &mut Merges<'f>,
        exceptions: &[&[u8]],
        others: &Pile<'f>,
        many: usize,
    ) -> Result<Pile<'f>, NoMemory>
        requires { length self.now ≡ length (take many others.now) }
        ensures { IfOk result (λ pile. kinds_of pile ≡ merge_all (names exceptions.now)
            (kinds_of self.now) (kinds_of (take many others.now))) }
    {
        let first = others.first(alloc, many)?;
        let least = self.merged(alloc, merges, exceptions, &first);
        drop(first);
        least
    }

    /// The least kinds into which both fit, of each place that both list.
    pub(crate) fn listed_merged(
        &self,
        alloc: Global,
        merges: &mut Merges<'f>,
        exceptions: &[&[u8]],
        other: &Pile<'f>,
    ) -> Result<Pile<'f>, NoMemory>
        ensures { IfOk result (λ pile. kinds_of pile
            ≡ merge_all (names exceptions.now) (kinds_of self.now) (kinds_of other.now)) }
    {
        let one = self.first(alloc, other.len())?;
        let least = one.merged_first(alloc, merges, exceptions, other, self.len());
        drop(one);
        least
    }
}
