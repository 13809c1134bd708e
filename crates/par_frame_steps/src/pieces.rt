//! Lists of pieces, which copies share.

ghost use Rattle.std.specs.Prelude.{◌≡◌, ◌<◌, ◌≤◌, [], ◌∷◌, ◌++◌, length, take, slice_set, IfOk};
ghost use Rattle.std.specs.Prelude.{slice_index_or, IfSome};
ghost use Rattle.par_kinds.specs.Passes.{all_into};
ghost use Rattle.par_frame_steps.specs.Marks.{names, kinds_of};
ghost use Rattle.par_frame_steps.specs.Piled.{joined, AreWhole};
ghost use Rattle.par_frame_steps.specs.declared.pile.TheConstants.{MOST_PIECES};

use crate::pile::PIECE;
use par_base::memory::NoMemory;
use par_place_kinds::{FewKinds, Piece, PlaceKind, Telling};
use std::alloc::Global;
use std::marker::Model;
use std::rc::Rc;

/// The same pieces once more.
fn shared<'f>(alloc: Global, pieces: &[Piece<'f>]) -> Result<Vec<Piece<'f>>, NoMemory>
    ensures { IfOk result (λ all. all.items ≡ pieces.entry.now) }
{
    let mut all = Vec::with_capacity(alloc, pieces.len())?;
    for piece in pieces {
        all.push(piece.share()?)?;
    }
    Ok(all)
}

/// How the kinds of all pieces are told, if it is seen.
fn told<'f>(alloc: Global, pieces: &[Piece<'f>]) -> Result<Option<FewKinds<'f>>, NoMemory>
    ensures { IfOk result (λ all. IfSome all (λ few. few ≡ kinds_of (joined pieces.entry.now))) }
{
    let Some(last) = pieces.last() else {
        return Ok(None);
    };
    let Some(like) = last.few() else {
        return Ok(None);
    };
    let mut telling = Telling::new(alloc, like)?;
    for piece in pieces {
        let Some(few) = piece.few() else {
            return Ok(None);
        };
        if !telling.add(few)? {
            return Ok(None);
        }
    }
    Ok(Some(telling.told(alloc)?))
}

/// Whether each piece fits into the one at its place, of as many.
pub(crate) fn pieces_into(exceptions: &[&[u8]], pieces: &[Piece], others: &[Piece]) -> bool
    requires many { length pieces.now ≡ length others.now }
    requires whole { AreWhole pieces.now }
    requires others { AreWhole others.now }
    ensures { result ≡ all_into (names exceptions.now) (kinds_of (joined pieces.now))
        (kinds_of (joined others.now)) }
{
    for (place, piece) in pieces.iter().enumerate() {
        if !piece.fits_into(exceptions, &others[place]) {
            return false;
        }
    }
    true
}

/// Pieces, one behind another. Copies have the same list, until one of them gets another.
pub(crate) struct Pieces<'f> {
    /// None where there are no pieces.
    list: Option<Rc<Vec<Piece<'f>>>>,
    /// How the kinds of all of them are told, where that is known.
    few: Option<FewKinds<'f>>,
}

// Written out, so that what owns pieces is proved without their parts.
impl Drop for Pieces<'_> {
    fn drop(self) {
        let Pieces { list: _, few: _ } = self;
    }
}

impl<'f> Model for Pieces<'f> {
    ghost use Rattle.std.specs.Prelude.{◌≡◌, List, IfSome};
    ghost use Rattle.std.specs.Option.{option_map};
    ghost use Rattle.par_place_kinds.specs.declared.kind.PlaceKind.{PlaceKind};
    ghost use Rattle.par_frame_steps.specs.Marks.{kinds_of};
    ghost use Rattle.par_frame_steps.specs.Piled.{joined, listed};

    ghost Value = { List (List PlaceKind) };

    ghost view = { λ p. listed (option_map (λ list. list.value.items) p.list) };

    ghost invariant = { λ p. IfSome p.few (λ few. few
        ≡ kinds_of (joined (listed (option_map (λ list. list.value.items) p.list)))) };
}

impl<'f> Pieces<'f> {
    /// No pieces.
    pub(crate) fn new() -> Pieces<'f>
        ensures { result ≡ [] }
    {
        Pieces {
            list: None,
            few: None,
        }
    }

    /// These pieces, whose kinds may be told.
    fn of(
        alloc: Global,
        list: Vec<Piece<'f>>,
        few: Option<FewKinds<'f>>,
    ) -> Result<Pieces<'f>, NoMemory>
        requires { IfSome few (λ few. few ≡ kinds_of (joined list.items)) }
        ensures { IfOk result (λ pieces. pieces ≡ list.entry.items) }
    {
        if list.is_empty() {
            return Ok(Pieces::new());
        }
        let list = Rc::new(alloc, list)?;
        Ok(Pieces {
            list: Some(list),
            few,
        })
    }

    /// These pieces, whose kinds are told if they can be.
    pub(crate) fn told(alloc: Global, list: Vec<Piece<'f>>) -> Result<Pieces<'f>, NoMemory>
        ensures { IfOk result (λ pieces. pieces ≡ list.entry.items) }
    {
        let few = told(alloc, &list)?;
        Pieces::of(alloc, list, few)
    }

    /// How the kinds of all pieces are told, where that is known.
    pub(crate) fn few(&self) -> Option<&FewKinds<'f>>
        ensures { IfSome result (λ few. few.now ≡ kinds_of (joined self.now)) }
    {
        match &self.few {
            Some(few) => Some(few),
            None => None,
        }
    }

    /// How the kinds of all pieces are told once more, where that is known.
    fn told_again(&self) -> Result<Option<FewKinds<'f>>, NoMemory>
        ensures { IfOk result (λ all. IfSome all (λ few. few ≡ kinds_of (joined self.now))) }
    {
        match self.few() {
            Some(few) => Ok(Some(few.share()?)),
            None => Ok(None),
        }
    }

    /// How all kinds and those of one more piece are told, if it is seen.
    fn told_with(&self, alloc: Global, piece: &Piece<'f>) -> Result<Option<FewKinds<'f>>, NoMemory>
        ensures { IfOk result (λ all. IfSome all (λ few. few
            ≡ kinds_of (joined (self.now ++ piece.now ∷ [])))) }
    {
        let Some(more) = piece.few() else {
            return Ok(None);
        };
        if self.len() == 0 {
            return Ok(Some(more.share()?));
        }
        match self.few() {
            Some(few) => few.and(alloc, more),
            None => Ok(None),
        }
    }

    /// How the kinds of the first pieces are told, of so many kinds.
    fn told_first(&self, alloc: Global, kinds: usize) -> Result<Option<FewKinds<'f>>, NoMemory>
        ensures { IfOk result (λ all. IfSome all (λ few. few
            ≡ take kinds (kinds_of (joined self.now)))) }
    {
        match self.few() {
            Some(few) => few.first(alloc, kinds),
            None => Ok(None),
        }
    }

    /// The pieces.
    pub(crate) fn as_slice(&self) -> &[Piece<'f>]
        ensures { result.now ≡ self.now }
    {
        match &self.list {
            Some(list) => list.as_slice(),
            None => &[],
        }
    }

    /// How many there are.
    pub(crate) fn len(&self) -> usize
        ensures { result ≡ length self.now }
    {
        self.as_slice().len()
    }

    /// The pieces once more.
    pub(crate) fn share(&self) -> Result<Pieces<'f>, NoMemory>
        ensures { IfOk result (λ pieces. pieces ≡ self.now) }
    {
        let few = self.told_again()?;
        match &self.list {
            Some(list) => {
                let list = list.clone()?;
                Ok(Pieces {
                    list: Some(list),
                    few,
                })
            }
            None => Ok(Pieces::new()),
        }
    }

    /// Has other pieces from now on.
    pub(crate) fn change_to(&mut self, others: Pieces<'f>)
        ensures { self.new ≡ others.entry }
    {
        let Pieces { list, few } = others;
        self.list = list;
        self.few = few;
    }

    /// The pieces, and one more behind them.
    pub(crate) fn and(&self, alloc: Global, piece: Piece<'f>) -> Result<Pieces<'f>, NoMemory>
        ensures { IfOk result (λ pieces. pieces ≡ self.now ++ piece.entry ∷ []) }
    {
        let few = self.told_with(alloc, &piece)?;
        let mut list = shared(alloc, self.as_slice())?;
        list.push(piece)?;
        Pieces::of(alloc, list, few)
    }

    /// The first pieces, of so many.
    pub(crate) fn first(&self, alloc: Global, many: usize) -> Result<Pieces<'f>, NoMemory>
        requires many { many ≤ length self.now }
        requires few { length self.now ≤ MOST_PIECES }
        requires whole { AreWhole self.now }
        ensures { IfOk result (λ pieces. pieces ≡ take many self.now) }
    {
        let few = self.told_first(alloc, many * PIECE)?;
        Pieces::of(alloc, shared(alloc, &self.as_slice()[..many])?, few)
    }

    /// The pieces, where a kind of one of them is set.
    pub(crate) fn with(
        &self,
        alloc: Global,
        at: usize,
        place: usize,
        kind: PlaceKind<'f>,
    ) -> Result<Pieces<'f>, NoMemory>
        requires at { at < length self.now }
        requires place { place < length (slice_index_or self.now at []) }
        ensures { IfOk result (λ pieces. pieces ≡ slice_set self.now at
            (slice_set (slice_index_or self.now at []) place kind.entry)) }
    {
        let mut list = shared(alloc, self.as_slice())?;
        list[at].set(alloc, place, kind)?;
        Pieces::of(alloc, list, None)
    }
}
