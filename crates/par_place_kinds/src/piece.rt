//! Pieces of piles, which copies share.

ghost use Rattle.std.specs.Prelude.{◌≡◌, ◌<◌, [], length, slice_set, IsTrue, IfOk, IfSome};
ghost use Rattle.par_kinds.specs.Passes.{all_into, merge_all};
ghost use Rattle.par_place_kinds.specs.Listed.{listed_into};
ghost use Rattle.par_place_kinds.specs.Marks.{names, kinds_of};

use crate::few::FewKinds;
use crate::kind::PlaceKind;
use crate::kinds::{all_into, copied, listed_into, merged};
use par_base::memory::NoMemory;
use std::alloc::Global;
use std::marker::Model;
use std::rc::Rc;

/// Kinds, and the same once more where few of them are different. Contracts see the kinds.
struct Kept<'f> {
    kinds: Vec<PlaceKind<'f>>,
    few: Option<FewKinds<'f>>,
}

// Written out, so that what owns one is proved without its parts.
impl Drop for Kept<'_> {
    fn drop(self) {
        let Kept { kinds: _, few: _ } = self;
    }
}

impl<'f> Model for Kept<'f> {
    ghost use Rattle.std.specs.Prelude.{◌≡◌, List, IfSome};
    ghost use Rattle.par_place_kinds.specs.declared.kind.PlaceKind.{PlaceKind};
    ghost use Rattle.par_place_kinds.specs.Marks.{kinds_of};

    ghost Value = { List PlaceKind };

    ghost view = { λ k. k.kinds.items };

    ghost invariant = { λ k. IfSome k.few (λ few. few ≡ kinds_of k.kinds.items) };
}

impl<'f> Kept<'f> {
    /// These kinds, which may have the different ones of others.
    fn of(
        alloc: Global,
        like: Option<&FewKinds<'f>>,
        kinds: Vec<PlaceKind<'f>>,
    ) -> Result<Kept<'f>, NoMemory>
        ensures { IfOk result (λ kept. kept ≡ kinds.entry.items) }
    {
        let few = FewKinds::of(alloc, like, &kinds)?;
        Ok(Kept { kinds, few })
    }

    /// The kinds.
    fn kinds(&self) -> &[PlaceKind<'f>]
        ensures { result.now ≡ self.now }
    {
        self.kinds.as_slice()
    }

    /// How the kinds are told, where few are different.
    fn few(&self) -> Option<&FewKinds<'f>>
        ensures { IfSome result (λ few. few.now ≡ kinds_of self.now) }
    {
        match &self.few {
            Some(few) => Some(few),
            None => None,
        }
    }

    /// The kinds, one of which is set.
    fn with(&self, alloc: Global, place: usize, kind: PlaceKind<'f>) -> Result<Kept<'f>, NoMemory>
        requires { place < length self.now }
        ensures { IfOk result (λ kept. kept ≡ slice_set self.now place kind.entry) }
    {
        let mut kinds = copied(alloc, &self.kinds)?;
        kinds[place] = kind;
        Ok(Kept { kinds, few: None })
    }

    /// Whether each kind fits into the one at its place, of as many.
    fn fits_into(&self, exceptions: &[&[u8]], other: &Kept) -> bool
        ensures { result
            ≡ all_into (names exceptions.now) (kinds_of self.now) (kinds_of other.now) }
    {
        if self.fits_at_once(exceptions, other) {
            return true;
        }
        all_into(exceptions, &self.kinds, &other.kinds)
    }

    /// Whether it is seen without a look at each kind that others are the same.
    fn is_same(&self, other: &Kept) -> bool
        ensures { IsTrue result → kinds_of self.now ≡ kinds_of other.now }
    {
        let Some(mine) = &self.few else {
            return false;
        };
        let Some(its) = &other.few else {
            return false;
        };
        mine.is_same(its)
    }

    /// Whether it is seen without a look at each kind that all fit.
    fn fits_at_once(&self, exceptions: &[&[u8]], other: &Kept) -> bool
        ensures { IsTrue result → IsTrue
            (all_into (names exceptions.now) (kinds_of self.now) (kinds_of other.now)) }
    {
        let Some(mine) = &self.few else {
            return false;
        };
        let Some(its) = &other.few else {
            return false;
        };
        mine.fits_into(exceptions, its)
    }

    /// Whether each kind fits into the one at its place that is listed.
    fn listed_into(&self, exceptions: &[&[u8]], other: &Kept) -> bool
        ensures { result
            ≡ listed_into (names exceptions.now) (kinds_of self.now) (kinds_of other.now) }
    {
        if self.fits_at_once(exceptions, other) {
            return true;
        }
        listed_into(exceptions, &self.kinds, &other.kinds)
    }

    /// The least kinds into which both fit, of each place that both list.
    fn merged(
        &self,
        alloc: Global,
        exceptions: &[&[u8]],
        like: Option<&FewKinds<'f>>,
        other: &Kept<'f>,
    ) -> Result<Kept<'f>, NoMemory>
        ensures { IfOk result (λ kept. kinds_of kept
            ≡ merge_all (names exceptions.now) (kinds_of self.now) (kinds_of other.now)) }
    {
        Kept::of(
            alloc,
            like,
            merged(alloc, exceptions, &self.kinds, &other.kinds)?,
        )
    }
}

/// Kinds that copies share.
#[derive(Drop)]
pub struct Piece<'f> {
    kept: Rc<Kept<'f>>,
}

impl<'f> Model for Piece<'f> {
    ghost use Rattle.std.specs.Prelude.{List};
    ghost use Rattle.par_place_kinds.specs.declared.kind.PlaceKind.{PlaceKind};

    ghost Value = { List PlaceKind };

    ghost view = { λ p. p.kept.value };
}

impl<'f> Piece<'f> {
    /// How its kinds are told, where few are different.
    pub fn few(&self) -> Option<&FewKinds<'f>>
        ensures { IfSome result (λ few. few.now ≡ kinds_of self.now) }
    {
        self.kept.few()
    }

    /// A piece of these kinds, which may have the different ones of others.
    pub fn of(
        alloc: Global,
        like: Option<&FewKinds<'f>>,
        kinds: Vec<PlaceKind<'f>>,
    ) -> Result<Piece<'f>, NoMemory>
        ensures { IfOk result (λ piece. piece ≡ kinds.entry.items) }
    {
        let kept = Rc::new(alloc, Kept::of(alloc, like, kinds)?)?;
        Ok(Piece { kept })
    }

    /// A piece of no kinds.
    pub fn empty(alloc: Global) -> Result<Piece<'f>, NoMemory>
        ensures { IfOk result (λ piece. piece ≡ []) }
    {
        let kept = Kept {
            kinds: Vec::new(alloc),
            few: None,
        };
        Ok(Piece {
            kept: Rc::new(alloc, kept)?,
        })
    }

    /// Its kinds.
    pub fn kinds(&self) -> &[PlaceKind<'f>]
        ensures { result.now ≡ self.now }
    {
        self.kept.kinds()
    }

    /// The piece once more.
    pub fn share(&self) -> Result<Piece<'f>, NoMemory>
        ensures { IfOk result (λ piece. piece ≡ self.now) }
    {
        let kept = self.kept.clone()?;
        Ok(Piece { kept })
    }

    /// Sets a kind, for this copy alone.
    pub fn set(&mut self, alloc: Global, place: usize, kind: PlaceKind<'f>) -> Result<(), NoMemory>
        requires { place < length self.old }
        ensures set { IfOk result (λ done. self.new ≡ slice_set self.old place kind.entry) }
        ensures many { length self.new ≡ length self.old }
    {
        let kept = self.kept.with(alloc, place, kind)?;
        self.kept = Rc::new(alloc, kept)?;
        Ok(())
    }

    /// Whether each kind fits into the one at its place, of as many.
    pub fn fits_into(&self, exceptions: &[&[u8]], other: &Piece) -> bool
        ensures { result
            ≡ all_into (names exceptions.now) (kinds_of self.now) (kinds_of other.now) }
    {
        self.kept.fits_into(exceptions, &other.kept)
    }

    /// Whether each kind fits into the one at its place that is listed.
    pub fn listed_into(&self, exceptions: &[&[u8]], other: &Piece) -> bool
        ensures { result
            ≡ listed_into (names exceptions.now) (kinds_of self.now) (kinds_of other.now) }
    {
        self.kept.listed_into(exceptions, &other.kept)
    }

    /// Whether it is seen at once that another one has the same kinds.
    pub fn is_same(&self, other: &Piece) -> bool
        ensures { IsTrue result → kinds_of self.now ≡ kinds_of other.now }
    {
        self.kept.is_same(&other.kept)
    }

    /// The least kinds into which both fit, of as many. It may have the different kinds of another
    /// piece.
    pub fn merged(
        &self,
        alloc: Global,
        exceptions: &[&[u8]],
        like: Option<&Piece<'f>>,
        other: &Piece<'f>,
    ) -> Result<Piece<'f>, NoMemory>
        ensures { IfOk result (λ piece. kinds_of piece
            ≡ merge_all (names exceptions.now) (kinds_of self.now) (kinds_of other.now)) }
    {
        let few = match like {
            Some(piece) => piece.few(),
            None => self.few(),
        };
        let kept = self.kept.merged(alloc, exceptions, few, &other.kept)?;
        Ok(Piece {
            kept: Rc::new(alloc, kept)?,
        })
    }
}
