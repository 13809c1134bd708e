//! Pieces that were merged before, which those that are merged alike share.

ghost use Rattle.std.specs.Prelude.{◌≡◌, List, map, IsTrue, IfOk, IfSome};
ghost use Rattle.par_values.specs.Areas.{Name};
ghost use Rattle.par_kinds.specs.Passes.{merge_all};
ghost use Rattle.par_frame_steps.specs.Marks.{names, kinds_of};
ghost use Rattle.par_frame_steps.specs.Merged.{AreMerges};

use crate::fits::Fits;
use par_base::memory::NoMemory;
use par_place_kinds::Piece;
use std::alloc::Global;
use std::marker::Model;

/// How many merges are kept of pieces at the same place of a pile.
const WAYS: usize = 8;

/// How many places are told apart.
const PLACES: usize = 256;

/// Names once more.
pub(crate) fn owned(alloc: Global, texts: &[&[u8]]) -> Result<Vec<Vec<u8>>, NoMemory>
    ensures { IfOk result (λ all. map (λ name. name.items) all.items ≡ names texts.now) }
{
    let mut all = Vec::with_capacity(alloc, texts.len())?;
    for name in texts {
        let mut own = Vec::new(alloc);
        own.extend_from_slice(name)?;
        all.push(own)?;
    }
    Ok(all)
}

/// Whether a name is another one.
fn is_same(own: &[u8], other: &[u8]) -> bool
    ensures { IsTrue result → own.now ≡ other.now }
{
    own == other
}

/// Whether these names are others.
pub(crate) fn are_same(own: &[Vec<u8>], others: &[&[u8]]) -> bool
    ensures { IsTrue result → map (λ name. name.items) own.now ≡ names others.now }
{
    if own.len() != others.len() {
        return false;
    }
    for (place, name) in own.iter().enumerate() {
        if !is_same(name, others[place]) {
            return false;
        }
    }
    true
}

/// Two pieces, and one of the least kinds into which both fit.
struct Merge<'f> {
    one: Piece<'f>,
    other: Piece<'f>,
    least: Piece<'f>,
}

// Written out, so that what owns one is proved without its parts.
impl Drop for Merge<'_> {
    fn drop(self) {
        let Merge {
            one: _,
            other: _,
            least: _,
        } = self;
    }
}

impl<'f> Merge<'f> {
    /// These pieces.
    fn of(one: &Piece<'f>, other: &Piece<'f>, least: &Piece<'f>) -> Result<Merge<'f>, NoMemory>
        ensures one { IfOk result (λ merge. merge.one ≡ one.now) }
        ensures other { IfOk result (λ merge. merge.other ≡ other.now) }
        ensures least { IfOk result (λ merge. merge.least ≡ least.now) }
    {
        Ok(Merge {
            one: one.share()?,
            other: other.share()?,
            least: least.share()?,
        })
    }

    /// Whether it is seen at once that these two were merged.
    fn is_of(&self, one: &Piece, other: &Piece) -> bool
        ensures one { IsTrue result → kinds_of self.now.one ≡ kinds_of one.now }
        ensures other { IsTrue result → kinds_of self.now.other ≡ kinds_of other.now }
    {
        self.one.is_same(one) && self.other.is_same(other)
    }
}

/// As many merges as are kept, all of nothing.
fn empty<'f>(alloc: Global) -> Result<Vec<Merge<'f>>, NoMemory>
    ensures { (exc : List Name) → IfOk result (λ all. AreMerges exc all.items) }
{
    let nothing = Piece::empty(alloc)?;
    let mut all = Vec::with_capacity(alloc, PLACES * WAYS)?;
    for _merge in 0..PLACES * WAYS {
        all.push(Merge::of(&nothing, &nothing, &nothing)?)?;
    }
    Ok(all)
}

/// The last merges of pieces, where the exceptions have the same names. Contracts see these names.
pub struct Merges<'f> {
    exceptions: Vec<Vec<u8>>,
    /// Those of each place one behind another, or none at all.
    kept: Vec<Merge<'f>>,
    /// Counts the piles that were merged.
    turn: usize,
    /// What fits without a merge.
    pub(crate) fits: Fits<'f>,
}

// Written out, so that what owns one is proved without its parts.
impl Drop for Merges<'_> {
    fn drop(self) {
        let Merges {
            exceptions: _,
            kept: _,
            turn: _,
            fits: _,
        } = self;
    }
}

impl<'f> Model for Merges<'f> {
    ghost use Rattle.std.specs.Prelude.{List, map};
    ghost use Rattle.par_values.specs.Areas.{Name};
    ghost use Rattle.par_frame_steps.specs.Merged.{AreMerges};

    ghost Value = { List Name };

    ghost view = { λ m. map (λ name. name.items) m.exceptions.items };

    ghost invariant = { λ m. AreMerges (map (λ name. name.items) m.exceptions.items) m.kept.items };
}

impl<'f> Merges<'f> {
    /// No merges, and no exceptions.
    pub fn new(alloc: Global) -> Merges<'f> {
        Merges {
            exceptions: Vec::new(alloc),
            kept: Vec::new(alloc),
            turn: 0,
            fits: Fits::new(alloc),
        }
    }

    /// Begins with the pieces of another pile, and anew where the exceptions are others.
    pub(crate) fn begin(&mut self, alloc: Global, exceptions: &[&[u8]]) -> Result<(), NoMemory>
        ensures { IfOk result (λ done. self.new ≡ names exceptions.now) }
    {
        self.turn = self.turn.wrapping_add(1);
        if are_same(&self.exceptions, exceptions) {
            return Ok(());
        }
        let own = owned(alloc, exceptions)?;
        self.kept = Vec::new(alloc);
        self.exceptions = own;
        Ok(())
    }

    /// The least piece into which both fit, if this is the merge that is kept there.
    fn least_at(&self, at: usize, one: &Piece, other: &Piece) -> Result<Option<Piece<'f>>, NoMemory>
        ensures { IfOk result (λ all. IfSome all (λ least. kinds_of least
            ≡ merge_all self.now (kinds_of one.now) (kinds_of other.now))) }
    {
        if at >= self.kept.len() {
            return Ok(None);
        }
        let merge = &self.kept[at];
        if !merge.is_of(one, other) {
            return Ok(None);
        }
        let least = merge.least.share()?;
        Ok(Some(least))
    }

    /// The least piece into which both fit that stand at a place, if that is kept.
    fn found(&self, place: usize, one: &Piece, other: &Piece) -> Result<Option<Piece<'f>>, NoMemory>
        ensures { IfOk result (λ all. IfSome all (λ least. kinds_of least
            ≡ merge_all self.now (kinds_of one.now) (kinds_of other.now))) }
    {
        let first = place % PLACES * WAYS;
        for way in 0..WAYS {
            if let Some(least) = self.least_at(first + way, one, other)? {
                return Ok(Some(least));
            }
        }
        Ok(None)
    }

    /// Keeps a merge at a place, if there is one.
    fn put(&mut self, at: usize, merge: Merge<'f>)
        requires { kinds_of merge.least
            ≡ merge_all self.old (kinds_of merge.one) (kinds_of merge.other) }
        ensures { self.new ≡ self.old }
    {
        if at >= self.kept.len() {
            return;
        }
        self.kept[at] = merge;
    }

    /// Makes room where there is none.
    fn fill(&mut self, alloc: Global) -> Result<(), NoMemory>
        ensures { self.new ≡ self.old }
    {
        if !self.kept.is_empty() {
            return Ok(());
        }
        self.kept = empty(alloc)?;
        Ok(())
    }

    /// Keeps a merge of pieces that stand at a place, instead of an older one.
    fn keep(&mut self, alloc: Global, place: usize, merge: Merge<'f>) -> Result<(), NoMemory>
        requires { kinds_of merge.least
            ≡ merge_all self.old (kinds_of merge.one) (kinds_of merge.other) }
        ensures { self.new ≡ self.old }
    {
        self.fill(alloc)?;
        self.put(place % PLACES * WAYS + self.turn % WAYS, merge);
        Ok(())
    }

    /// The least piece into which both fit that stand at a place, of as many kinds. Where one fits
    /// into the other, that is it.
    pub(crate) fn merged(
        &mut self,
        alloc: Global,
        exceptions: &[&[u8]],
        place: usize,
        like: Option<&Piece<'f>>,
        one: &Piece<'f>,
        other: &Piece<'f>,
    ) -> Result<Piece<'f>, NoMemory>
        requires { self.old ≡ names exceptions.now }
        ensures same { self.new ≡ self.old }
        ensures least { IfOk result (λ least. kinds_of least
            ≡ merge_all (names exceptions.now) (kinds_of one.now) (kinds_of other.now)) }
    {
        if one.fits_into(exceptions, other) {
            return other.share();
        }
        if let Some(least) = self.found(place, one, other)? {
            return Ok(least);
        }
        let least = one.merged(alloc, exceptions, like, other)?;
        self.keep(alloc, place, Merge::of(one, other, &least)?)?;
        Ok(least)
    }
}
