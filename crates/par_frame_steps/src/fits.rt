//! Kinds that were seen to fit into others.

ghost use Rattle.std.specs.Prelude.{◌≡◌, length, IsTrue, IfOk};
ghost use Rattle.par_kinds.specs.Passes.{all_into};
ghost use Rattle.par_frame_steps.specs.Marks.{names, kinds_of};
ghost use Rattle.par_frame_steps.specs.Piled.{joined, AreWhole};

use crate::merges::{are_same, owned};
use crate::pieces::{Pieces, pieces_into};
use par_base::memory::NoMemory;
use par_place_kinds::FewKinds;
use std::alloc::Global;
use std::marker::Model;

/// How many are kept.
const MOST: usize = 8;

/// Kinds, and others into which they fit.
struct Fit<'f> {
    one: FewKinds<'f>,
    other: FewKinds<'f>,
}

// Written out, so that what owns one is proved without its parts.
impl Drop for Fit<'_> {
    fn drop(self) {
        let Fit { one: _, other: _ } = self;
    }
}

impl<'f> Fit<'f> {
    /// These kinds.
    fn of(one: &FewKinds<'f>, other: &FewKinds<'f>) -> Result<Fit<'f>, NoMemory>
        ensures one { IfOk result (λ fit. fit.one ≡ one.now) }
        ensures other { IfOk result (λ fit. fit.other ≡ other.now) }
    {
        Ok(Fit {
            one: one.share()?,
            other: other.share()?,
        })
    }

    /// Whether it is seen that it is of these.
    fn is_of(&self, one: &FewKinds, other: &FewKinds) -> bool
        ensures one { IsTrue result → self.now.one ≡ one.now }
        ensures other { IsTrue result → self.now.other ≡ other.now }
    {
        self.one.is_same(one) && self.other.is_same(other)
    }
}

/// The last kinds that fitted into others, where the exceptions have the same names. Contracts see
/// these names.
pub(crate) struct Fits<'f> {
    exceptions: Vec<Vec<u8>>,
    kept: Vec<Fit<'f>>,
    /// Counts those that were kept.
    turn: usize,
}

// Written out, so that what owns one is proved without its parts.
impl Drop for Fits<'_> {
    fn drop(self) {
        let Fits {
            exceptions: _,
            kept: _,
            turn: _,
        } = self;
    }
}

impl<'f> Model for Fits<'f> {
    ghost use Rattle.std.specs.Prelude.{List, map};
    ghost use Rattle.par_values.specs.Areas.{Name};
    ghost use Rattle.par_frame_steps.specs.Merged.{AreFits};

    ghost Value = { List Name };

    ghost view = { λ f. map (λ name. name.items) f.exceptions.items };

    ghost invariant = { λ f. AreFits (map (λ name. name.items) f.exceptions.items) f.kept.items };
}

impl<'f> Fits<'f> {
    /// None, and no exceptions.
    pub(crate) fn new(alloc: Global) -> Fits<'f> {
        Fits {
            exceptions: Vec::new(alloc),
            kept: Vec::new(alloc),
            turn: 0,
        }
    }

    /// Begins anew where the exceptions are others.
    fn begin(&mut self, alloc: Global, exceptions: &[&[u8]]) -> Result<(), NoMemory>
        ensures { IfOk result (λ done. self.new ≡ names exceptions.now) }
    {
        if are_same(&self.exceptions, exceptions) {
            return Ok(());
        }
        let own = owned(alloc, exceptions)?;
        self.kept = Vec::new(alloc);
        self.exceptions = own;
        Ok(())
    }

    /// Whether it is kept that these kinds fit into others.
    fn has(&self, one: &FewKinds, other: &FewKinds) -> bool
        ensures { IsTrue result → IsTrue (all_into self.now one.now other.now) }
    {
        for fit in &self.kept {
            if fit.is_of(one, other) {
                return true;
            }
        }
        false
    }

    /// Keeps one more, in the place of an old one where they are many.
    fn keep(&mut self, fit: Fit<'f>) -> Result<(), NoMemory>
        requires { IsTrue (all_into self.old fit.one fit.other) }
        ensures { self.new ≡ self.old }
    {
        if self.kept.len() < MOST {
            self.kept.push(fit)?;
            return Ok(());
        }
        self.turn = self.turn.wrapping_add(1);
        let at = self.turn % MOST;
        self.kept[at] = fit;
        Ok(())
    }

    /// Whether each piece fits into the one at its place, of as many.
    pub(crate) fn fit(
        &mut self,
        alloc: Global,
        exceptions: &[&[u8]],
        pieces: &Pieces<'f>,
        others: &Pieces<'f>,
    ) -> Result<bool, NoMemory>
        requires many { length pieces.now ≡ length others.now }
        requires whole { AreWhole pieces.now }
        requires others { AreWhole others.now }
        ensures { IfOk result (λ fit. fit ≡ all_into (names exceptions.now)
            (kinds_of (joined pieces.now)) (kinds_of (joined others.now))) }
    {
        let Some(one) = pieces.few() else {
            return Ok(pieces_into(exceptions, pieces.as_slice(), others.as_slice()));
        };
        let Some(other) = others.few() else {
            return Ok(pieces_into(exceptions, pieces.as_slice(), others.as_slice()));
        };
        self.begin(alloc, exceptions)?;
        if one.is_same(other) || self.has(one, other) {
            return Ok(true);
        }
        if !pieces_into(exceptions, pieces.as_slice(), others.as_slice()) {
            return Ok(false);
        }
        self.keep(Fit::of(one, other)?)?;
        Ok(true)
    }
}
