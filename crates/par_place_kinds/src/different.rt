//! Different kinds, as which others are told.

ghost use Rattle.std.specs.Prelude.{◌≡◌, length, take, IsTrue, IfOk};
ghost use Rattle.par_kinds.specs.Passes.{all_into};
ghost use Rattle.par_place_kinds.specs.Marks.{names, kinds_of};

use crate::kind::PlaceKind;
use crate::kinds::all_into;
use crate::lookup::Lookup;
use crate::spelling::Spelling;
use par_base::memory::NoMemory;
use std::alloc::Global;
use std::marker::Model;

/// Whether it is seen that kinds begin with others.
fn begins(kinds: &[PlaceKind], others: &[PlaceKind]) -> bool
    ensures { IsTrue result
        → take (length others.now) (kinds_of kinds.now) ≡ kinds_of others.now }
{
    if others.len() > kinds.len() {
        return false;
    }
    for (place, other) in others.iter().enumerate() {
        if !kinds[place].is_same(*other) {
            return false;
        }
    }
    true
}

/// Kinds, and the same once more as bytes where no name is long. Contracts see the kinds.
pub(crate) struct Different<'f> {
    found: Lookup<'f>,
    spelling: Option<Spelling>,
}

// Written out, so that what owns one is proved without its parts.
impl Drop for Different<'_> {
    fn drop(self) {
        let Different {
            found: _,
            spelling: _,
        } = self;
    }
}

impl<'f> Model for Different<'f> {
    ghost use Rattle.std.specs.Prelude.{◌≡◌, List, IfSome};
    ghost use Rattle.par_kinds.specs.declared.frame.VKind.{VKind};

    ghost Value = { List VKind };

    ghost view = { λ d. d.found };

    ghost invariant = { λ d. IfSome d.spelling (λ spelling. spelling ≡ d.found) };
}

impl<'f> Different<'f> {
    /// These kinds.
    pub(crate) fn of(alloc: Global, found: Lookup<'f>) -> Result<Different<'f>, NoMemory>
        ensures { IfOk result (λ different. different ≡ found.entry) }
    {
        let spelling = Spelling::of(alloc, found.kinds())?;
        Ok(Different { found, spelling })
    }

    /// Where they are looked for.
    pub(crate) fn found(&self) -> &Lookup<'f>
        ensures { result.now ≡ self.now }
    {
        &self.found
    }

    /// Whether it is seen by their bytes that others are the same.
    pub(crate) fn is_spelled_as(&self, other: &Different) -> bool
        ensures { IsTrue result → self.now ≡ other.now }
    {
        let Some(mine) = &self.spelling else {
            return false;
        };
        let Some(its) = &other.spelling else {
            return false;
        };
        mine.is_same(its)
    }

    /// Whether it is seen that they begin with others.
    pub(crate) fn begins_with(&self, other: &Different) -> bool
        ensures { IsTrue result → take (length other.now) self.now ≡ other.now }
    {
        self.is_spelled_as(other) || begins(self.found.kinds(), other.found.kinds())
    }

    /// Whether each kind fits into the one at its place, of as many.
    pub(crate) fn fits_into(&self, exceptions: &[&[u8]], other: &Different) -> bool
        ensures { result ≡ all_into (names exceptions.now) self.now other.now }
    {
        if self.is_spelled_as(other) {
            return true;
        }
        all_into(exceptions, self.found.kinds(), other.found.kinds())
    }
}
