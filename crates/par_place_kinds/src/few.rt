//! Lists of kinds of which few are different.

ghost use Rattle.std.specs.Prelude.{◌≡◌, ◌≤◌, [], ◌++◌, length, take, IsTrue, IfOk, Some, IfSome};
ghost use Rattle.par_kinds.specs.Passes.{all_into};
ghost use Rattle.par_place_kinds.specs.Marks.{names, kinds_of};
ghost use Rattle.par_place_kinds.specs.Numbered.{numbered, AreBelow};
ghost use Rattle.par_kinds.specs.Kinds.{into, kind_at};

use crate::different::Different;
use crate::kind::PlaceKind;
use crate::kinds::kind_at;
use crate::lookup::Lookup;
use par_base::memory::NoMemory;
use std::alloc::Global;
use std::marker::Model;
use std::rc::Rc;

/// The places of kinds among different ones, if each is found there. Good guesses make it quick.
fn numbers_of(
    alloc: Global,
    found: &Lookup,
    guesses: &[u8],
    kinds: &[PlaceKind],
) -> Result<Option<Vec<u8>>, NoMemory>
    ensures same { IfOk result (λ all. IfSome all (λ numbers.
        numbered found.now numbers.items ≡ kinds_of kinds.now)) }
    ensures below { IfOk result (λ all. IfSome all (λ numbers.
        AreBelow (length found.now) numbers.items)) }
{
    let mut numbers = Vec::with_capacity(alloc, kinds.len())?;
    for (place, kind) in kinds.iter().enumerate() {
        let Some(number) = found.number_of(*kind, guesses.get(place).copied()) else {
            return Ok(None);
        };
        numbers.push(number)?;
    }
    Ok(Some(numbers))
}

/// The different ones of kinds, behind those that were found before, if they are not too many.
fn found_in<'f>(
    before: Lookup<'f>,
    kinds: &[PlaceKind<'f>],
) -> Result<Option<Lookup<'f>>, NoMemory> {
    let mut found = before;
    for kind in kinds {
        if found.number_of(*kind, None).is_none() && !found.push(*kind)? {
            return Ok(None);
        }
    }
    Ok(Some(found))
}

/// The first numbers, of so many.
fn first_of(alloc: Global, numbers: &[u8], many: usize) -> Result<Vec<u8>, NoMemory>
    requires { many ≤ length numbers.now }
    ensures { IfOk result (λ all. all.items ≡ take many numbers.now) }
{
    let mut all = Vec::new(alloc);
    all.extend_from_slice(&numbers[..many])?;
    Ok(all)
}

/// The numbers of two lists at one place.
#[derive(Clone, Copy)]
struct Pair {
    mine: u8,
    its: u8,
}

/// Whether a pair is the one that is kept.
fn is_kept(kept: Option<Pair>, pair: Pair) -> bool
    ensures { IsTrue result → kept ≡ Some pair }
{
    match kept {
        Some(own) => own.mine == pair.mine && own.its == pair.its,
        None => false,
    }
}

/// Whether the kind of one number fits into that of the other.
fn pair_fits(exceptions: &[&[u8]], mine: &[PlaceKind], its: &[PlaceKind], pair: Pair) -> bool
    ensures { result ≡ into (names exceptions.now) (kind_at (kinds_of mine.now) pair.mine)
        (kind_at (kinds_of its.now) pair.its) }
{
    kind_at(mine, pair.mine as usize).fits_into(exceptions, kind_at(its, pair.its as usize))
}

/// Whether the kinds of numbers fit into those of others. Pairs of numbers that were seen to fit a
/// short while ago are not looked at again, as most lists repeat few.
fn pairs_into(
    exceptions: &[&[u8]],
    numbers: &[u8],
    others: &[u8],
    mine: &[PlaceKind],
    its: &[PlaceKind],
) -> bool
    ensures { IsTrue result → IsTrue (all_into (names exceptions.now)
        (numbered (kinds_of mine.now) numbers.now) (numbered (kinds_of its.now) others.now)) }
{
    if numbers.len() != others.len() {
        return false;
    }
    let mut last = None;
    let mut before = None;
    for (place, number) in numbers.iter().enumerate() {
        let pair = Pair {
            mine: *number,
            its: others[place],
        };
        if !is_kept(last, pair) && !is_kept(before, pair) {
            if !pair_fits(exceptions, mine, its, pair) {
                return false;
            }
            before = last;
            last = Some(pair);
        }
    }
    true
}

/// Kinds, each told by its place among the different ones, so that lists are compared a byte a
/// kind. Other lists may share the different ones. Contracts see which kinds they are.
pub struct FewKinds<'f> {
    different: Rc<Different<'f>>,
    numbers: Rc<Vec<u8>>,
}

// Written out, so that what owns one is proved without its parts.
impl Drop for FewKinds<'_> {
    fn drop(self) {
        let FewKinds {
            different: _,
            numbers: _,
        } = self;
    }
}

impl<'f> Model for FewKinds<'f> {
    ghost use Rattle.std.specs.Prelude.{List, length};
    ghost use Rattle.par_kinds.specs.declared.frame.VKind.{VKind};
    ghost use Rattle.par_place_kinds.specs.Numbered.{numbered, AreBelow};

    ghost Value = { List VKind };

    ghost view = { λ f. numbered f.different.value f.numbers.value.items };

    ghost invariant = { λ f. AreBelow (length f.different.value) f.numbers.value.items };
}

impl<'f> FewKinds<'f> {
    /// These kinds, where each is one of the different ones of a list before.
    fn shared(
        alloc: Global,
        before: &FewKinds<'f>,
        kinds: &[PlaceKind<'f>],
    ) -> Result<Option<FewKinds<'f>>, NoMemory>
        ensures { IfOk result (λ all. IfSome all (λ few. few ≡ kinds_of kinds.entry.now)) }
    {
        let found = before.different.found();
        let Some(numbers) = numbers_of(alloc, found, &before.numbers, kinds)? else {
            return Ok(None);
        };
        Ok(Some(FewKinds {
            different: before.different.clone()?,
            numbers: Rc::new(alloc, numbers)?,
        }))
    }

    /// These kinds, where no more are different than are told. Those are looked for behind others.
    fn behind(
        alloc: Global,
        before: Lookup<'f>,
        kinds: &[PlaceKind<'f>],
    ) -> Result<Option<FewKinds<'f>>, NoMemory>
        ensures { IfOk result (λ all. IfSome all (λ few. few ≡ kinds_of kinds.entry.now)) }
    {
        let Some(found) = found_in(before, kinds)? else {
            return Ok(None);
        };
        let Some(numbers) = numbers_of(alloc, &found, &[], kinds)? else {
            return Ok(None);
        };
        let different = Rc::new(alloc, Different::of(alloc, found)?)?;
        let numbers = Rc::new(alloc, numbers)?;
        Ok(Some(FewKinds { different, numbers }))
    }

    /// These kinds, where with those of a list before no more are different than are told.
    fn beside(
        alloc: Global,
        before: &FewKinds<'f>,
        kinds: &[PlaceKind<'f>],
    ) -> Result<Option<FewKinds<'f>>, NoMemory>
        ensures { IfOk result (λ all. IfSome all (λ few. few ≡ kinds_of kinds.entry.now)) }
    {
        FewKinds::behind(alloc, before.different.found().copied(alloc)?, kinds)
    }

    /// These kinds, where not too many are different. A list that has the same different ones, or
    /// most of them, makes it quick.
    pub(crate) fn of(
        alloc: Global,
        like: Option<&FewKinds<'f>>,
        kinds: &[PlaceKind<'f>],
    ) -> Result<Option<FewKinds<'f>>, NoMemory>
        ensures { IfOk result (λ all. IfSome all (λ few. few ≡ kinds_of kinds.entry.now)) }
    {
        let Some(before) = like else {
            return FewKinds::behind(alloc, Lookup::new(alloc), kinds);
        };
        if let Some(few) = FewKinds::shared(alloc, before, kinds)? {
            return Ok(Some(few));
        }
        if let Some(few) = FewKinds::beside(alloc, before, kinds)? {
            return Ok(Some(few));
        }
        FewKinds::behind(alloc, Lookup::new(alloc), kinds)
    }

    /// The kinds once more.
    pub fn share(&self) -> Result<FewKinds<'f>, NoMemory>
        ensures { IfOk result (λ few. few ≡ self.now) }
    {
        Ok(FewKinds {
            different: self.different.clone()?,
            numbers: self.numbers.clone()?,
        })
    }

    /// The first kinds, of so many, if there are as many.
    #[tactic(auto, using(crate::proofs::Numbered::firsts))]
    pub fn first(&self, alloc: Global, many: usize) -> Result<Option<FewKinds<'f>>, NoMemory>
        ensures { IfOk result (λ all. IfSome all (λ few. few ≡ take many self.now)) }
    {
        if many > self.numbers.len() {
            return Ok(None);
        }
        let numbers = first_of(alloc, &self.numbers, many)?;
        Ok(Some(FewKinds {
            different: self.different.clone()?,
            numbers: Rc::new(alloc, numbers)?,
        }))
    }

    /// The kinds and others behind them, if it is seen that the different ones of those begin with
    /// these.
    pub fn and(&self, alloc: Global, more: &FewKinds<'f>) -> Result<Option<FewKinds<'f>>, NoMemory>
        ensures { IfOk result (λ all. IfSome all (λ few. few ≡ self.now ++ more.now)) }
    {
        let mut telling = Telling::new(alloc, more)?;
        if !telling.add(self)? || !telling.add(more)? {
            return Ok(None);
        }
        Ok(Some(telling.told(alloc)?))
    }

    /// Whether it is seen by bytes that others are the same.
    pub fn is_same(&self, other: &FewKinds) -> bool
        ensures { IsTrue result → self.now ≡ other.now }
    {
        self.numbers.as_slice() == other.numbers.as_slice()
            && self.different.is_spelled_as(&other.different)
    }

    /// Whether it is seen by bytes that they fit into others.
    pub(crate) fn fits_into(&self, exceptions: &[&[u8]], other: &FewKinds) -> bool
        ensures { IsTrue result
            → IsTrue (all_into (names exceptions.now) self.now other.now) }
    {
        let numbers = self.numbers.as_slice();
        let others = other.numbers.as_slice();
        if numbers == others {
            return self.different.fits_into(exceptions, &other.different);
        }
        let mine = self.different.found().kinds();
        let its = other.different.found().kinds();
        pairs_into(exceptions, numbers, others, mine, its)
    }
}

/// Kinds that are told by the different ones of others. Contracts see which kinds they are.
#[derive(Drop)]
pub struct Telling<'f> {
    different: Rc<Different<'f>>,
    numbers: Vec<u8>,
}

impl<'f> Model for Telling<'f> {
    ghost use Rattle.std.specs.Prelude.{List, length};
    ghost use Rattle.par_kinds.specs.declared.frame.VKind.{VKind};
    ghost use Rattle.par_place_kinds.specs.Numbered.{numbered, AreBelow};

    ghost Value = { List VKind };

    ghost view = { λ t. numbered t.different.value t.numbers.items };

    ghost invariant = { λ t. AreBelow (length t.different.value) t.numbers.items };
}

impl<'f> Telling<'f> {
    /// No kinds, and the different ones of others.
    pub fn new(alloc: Global, like: &FewKinds<'f>) -> Result<Telling<'f>, NoMemory>
        ensures { IfOk result (λ telling. telling ≡ []) }
    {
        Ok(Telling {
            different: like.different.clone()?,
            numbers: Vec::new(alloc),
        })
    }

    /// Tells others behind them, if it is seen that the different ones begin with theirs.
    pub fn add(&mut self, few: &FewKinds) -> Result<bool, NoMemory>
        ensures { IfOk result (λ done. IsTrue done → self.new ≡ self.old ++ few.now) }
    {
        if !self.different.begins_with(&few.different) {
            return Ok(false);
        }
        self.numbers.extend_from_slice(few.numbers.as_slice())?;
        Ok(true)
    }

    /// The kinds that were told.
    pub fn told(self, alloc: Global) -> Result<FewKinds<'f>, NoMemory>
        ensures { IfOk result (λ few. few ≡ self.entry) }
    {
        Ok(FewKinds {
            different: self.different,
            numbers: Rc::new(alloc, self.numbers)?,
        })
    }
}
