// Actors and ground locks by their numbers.
ghost use Rattle.std.specs.Prelude.{◌≡◌, ◌≤◌, IfOk, map, length, sum_by};
ghost use Rattle.par_tree.specs.Shown.{source};
ghost use Rattle.par_parts.specs.Gathered.{all_of};
ghost use Rattle.par_names.specs.Declarations as names;
ghost use Rattle.par_resolved.specs.Few.{IsFew, HasFew};
ghost use Rattle.par_resolved.specs.Numbers.{actor_number, lock_number, place_in_family};
ghost use Rattle.par_resolved.specs.Numbers.{ground_count, numbers_of};

use crate::firsts::firsts;
use crate::limits::{MOST_ACTORS, MOST_GROUND_LOCKS};
use par_base::memory::NoMemory;
use par_names::par_index::NameIndex;
use par_names::{actors, index, index_named, locks};
use par_tree::decl::{LockDecl, Program};
use par_tree::ident::Ident;
use par_tree::policy::LockTree;
use std::alloc::Global;

/// The declared actors and locks of a program that is within their limits, with the numbers of the
/// first ground locks of each declaration.
pub struct Numbers<'a> {
    actors: NameIndex<'a>,
    actor_count: u8,
    locks: NameIndex<'a>,
    firsts: Vec<u16>,
    ghost few: { IsFew actors actor_count firsts.items },
}

impl Drop for Numbers<'_> {
    fn drop(self) {
        let Numbers {
            actors: _,
            actor_count: _,
            locks: _,
            firsts: _,
        } = self;
    }
}

impl<'a> Numbers<'a> {
    ghost use Rattle.par_resolved.specs.Seen.{seen};
    ghost use Rattle.par_resolved.specs.Numbers.{numbers};

    /// The actors and the locks of a program.
    pub fn of(alloc: Global, program: &'a Program) -> Result<Numbers<'a>, NoMemory>
        requires { HasFew (source program.now) }
        ensures { IfOk result (λ n. seen n ≡ numbers (source program.now)) }
    {
        let ids = actors(alloc, program)?;
        let numbers = Numbers::of_actors(alloc, ids.as_slice(), program);
        drop(ids);
        numbers
    }

    // The actors of a program, which are these, and its locks.
    fn of_actors(
        alloc: Global,
        ids: &[&'a Ident],
        program: &'a Program,
    ) -> Result<Numbers<'a>, NoMemory>
        requires few { HasFew (source program.now) }
        requires actors { all_of ids.now ≡ names.actors (source program.now) }
        ensures { IfOk result (λ n. seen n ≡ numbers (source program.now)) }
    {
        let decls = locks(alloc, program)?;
        let numbers = Numbers::of_declared(alloc, ids, decls.as_slice());
        drop(decls);
        numbers
    }

    // These actors, and the locks that are declared so.
    fn of_declared(
        alloc: Global,
        ids: &[&'a Ident],
        decls: &[&'a LockDecl],
    ) -> Result<Numbers<'a>, NoMemory>
        requires few_actors { length ids.now ≤ MOST_ACTORS }
        requires few_locks { sum_by (ground_count (length ids.now)) (all_of decls.now)
            ≤ MOST_GROUND_LOCKS }
        ensures { IfOk result (λ n. seen n ≡ numbers_of (all_of ids.now) (all_of decls.now)) }
    {
        let actor_count = ids.len() as u8;
        let firsts = firsts(alloc, actor_count, decls)?;
        let actors = index(alloc, ids)?;
        let locks = index_named(alloc, decls)?;
        Ok(Numbers {
            actors,
            actor_count,
            locks,
            firsts,
        })
    }

    /// How many actors there are.
    pub fn actor_count(&self) -> u8
        ensures { result ≡ length (seen self.now).actors }
    {
        self.actor_count
    }

    /// The number of an actor.
    pub fn actor(&self, actor: &Ident) -> u8
        ensures { result ≡ actor_number (seen self.now) actor.now }
    {
        match self.actors.place(&actor.name) {
            None => 0,
            Some(place) => place as u8,
        }
    }

    /// The number of a ground lock.
    pub fn lock(&self, lock: &LockTree) -> u16
        ensures { result ≡ lock_number (seen self.now) lock.now }
    {
        let family = self.locks.place(&lock.id.name).unwrap_or(0);
        let first = self.firsts.get(family).copied().unwrap_or(0);
        first + self.place_in_family(lock.actors.as_slice())
    }

    // The place of the ground lock of these actors in its family.
    fn place_in_family(&self, actors: &[Ident]) -> u16
        ensures place { result ≡ place_in_family (length (seen self.now).actors)
            (map (actor_number (seen self.now)) actors.now) }
        ensures small { result ≤ 272 }
    {
        match actors {
            [] => 0,
            [one] => u16::from(self.actor(one)),
            [one, other, ..] => {
                u16::from(self.actor(one)) * u16::from(self.actor_count)
                    + u16::from(self.actor(other))
            }
        }
    }
}
