ghost use Rattle.std.specs.Prelude.{◌≡◌, ◌++◌, ◌∷◌, [], length, take, OnOk, OnErr};
ghost use Rattle.std.specs.List.{position};
ghost use Rattle.std.specs.Str.{bytes_eq};
ghost use Rattle.par_index.specs.Texts.{has, texts};
ghost use Rattle.par_index.specs.Stacked.{standing};

use crate::search::{FEW, search};
use par_base::memory::NoMemory;
use par_base::name::Name;
use std::alloc::Global;
use std::collections::HashMap;
use std::marker::Model;

/// Names that come into scope one after another, of which the last ones leave first. A name may
/// stand more than once. Contracts see a stack as the list of its names, the last one last.
pub struct NameStack<'a> {
    names: Vec<&'a [u8]>,
    /// Where each name stands first. What is kept of a name that has left does no harm: a place
    /// counts only where the name stands there.
    firsts: HashMap<&'a [u8], usize>,
}

impl Drop for NameStack<'_> {
    fn drop(self) {
        let NameStack {
            names: _,
            firsts: _,
        } = self;
    }
}

impl<'a> Model for NameStack<'a> {
    ghost use Rattle.std.specs.Prelude.{List, ℕ};
    ghost use Rattle.par_index.specs.Texts.{texts};

    ghost Value = { List (List ℕ) };

    ghost use Rattle.par_index.specs.Stacked.{KeepsPlaces};

    ghost view = { λ stack. texts stack.names.items };

    ghost invariant = { KeepsPlaces };
}

impl<'a> NameStack<'a> {
    /// No names.
    pub fn new(alloc: Global) -> NameStack<'a>
        ensures { result ≡ [] }
    {
        NameStack {
            names: Vec::new(alloc),
            firsts: HashMap::new(alloc),
        }
    }

    /// How many names there are.
    pub fn len(&self) -> usize
        ensures { result ≡ length self.now }
    {
        self.names.len()
    }

    /// Whether the name is among them.
    pub fn has(&self, name: &Name) -> bool
        ensures { result ≡ has self.now name.now }
    {
        self.place(name).is_some()
    }

    /// The first place of the name.
    pub fn place(&self, name: &Name) -> Option<usize>
        ensures { result ≡ position (bytes_eq name.now) self.now }
    {
        let names = self.names.as_slice();
        if names.len() <= FEW {
            return search(names, name);
        }
        match self.firsts.get(&name.bytes()) {
            None => None,
            Some(place) => standing(names, *place, name),
        }
    }

    /// Puts a name behind the others. Without memory they are as before.
    pub fn push(&mut self, name: &'a Name) -> Result<(), NoMemory>
        ensures ok { OnOk result (self.new ≡ self.old ++ name.entry.now ∷ []) }
        ensures refused { OnErr result (self.new ≡ self.old) }
    {
        if !self.has(name) {
            self.firsts.insert(name.bytes(), self.names.len())?;
        }
        self.names.push(name.bytes())?;
        Ok(())
    }

    /// Takes out all names behind the first `len` ones.
    pub fn truncate(&mut self, len: usize)
        ensures { self.new ≡ take len self.old }
    {
        self.names.truncate(len);
    }
}

// This place, where the name stands there.
fn standing(names: &[&[u8]], place: usize, name: &Name) -> Option<usize>
    ensures { result ≡ standing (texts names.now) place name.now }
{
    match names.get(place) {
        None => None,
        Some(other) => {
            if name.bytes() == *other {
                Some(place)
            } else {
                None
            }
        }
    }
}
