//! What tells members of a class from each other, as they are looked up.

ghost use Rattle.std.specs.Prelude.{◌≡◌, IfOk};
ghost use Rattle.std.specs.List.{position};
ghost use Rattle.par_index.specs.Firsts.{AreFirst};
ghost use Rattle.par_references.specs.Firsts.{first_repeated};
ghost use Rattle.par_references.specs.Placed.{same_key};

use crate::places::first_repeated;
use par_index::Firsts;
use par_index::par_base::memory::NoMemory;
use std::alloc::Global;

/// What tells a field or a method from the others of its class: its name and its descriptor, each
/// by the number of the text among those of all files.
#[derive(Clone, Copy, PartialEq, Eq, Hash)]
pub(crate) struct Key {
    pub(crate) name: u32,
    pub(crate) descriptor: u32,
}

/// The keys of the fields or of the methods of a class, in their order.
#[derive(Drop)]
pub(crate) struct Keys {
    pub(crate) keys: Vec<Key>,
    firsts: Firsts<Key>,
    ghost placed: { AreFirst same_key keys.items firsts },
}

impl Keys {
    /// A table of these keys.
    pub(crate) fn of(alloc: Global, keys: Vec<Key>) -> Result<Keys, NoMemory>
        ensures { IfOk result (λ table. table.keys.items ≡ keys.items) }
    {
        let firsts = Firsts::of(alloc, keys.as_slice())?;
        Ok(Keys { keys, firsts })
    }

    /// The first place of a key.
    pub(crate) fn place(&self, key: &Key) -> Option<usize>
        ensures { result ≡ position (same_key key.now) self.now.keys.items }
    {
        self.firsts.place(key)
    }

    /// The first place whose key stands at an earlier one too.
    pub(crate) fn repeated(&self) -> Option<usize>
        ensures { result ≡ first_repeated same_key self.now.keys.items }
    {
        first_repeated(&self.firsts, self.keys.as_slice())
    }
}
