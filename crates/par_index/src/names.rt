ghost use Rattle.std.specs.Prelude.{◌≡◌, ◌<◌, length, IfOk};
ghost use Rattle.std.specs.List.{position};
ghost use Rattle.std.specs.Str.{bytes_eq};
ghost use Rattle.par_index.specs.Texts.{texts, same_text, has};
ghost use Rattle.par_index.specs.Firsts.{AreFirst};
ghost use Rattle.par_index.specs.Placed.{ArePlaced};
ghost use Rattle.par_index.specs.declared.search.TheConstants.{FEW};

use crate::firsts::Firsts;
use crate::search::{FEW, search};
use par_base::memory::NoMemory;
use par_base::name::Name;
use std::alloc::Global;

/// Names in an order, each with the first place where it stands. A name may stand more than once.
pub struct NameIndex<'a> {
    names: Vec<&'a [u8]>,
    /// Where each name stands first, if there are many. A few names are searched.
    firsts: Firsts<&'a [u8]>,
    ghost placed: { FEW < length names.items → ArePlaced names.items firsts },
}

impl Drop for NameIndex<'_> {
    fn drop(self) {
        let NameIndex {
            names: _,
            firsts: _,
        } = self;
    }
}

// Where each name stands first, if there are many.
fn places<'a>(alloc: Global, names: &[&'a [u8]]) -> Result<Firsts<&'a [u8]>, NoMemory>
    ensures { IfOk result (λ firsts.
        FEW < length names.now → AreFirst same_text names.now firsts) }
{
    if names.len() <= FEW {
        Firsts::of(alloc, &[])
    } else {
        Firsts::of(alloc, names)
    }
}

impl<'a> NameIndex<'a> {
    /// An index of these names.
    pub fn of(alloc: Global, names: Vec<&'a [u8]>) -> Result<NameIndex<'a>, NoMemory>
        ensures { IfOk result (λ index. texts index.names.items ≡ texts names.entry.items) }
    {
        let firsts = places(alloc, names.as_slice())?;
        Ok(NameIndex { names, firsts })
    }

    /// Whether the name is among them.
    pub fn has(&self, name: &Name) -> bool
        ensures { result ≡ has (texts self.now.names.items) name.now }
    {
        self.place(name).is_some()
    }

    /// The first place of the name.
    pub fn place(&self, name: &Name) -> Option<usize>
        ensures { result ≡ position (bytes_eq name.now) (texts self.now.names.items) }
    {
        let names = self.names.as_slice();
        if names.len() <= FEW {
            search(names, name)
        } else {
            self.firsts.place(&name.bytes())
        }
    }
}
