ghost use Rattle.std.specs.Prelude.{◌≡◌, IfOk};
ghost use Rattle.std.specs.HashMap.{get};
ghost use Rattle.par_index.specs.Firsts.{AreFirst};

use par_base::memory::NoMemory;
use std::alloc::Global;
use std::collections::HashMap;
use std::hash::Hash;

/// The places where the items of a list stand first.
#[derive(Drop)]
pub struct Firsts<K: Eq + Hash> {
    places: HashMap<K, usize>,
}

impl<K: Eq + Hash + Copy> Firsts<K> {
    /// The first places of these items.
    pub fn of(alloc: Global, items: &[K]) -> Result<Firsts<K>, NoMemory>
        ensures { IfOk result (λ firsts. AreFirst K.eq items.now firsts) }
    {
        let mut places = HashMap::new(alloc);
        for (place, item) in items.iter().enumerate() {
            if !places.contains_key(item) {
                places.insert(*item, place)?;
            }
        }
        Ok(Firsts { places })
    }

    /// The first place of an item.
    pub fn place(&self, item: &K) -> Option<usize>
        ensures { result ≡ get K.eq self.now.places item.now }
    {
        self.places.get(item).copied()
    }
}
