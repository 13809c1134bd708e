//! Places in lists.

ghost use Rattle.std.specs.Prelude.{◌≡◌, ◌<◌, ◌^◌, IfSome};
ghost use Rattle.par_index.specs.Firsts.{AreFirst};
ghost use Rattle.par_references.specs.Firsts.{first_repeated};

use par_index::Firsts;
use std::hash::Hash;

/// The first place whose item stands at an earlier one too, where these are the first places of all
/// items.
pub(crate) fn first_repeated<K: Eq + Hash + Copy>(firsts: &Firsts<K>, items: &[K]) -> Option<usize>
    requires { AreFirst K.eq items.now firsts.now }
    ensures { result ≡ first_repeated K.eq items.now }
{
    for (place, item) in items.iter().enumerate() {
        if firsts.place(item) != Some(place) {
            return Some(place);
        }
    }
    None
}

/// A place that fits two bytes.
pub(crate) fn narrow(place: Option<usize>) -> Option<u16>
    requires { IfSome place (λ place. place < 2 ^ 16) }
    ensures { result ≡ place }
{
    match place {
        Some(place) => Some(place as u16),
        None => None,
    }
}
