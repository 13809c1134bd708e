ghost use Rattle.std.specs.Prelude.{◌≡◌, ◌≤◌, ◌-◌, ◌++◌, None, length, take, drop, replicate};

use par_values::value::MVal;

/// Empties the places from one up to another.
pub(crate) fn empty(places: &mut Vec<Option<MVal>>, from: usize, to: usize)
    requires ordered { from ≤ to }
    requires within { to ≤ length places.old.items }
    ensures { places.new.items
        ≡ take from places.old.items ++ (replicate (to - from) None ++ drop to places.old.items) }
{
    for place in from..to {
        places[place] = None;
    }
}
