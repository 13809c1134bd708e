// Sets that are closed over some numbers, in one pass over each of these.
ghost use Rattle.std.specs.Prelude.{◌≡◌, ◌<◌, ℕ, ◌||◌, ◌&&◌, not, IsTrue, length};
ghost use Rattle.par_bits.specs.Sets.{has};
ghost use Rattle.par_reached.specs.Reached.{set_at, AreLeastSets, Passed};

use par_atoms::Atoms;

// What comes to one number comes to the number of the set, if the one does.
fn gains(set: Atoms, over: u16, via: &Atoms) -> Atoms
    requires { over < 256 }
    ensures { (n : ℕ) → has result n ≡ (has set n || (has set over && has via.now n)) }
{
    if set.has(over) { set.union(via) } else { set }
}

// What comes to one of the numbers comes to each that it comes to.
fn go_through(sets: &mut [Atoms], over: usize)
    requires few { over < 256 }
    requires inside { over < length sets.old }
    ensures size { length sets.new ≡ length sets.old }
    ensures passed { Passed (set_at sets.old) over (set_at sets.new) }
{
    let via = sets[over];
    for place in 0..sets.len() {
        sets[place] = gains(sets[place], over as u16, &via);
    }
}

// The sets without these numbers.
fn drop_from(sets: &mut [Atoms], dropped: &Atoms)
    ensures size { length sets.new ≡ length sets.old }
    ensures rest { (i n : ℕ) → set_at sets.new i n
        ≡ (set_at sets.old i n && not (has dropped.now n)) }
{
    for place in 0..sets.len() {
        sets[place] = sets[place].minus(dropped);
    }
}

/// Each set becomes what its number is reached by, over the numbers that are inferred.
pub fn reach(sets: &mut [Atoms], inferred: &Atoms)
    requires { (n : ℕ) → IsTrue (has inferred.now n) → n < length sets.old }
    ensures size { length sets.new ≡ length sets.old }
    ensures least { AreLeastSets (has inferred.now) (set_at sets.old) (set_at sets.new) }
{
    inferred.members_are_below();
    for over in 0..sets.len() {
        if over < 256 && inferred.has(over as u16) {
            go_through(sets, over);
        }
    }
    drop_from(sets, inferred);
}
