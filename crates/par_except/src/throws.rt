// Throws, by class.
ghost use Rattle.std.specs.Prelude.{◌≡◌, [], ◌∷◌, ◌++◌, ℕ, IfOk, OnOk, length};
ghost use Rattle.std.specs.Option.{option_copied};
ghost use Rattle.par_except.specs.Seen.{may_see, seen, HasLocals, MayHaveLocals};
ghost use Rattle.par_except.specs.Exits.{seen_throws, thrown, ThrowsHaveLocals};
ghost use Rattle.par_except.specs.Throws.{apart_from, both, but, each, joined, joined_with};

use crate::way::Way;
use par_program_laws::par_base::list::List;
use par_program_laws::par_base::memory::NoMemory;
use std::alloc::Global;

/// The way that is kept for the class.
pub fn way_of(throws: &[(u16, Way)], class: u16) -> Option<&Way>
    ensures way { may_see (option_copied result) ≡ thrown (seen_throws throws.now) class }
    ensures locals { (n : ℕ) → ThrowsHaveLocals n throws.now
        → MayHaveLocals n (option_copied result) }
{
    for throw in throws {
        if throw.0 == class {
            return Some(&throw.1);
        }
    }
    None
}

fn joined(alloc: Global, way: &Way, other: Option<&Way>) -> Result<Way, NoMemory>
    requires { MayHaveLocals (length way.now.env) (option_copied other) }
    ensures way { IfOk result (λ w. seen w
        ≡ joined (seen way.now) (may_see (option_copied other.entry))) }
    ensures locals { IfOk result (λ w. length w.env ≡ length way.now.env) }
{
    match other {
        None => way.copy(alloc),
        Some(other) => way.join(alloc, other),
    }
}

// One more throw, behind those that are kept.
#[tactic(auto, using(crate::proofs::Pushed::seen_pushed, crate::proofs::Pushed::have_pushed))]
fn keep(kept: &mut List<(u16, Way)>, class: u16, way: Way) -> Result<(), NoMemory>
    ensures throws { OnOk result
        (seen_throws kept.new ≡ seen_throws kept.old ++ (class, seen way) ∷ []) }
    ensures locals { OnOk result ((n : ℕ) → ThrowsHaveLocals n kept.old → HasLocals n way
        → ThrowsHaveLocals n kept.new) }
{
    kept.push((class, way))?;
    Ok(())
}

// The throw, joined with that of its class among the others.
fn keep_joined(
    alloc: Global,
    kept: &mut List<(u16, Way)>,
    throw: &(u16, Way),
    others: &[(u16, Way)],
) -> Result<(), NoMemory>
    requires { ThrowsHaveLocals (length throw.now.1.env) others.now }
    ensures throws { OnOk result (seen_throws kept.new ≡ seen_throws kept.old
        ++ joined_with (seen_throws others.now) (throw.now.0, seen throw.now.1)) }
    ensures locals { OnOk result ((n : ℕ) → ThrowsHaveLocals n kept.old
        → HasLocals n throw.now.1 → ThrowsHaveLocals n kept.new) }
{
    let way = joined(alloc, &throw.1, way_of(others, throw.0))?;
    keep(kept, throw.0, way)
}

// The throw, where its class is not among the others.
fn keep_apart(
    alloc: Global,
    kept: &mut List<(u16, Way)>,
    throw: &(u16, Way),
    others: &[(u16, Way)],
) -> Result<(), NoMemory>
    ensures throws { OnOk result (seen_throws kept.new ≡ seen_throws kept.old
        ++ apart_from (seen_throws others.now) (throw.now.0, seen throw.now.1)) }
    ensures locals { OnOk result ((n : ℕ) → ThrowsHaveLocals n kept.old
        → HasLocals n throw.now.1 → ThrowsHaveLocals n kept.new) }
{
    match way_of(others, throw.0) {
        Some(_) => Ok(()),
        None => {
            let way = throw.1.copy(alloc)?;
            keep(kept, throw.0, way)
        }
    }
}

// The throw, unless it is of this class.
fn keep_but(
    alloc: Global,
    kept: &mut List<(u16, Way)>,
    throw: &(u16, Way),
    class: u16,
) -> Result<(), NoMemory>
    ensures throws { OnOk result (seen_throws kept.new ≡ seen_throws kept.old
        ++ but class (throw.now.0, seen throw.now.1)) }
    ensures locals { OnOk result ((n : ℕ) → ThrowsHaveLocals n kept.old
        → HasLocals n throw.now.1 → ThrowsHaveLocals n kept.new) }
{
    if throw.0 == class {
        return Ok(());
    }
    let way = throw.1.copy(alloc)?;
    keep(kept, throw.0, way)
}

// Each throw of the first list, joined with that of its class in the second.
fn joined_with(
    alloc: Global,
    one: &[(u16, Way)],
    other: &[(u16, Way)],
) -> Result<List<(u16, Way)>, NoMemory>
    requires { (n : ℕ) × ThrowsHaveLocals n one.now × ThrowsHaveLocals n other.now }
    ensures throws { IfOk result (λ ts. seen_throws ts
        ≡ each (joined_with (seen_throws other.now)) (seen_throws one.now)) }
    ensures locals { IfOk result (λ ts. (n : ℕ) → ThrowsHaveLocals n one.now
        → ThrowsHaveLocals n other.now → ThrowsHaveLocals n ts) }
{
    let mut kept = List::new(alloc);
    for throw in one {
        keep_joined(alloc, &mut kept, throw, other)?;
    }
    Ok(kept)
}

// The throws of the second list whose classes are not in the first, behind those that are kept.
fn add_others(
    alloc: Global,
    kept: &mut List<(u16, Way)>,
    one: &[(u16, Way)],
    other: &[(u16, Way)],
) -> Result<(), NoMemory>
    ensures throws { OnOk result (seen_throws kept.new
        ≡ seen_throws kept.old ++ each (apart_from (seen_throws one.now)) (seen_throws other.now)) }
    ensures locals { OnOk result ((n : ℕ) → ThrowsHaveLocals n kept.old
        → ThrowsHaveLocals n other.now → ThrowsHaveLocals n kept.new) }
{
    for throw in other {
        keep_apart(alloc, kept, throw, one)?;
    }
    Ok(())
}

/// The throws of both lists, class by class.
pub fn join(
    alloc: Global,
    one: &[(u16, Way)],
    other: &[(u16, Way)],
) -> Result<List<(u16, Way)>, NoMemory>
    requires { (n : ℕ) × ThrowsHaveLocals n one.now × ThrowsHaveLocals n other.now }
    ensures throws { IfOk result (λ ts. seen_throws ts
        ≡ both (seen_throws one.now) (seen_throws other.now)) }
    ensures locals { IfOk result (λ ts. (n : ℕ) → ThrowsHaveLocals n one.now
        → ThrowsHaveLocals n other.now → ThrowsHaveLocals n ts) }
{
    let mut kept = joined_with(alloc, one, other)?;
    add_others(alloc, &mut kept, one, other)?;
    Ok(kept)
}

/// The same throws once more.
pub fn copy(alloc: Global, throws: &[(u16, Way)]) -> Result<List<(u16, Way)>, NoMemory>
    ensures { IfOk result (λ ts. ts ≡ throws.now) }
{
    let mut kept = List::new(alloc);
    for throw in throws {
        kept.push((throw.0, throw.1.copy(alloc)?))?;
    }
    Ok(kept)
}

/// The throws of all other classes.
pub fn without(
    alloc: Global,
    throws: &[(u16, Way)],
    class: u16,
) -> Result<List<(u16, Way)>, NoMemory>
    ensures throws { IfOk result (λ ts. seen_throws ts
        ≡ each (but class) (seen_throws throws.now)) }
    ensures locals { IfOk result (λ ts. (n : ℕ) → ThrowsHaveLocals n throws.now
        → ThrowsHaveLocals n ts) }
{
    let mut kept = List::new(alloc);
    for throw in throws {
        keep_but(alloc, &mut kept, throw, class)?;
    }
    Ok(kept)
}
