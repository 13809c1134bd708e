// The steps to the normal form.
ghost use Rattle.std.specs.Prelude.{◌≡◌, ◌<◌, ◌≤◌, ◌≢◌, ◌++◌, [], ◌∷◌, OnOk};
ghost use Rattle.std.specs.Prelude.{false, length, not};
ghost use Rattle.std.specs.List.{list_any, filter, AllWithin, HoldsAt};
ghost use Rattle.std.specs.declared.cmp.Ordering.TheVariants.{Less};
ghost use Rattle.par_policy.specs.Sees.{IsSeenAlike};
ghost use Rattle.par_policy.specs.Lattice.{IsMeet};
ghost use Rattle.par_policy.specs.Normal.{IsNormal, clause_cmp, covers};
ghost use Rattle.par_policy.specs.Numbers.{IsAscending};

use crate::clauses::{Clause, compare, covers};
use par_base::memory::NoMemory;

// Puts each of the clauses among those that are kept.
pub(crate) fn keep_all(kept: &mut Vec<Clause>, clauses: &[Clause]) -> Result<(), NoMemory>
    requires { IsNormal kept.old.items }
    ensures normal { OnOk result (IsNormal kept.new.items) }
    ensures seen { OnOk result (IsMeet kept.new.items kept.old.items clauses.now) }
{
    for clause in clauses {
        keep(kept, clause)?;
    }
    Ok(())
}

// Puts the clause among those that are kept, unless one of them covers it, in place of those that
// it covers.
pub(crate) fn keep(kept: &mut Vec<Clause>, clause: &Clause) -> Result<(), NoMemory>
    requires { IsNormal kept.old.items }
    ensures normal { OnOk result (IsNormal kept.new.items) }
    ensures alike { OnOk result (IsSeenAlike kept.new.items (kept.old.items ++ clause.now ∷ [])) }
{
    if is_covered(kept, clause) {
        return Ok(());
    }
    let copy = clause.clone()?;
    put(kept, copy)
}

// Puts the clause, which none of them covers, in place of those that it covers.
pub(crate) fn put(kept: &mut Vec<Clause>, clause: Clause) -> Result<(), NoMemory>
    requires normal { IsNormal kept.old.items }
    requires ascending { IsAscending clause.locks }
    requires uncovered { list_any (λ c. covers c clause) kept.old.items ≡ false }
    ensures normal { OnOk result (IsNormal kept.new.items) }
    ensures alike { OnOk result (IsSeenAlike kept.new.items (kept.old.items ++ clause ∷ [])) }
{
    drop_covered(kept, &clause);
    let place = position_of(kept, &clause);
    kept.insert(place, clause)?;
    Ok(())
}

// Whether one of the clauses covers this one.
fn is_covered(kept: &[Clause], clause: &Clause) -> bool
    ensures { result ≡ list_any (λ c. covers c clause.now) kept.now }
{
    kept.iter().any(|other| covers(other, clause))
}

// Drops the clauses that this one covers.
fn drop_covered(kept: &mut Vec<Clause>, clause: &Clause)
    ensures { kept.new.items ≡ filter (λ c. not (covers clause.now c)) kept.old.items }
{
    kept.retain(|other| !covers(clause, other));
}

// How many clauses at the front are before this one.
fn position_of(kept: &[Clause], clause: &Clause) -> usize
    ensures bound { result ≤ length kept.now }
    ensures before { AllWithin (λ c. clause_cmp c clause.now ≡ Less) kept.now 0 result }
    ensures first { result < length kept.now
        → HoldsAt (λ c. clause_cmp c clause.now ≢ Less) kept.now result }
{
    for (place, other) in kept.iter().enumerate() {
        if compare(other, clause).is_ge() {
            return place;
        }
    }
    kept.len()
}
