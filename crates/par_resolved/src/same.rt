// Whether terms of policies say the same, wherever they stand.
ghost use Rattle.std.specs.Prelude.{◌≡◌, map};
ghost use Rattle.std.specs.Str.{bytes_eq};
ghost use Rattle.par_resolved.specs.Numbers.{Numbers, actor_number, lock_number};
ghost use Rattle.par_resolved.specs.Policies.{clause_of, term_value, term_values};
ghost use Rattle.par_resolved.specs.Same.{IsSame};

use par_base::name::Name;
use par_tree::ident::Ident;
use par_tree::policy::{ClauseTree, LockTree, PolicyTerm};

/// Whether the terms of two expressions are written the same, spaces and comments aside.
pub(crate) fn are_same(one: &[PolicyTerm], other: &[PolicyTerm]) -> bool
    ensures { IsSame term_values result one.now other.now }
{
    if one.len() != other.len() {
        return false;
    }
    for place in 0..one.len() {
        if !is_same(&one[place], &other[place]) {
            return false;
        }
    }
    true
}

fn is_same(one: &PolicyTerm, other: &PolicyTerm) -> bool
    ensures { IsSame term_value result one.now other.now }
{
    match (one, other) {
        (PolicyTerm::Clauses(one), PolicyTerm::Clauses(other)) => {
            are_same_clauses(one.as_slice(), other.as_slice())
        }
        (PolicyTerm::Named(one), PolicyTerm::Named(other)) => {
            are_same_names(&one.name, &other.name)
        }
        (PolicyTerm::Bottom, PolicyTerm::Bottom) => true,
        (PolicyTerm::Top, PolicyTerm::Top) => true,
        _ => false,
    }
}

fn are_same_clauses(one: &[ClauseTree], other: &[ClauseTree]) -> bool
    ensures { IsSame (λ (n : Numbers). map (clause_of n)) result one.now other.now }
{
    if one.len() != other.len() {
        return false;
    }
    for place in 0..one.len() {
        if !is_same_clause(&one[place], &other[place]) {
            return false;
        }
    }
    true
}

fn is_same_clause(one: &ClauseTree, other: &ClauseTree) -> bool
    ensures { IsSame clause_of result one.now other.now }
{
    is_same_actor(&one.actor, &other.actor)
        && are_same_locks(one.locks.as_slice(), other.locks.as_slice())
}

fn are_same_locks(one: &[LockTree], other: &[LockTree]) -> bool
    ensures { IsSame (λ (n : Numbers). map (lock_number n)) result one.now other.now }
{
    if one.len() != other.len() {
        return false;
    }
    for place in 0..one.len() {
        if !is_same_lock(&one[place], &other[place]) {
            return false;
        }
    }
    true
}

fn is_same_lock(one: &LockTree, other: &LockTree) -> bool
    ensures { IsSame lock_number result one.now other.now }
{
    are_same_names(&one.id.name, &other.id.name)
        && are_same_actors(one.actors.as_slice(), other.actors.as_slice())
}

fn are_same_actors(one: &[Ident], other: &[Ident]) -> bool
    ensures { IsSame (λ (n : Numbers). map (actor_number n)) result one.now other.now }
{
    if one.len() != other.len() {
        return false;
    }
    for place in 0..one.len() {
        if !is_same_actor(&one[place], &other[place]) {
            return false;
        }
    }
    true
}

fn is_same_actor(one: &Ident, other: &Ident) -> bool
    ensures { IsSame actor_number result one.now other.now }
{
    are_same_names(&one.name, &other.name)
}

fn are_same_names(one: &Name, other: &Name) -> bool
    ensures { result ≡ bytes_eq one.now other.now }
{
    one.bytes() == other.bytes()
}
