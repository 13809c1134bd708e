// Whether kept ways are the same.
ghost use Rattle.std.specs.Prelude.{◌≡◌, IsTrue};

use crate::kept::{KeptWay, KeptWays};
use par_atoms::Atoms;
use par_bits::Bits;

fn is_same_set(one: &Atoms, other: &Atoms) -> bool
    ensures { IsTrue result → one.now ≡ other.now }
{
    one.within(other) && other.within(one)
}

fn are_same_locks(one: &Bits<4>, other: &Bits<4>) -> bool
    ensures { IsTrue result → one.now ≡ other.now }
{
    one.within(other) && other.within(one)
}

fn is_same_way(one: &KeptWay, other: &KeptWay) -> bool
    ensures { IsTrue result → one.now ≡ other.now }
{
    one.env == other.env
        && is_same_set(&one.context, &other.context)
        && are_same_locks(&one.locks, &other.locks)
}

fn may_be_same(one: &Option<KeptWay>, other: &Option<KeptWay>) -> bool
    ensures { IsTrue result → one.now ≡ other.now }
{
    match one {
        None => other.is_none(),
        Some(way) => match other {
            None => false,
            Some(other) => is_same_way(way, other),
        },
    }
}

fn is_same_throw(one: &(u16, KeptWay), other: &(u16, KeptWay)) -> bool
    ensures { IsTrue result → one.now ≡ other.now }
{
    one.0 == other.0 && is_same_way(&one.1, &other.1)
}

fn are_same_throws(one: &[(u16, KeptWay)], other: &[(u16, KeptWay)]) -> bool
    ensures { IsTrue result → one.now ≡ other.now }
{
    if one.len() != other.len() {
        return false;
    }
    for place in 0..one.len() {
        if !is_same_throw(&one[place], &other[place]) {
            return false;
        }
    }
    true
}

/// Whether the ways of all completions are the same. Where they are the same but their throws are
/// listed in another order, they may be told to differ.
pub(crate) fn are_same(one: &KeptWays, other: &KeptWays) -> bool
    ensures { IsTrue result → one.now ≡ other.now }
{
    may_be_same(&one.normal, &other.normal)
        && may_be_same(&one.ret, &other.ret)
        && may_be_same(&one.brk, &other.brk)
        && may_be_same(&one.cont, &other.cont)
        && are_same_throws(one.throws.as_slice(), other.throws.as_slice())
}
