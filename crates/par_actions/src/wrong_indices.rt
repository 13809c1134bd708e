//! What an index of a wrong kind comes to: the least of what else stands against its instruction,
//! and of the index.

ghost use Rattle.std.specs.Prelude.{List, [], ◌∷◌, replicate};
ghost use Rattle.par_values.specs.Areas.{Name, Areas};
ghost use Rattle.par_values.specs.declared.kind.Kind.TheVariants.{AnyObject, Anything};
ghost use Rattle.par_values.specs.Operations.{Misnamed};
ghost use Rattle.par_values.specs.Reasons.{Spot};
ghost use Rattle.par_actions.specs.Done.{IsAt, Comes};

use crate::done::Done;
use crate::operands::{Reference, is_int, last_reference};
use par_stack::Stack;

/// Where so many operands of any kind are taken, and so many are pushed, whatever the index names.
#[tactic(auto, using(crate::proofs::Indices::misnaming))]
pub fn misnamed(stack: &Stack, takes: u8, gives: u8, ahead: bool) -> Done
    ensures { (classes : List Name) (spot : Spot) (program : Areas) → IsAt spot ahead stack.now →
        Comes result classes spot (Misnamed (replicate takes Anything) gives) program stack.now
        stack.now }
{
    if stack.count() < takes as usize {
        return Done::Bad(1);
    }
    if stack.free() < (gives.saturating_sub(takes)) as usize {
        return Done::Bad(3);
    }
    Done::Bad(if ahead { 6 } else { 5 })
}

/// Where the field of an object is read.
#[tactic(auto, using(crate::proofs::Indices::misreading))]
pub fn misnamed_read(stack: &Stack, ahead: bool) -> Done
    ensures { (classes : List Name) (spot : Spot) (program : Areas) → IsAt spot ahead stack.now →
        Comes result classes spot (Misnamed (AnyObject ∷ []) 1) program stack.now stack.now }
{
    match last_reference(stack) {
        Reference::Missing => Done::Bad(1),
        Reference::Unfit => Done::Bad(2),
        Reference::Is(_) => Done::Bad(if ahead { 6 } else { 5 }),
    }
}

/// Where any value is written to the field of an object.
#[tactic(auto, using(crate::proofs::Indices::miswriting))]
pub fn misnamed_write(stack: &Stack, ahead: bool) -> Done
    ensures { (classes : List Name) (spot : Spot) (program : Areas) → IsAt spot ahead stack.now →
        Comes result classes spot (Misnamed (Anything ∷ AnyObject ∷ []) 0) program stack.now
        stack.now }
{
    let Some(object) = stack.operand(1) else {
        return Done::Bad(1);
    };
    if is_int(object) {
        return Done::Bad(2);
    }
    Done::Bad(if ahead { 6 } else { 5 })
}
