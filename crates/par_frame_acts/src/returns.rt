//! Returns.

ghost use Rattle.std.specs.Prelude.{◌≡◌, [], option_map, IfOk};
ghost use Rattle.par_values.specs.Operations.{Leave, LeaveWith};
ghost use Rattle.par_values.specs.Reasons.{is_result};
ghost use Rattle.par_link.specs.entry.Named.TheVariants as named;
ghost use Rattle.par_single.specs.Descriptors.{kind_of};
ghost use Rattle.par_single.specs.Links.{kind_or_any};
ghost use Rattle.par_frame_steps.specs.par_kinds.Linked.{acted};
ghost use Rattle.par_frame_steps.specs.Marks.{act_of, asked_of};

use crate::descriptor::asked;
use crate::forms::{one, right};
use par_base::memory::NoMemory;
use par_frame_steps::{Act, Also, Asked, Flow, Leaves};
use par_single::descriptor::Said;
use std::alloc::Global;

/// What a result has to be of a method that gives this.
fn result_asked<'f>(gives: Option<Said<'f>>) -> Asked<'f>
    ensures { asked_of result ≡ kind_or_any (option_map kind_of gives.entry) }
{
    match gives {
        Some(said) => asked(said),
        None => Asked::Anything,
    }
}

/// Whether a method with this kind of result is left with one of that kind.
fn is_result(left: Asked, wanted: Asked) -> bool
    ensures { result ≡ is_result (asked_of left.entry) (asked_of wanted.entry) }
{
    match (left, wanted) {
        (Asked::Number, Asked::Number) => true,
        (Asked::AnyObject, Asked::Object(_)) => true,
        (Asked::AnyObject, Asked::AnyObject) => true,
        _ => false,
    }
}

/// A return with a result, from a method that gives this.
pub(crate) fn leave_with<'f>(
    alloc: Global,
    gives: Option<Said<'f>>,
    kind: Asked<'f>,
) -> Result<Act<'f>, NoMemory>
    ensures { IfOk result (λ made. act_of made
        ≡ acted [] (option_map kind_of gives.entry) named.Nothing
        (LeaveWith (asked_of kind.entry))) }
{
    let wanted = result_asked(gives);
    let also = Also::Result(wanted);
    let takes = one(alloc, kind)?;
    let mut act = right(takes, also, Leaves::Gives(None), Flow::Nowhere);
    act.wrong = gives.is_none() || !is_result(kind, wanted);
    Ok(act)
}

/// A return without a result, from a method that gives this.
pub(crate) fn leave<'f>(alloc: Global, gives: Option<Said<'f>>) -> Act<'f>
    ensures { act_of result
        ≡ acted [] (option_map kind_of gives.entry) named.Nothing Leave }
{
    let leaves = Leaves::Gives(None);
    let mut act = right(Vec::new(alloc), Also::Nothing, leaves, Flow::Nowhere);
    act.wrong = gives.is_some();
    act
}
