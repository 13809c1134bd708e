//! Acts of a few forms.

ghost use Rattle.std.specs.Prelude.{◌≡◌, [], ◌∷◌, false, map, IfOk};
ghost use Rattle.par_frame_steps.specs.par_kinds.Acts as act;
ghost use Rattle.par_frame_steps.specs.Marks.{act_of, asked_of, also_of, leaves_of, flow_of};
ghost use Rattle.par_frame_steps.specs.Marks.{given};

use par_base::memory::NoMemory;
use par_frame_steps::{Act, Also, Asked, Flow, Leaves, PlaceKind};
use std::alloc::Global;

/// One operand that is taken.
pub(crate) fn one<'f>(alloc: Global, asked: Asked<'f>) -> Result<Vec<Asked<'f>>, NoMemory>
    ensures { IfOk result (λ takes. map asked_of takes.items ≡ asked_of asked.entry ∷ []) }
{
    let mut takes = Vec::new(alloc);
    takes.push(asked)?;
    Ok(takes)
}

/// Two operands that are taken, the last pushed first.
pub(crate) fn two<'f>(
    alloc: Global,
    first: Asked<'f>,
    second: Asked<'f>,
) -> Result<Vec<Asked<'f>>, NoMemory>
    ensures { IfOk result (λ takes.
        map asked_of takes.items ≡ asked_of first.entry ∷ asked_of second.entry ∷ []) }
{
    let mut takes = Vec::new(alloc);
    takes.push(first)?;
    takes.push(second)?;
    Ok(takes)
}

/// What can be run.
pub(crate) fn right<'f>(
    takes: Vec<Asked<'f>>,
    also: Also<'f>,
    leaves: Leaves<'f>,
    flow: Flow,
) -> Act<'f>
    ensures { act_of result ≡ record {
      wrong = false;
      takes = map asked_of takes.entry.items;
      also = also_of also.entry;
      leaves = leaves_of leaves.entry;
      flow = flow_of flow;
    } }
{
    Act {
        wrong: false,
        takes,
        also,
        leaves,
        flow,
    }
}

/// What takes operands, pushes one or none, and goes on behind.
pub(crate) fn plain<'f>(takes: Vec<Asked<'f>>, gives: Option<PlaceKind<'f>>) -> Act<'f>
    ensures { act_of result ≡ record {
      wrong = false;
      takes = map asked_of takes.entry.items;
      also = act.Nothing;
      leaves = act.Gives (given gives.entry);
      flow = act.Onward;
    } }
{
    right(takes, Also::Nothing, Leaves::Gives(gives), Flow::Onward)
}

/// What takes operands and branches.
pub(crate) fn branch<'f>(takes: Vec<Asked<'f>>, to: i16) -> Act<'f>
    ensures { act_of result ≡ record {
      wrong = false;
      takes = map asked_of takes.entry.items;
      also = act.Nothing;
      leaves = act.Gives [];
      flow = act.Branches to;
    } }
{
    right(
        takes,
        Also::Nothing,
        Leaves::Gives(None),
        Flow::Branches(to),
    )
}

/// What pushes a local of a kind.
pub(crate) fn load<'f>(alloc: Global, local: u8, asked: Asked<'f>) -> Act<'f>
    ensures { act_of result ≡ record {
      wrong = false;
      takes = [];
      also = act.Local local (asked_of asked.entry);
      leaves = act.Loads local;
      flow = act.Onward;
    } }
{
    let also = Also::Local(local, asked);
    right(Vec::new(alloc), also, Leaves::Loads(local), Flow::Onward)
}

/// What pops an operand of a kind into a local.
pub(crate) fn store<'f>(alloc: Global, local: u8, asked: Asked<'f>) -> Result<Act<'f>, NoMemory>
    ensures { IfOk result (λ made. act_of made ≡ record {
      wrong = false;
      takes = asked_of asked.entry ∷ [];
      also = act.InRange local;
      leaves = act.Stores local;
      flow = act.Onward;
    }) }
{
    let takes = one(alloc, asked)?;
    let leaves = Leaves::Stores(local);
    Ok(right(takes, Also::InRange(local), leaves, Flow::Onward))
}
