//! Rules with one more before them.

ghost use Rattle.std.specs.Prelude.{◌≡◌, IfOk, [], ◌∷◌};
ghost use Rattle.par_program_laws.specs.Kinds as kinds;
ghost use Rattle.par_program_laws.specs.Body.{tested};
ghost use Rattle.par_program_laws.specs.Rules as plain;
ghost use Rattle.par_nodes.specs.Possible.{cans, parts_can};
ghost use Rattle.par_nodes.specs.Seen.{seen_absorber, seen_kind, seen_node, seen_origin};
ghost use Rattle.par_nodes.specs.Seen.{seen_rules, seen_worth};

use crate::draft::{Behind, Draft, Known};
use crate::kinds::Kinds;
use crate::rule::{Absorber, Kind, Locks, Node, Origin, Rules, Start, Worth};
use par_base::memory::NoMemory;
use std::alloc::Global;

/// The way that enters the node.
pub const ENTRY: Origin<'static> = Origin {
    start: Start::Entry,
    assigned: None,
    tested: None,
    raised: None,
    shut: Locks::Kept,
    opened: Locks::Kept,
};

/// The way behind the latest part.
pub const PAST: Origin<'static> = Origin {
    start: Start::After(0, Kind::Normal),
    assigned: None,
    tested: None,
    raised: None,
    shut: Locks::Kept,
    opened: Locks::Kept,
};

/// The way behind the latest part, with its value in the context.
pub const TESTED: Origin<'static> = Origin {
    start: Start::After(0, Kind::Normal),
    assigned: None,
    tested: Some(0),
    raised: None,
    shut: Locks::Kept,
    opened: Locks::Kept,
};

/// No rules.
#[tactic(auto, using(crate::proofs::Forms::forms))]
pub fn done<'a>(alloc: Global) -> Draft<'a>
    ensures { seen_rules result.rules ≡ plain.Done }
{
    Draft {
        rules: Rules::Done,
        found: Vec::new(alloc),
    }
}

// A part and the rules behind it, in boxes.
#[derive(Drop)]
struct Boxes<'a> {
    node: Box<Node<'a>>,
    more: Box<Rules<'a>>,
    found: Vec<Kinds>,
    ghost told: { cans found.items [] ≡ plain.can (seen_node node.value)
        ∷ parts_can (seen_rules more.value) },
}

#[tactic(auto, using(crate::proofs::Completing::cans_push))]
fn boxed<'a>(alloc: Global, part: Known<'a>, more: Draft<'a>) -> Result<Boxes<'a>, NoMemory>
    ensures { IfOk result (λ b. (b.node.value ≡ part.entry.node.value)
        × (b.more.value ≡ more.entry.rules)) }
{
    let Known { node, kinds } = part;
    let Behind { rules, mut found } = more.boxed(alloc)?;
    found.push(kinds)?;
    Ok(Boxes {
        node,
        more: rules,
        found,
    })
}

/// A part that the way enters.
#[tactic(auto, using(crate::proofs::Forms::forms))]
pub fn part<'a>(
    alloc: Global,
    from: Origin<'a>,
    absorber: Absorber,
    part: Known<'a>,
    more: Draft<'a>,
) -> Result<Draft<'a>, NoMemory>
    ensures { IfOk result (λ r. seen_rules r.rules ≡ plain.Part (seen_origin from.entry)
        (seen_absorber absorber) (seen_node part.entry.node.value) (seen_rules more.entry.rules)) }
{
    let Boxes { node, more, found } = boxed(alloc, part, more)?;
    Ok(Draft {
        rules: Rules::Part(from, absorber, node, more),
        found,
    })
}

/// A part whose exits go on with the next one.
pub fn then<'a>(
    alloc: Global,
    from: Origin<'a>,
    part: Known<'a>,
    more: Draft<'a>,
) -> Result<Draft<'a>, NoMemory>
    ensures { IfOk result (λ r. seen_rules r.rules ≡ plain.Part (seen_origin from.entry)
        kinds.Next (seen_node part.entry.node.value) (seen_rules more.entry.rules)) }
{
    self::part(alloc, from, Absorber::Next, part, more)
}

/// The test of a loop.
#[tactic(auto, using(crate::proofs::Forms::forms))]
pub fn test<'a>(alloc: Global, part: Known<'a>, more: Draft<'a>) -> Result<Draft<'a>, NoMemory>
    ensures { IfOk result (λ r. seen_rules r.rules
        ≡ plain.Test (seen_node part.entry.node.value) (seen_rules more.entry.rules)) }
{
    let Boxes { node, more, found } = boxed(alloc, part, more)?;
    Ok(Draft {
        rules: Rules::Test(node, more),
        found,
    })
}

/// The way flows into the head way of the loop.
#[tactic(auto, using(crate::proofs::Forms::forms))]
pub fn heads<'a>(alloc: Global, from: Origin<'a>, more: Draft<'a>) -> Result<Draft<'a>, NoMemory>
    ensures { IfOk result (λ r. seen_rules r.rules
        ≡ plain.Heads (seen_origin from.entry) (seen_rules more.entry.rules)) }
{
    let Behind { rules, found } = more.boxed(alloc)?;
    Ok(Draft {
        rules: Rules::Heads(from, rules),
        found,
    })
}

/// The way leaves the node.
#[tactic(auto, using(crate::proofs::Forms::forms))]
pub fn leaves<'a>(
    alloc: Global,
    from: Origin<'a>,
    kind: Kind,
    more: Draft<'a>,
) -> Result<Draft<'a>, NoMemory>
    ensures { IfOk result (λ r. seen_rules r.rules ≡ plain.Leaves (seen_origin from.entry)
        (seen_kind kind) (seen_rules more.entry.rules)) }
{
    let Behind { rules, found } = more.boxed(alloc)?;
    Ok(Draft {
        rules: Rules::Leaves(from, kind, rules),
        found,
    })
}

/// Environment and locks of the way go on behind the node.
pub fn goes_on<'a>(alloc: Global, from: Origin<'a>, more: Draft<'a>) -> Result<Draft<'a>, NoMemory>
    ensures { IfOk result (λ r. seen_rules r.rules ≡ plain.Leaves (seen_origin from.entry)
        kinds.Normal (seen_rules more.entry.rules)) }
{
    leaves(alloc, from, Kind::Normal, more)
}

/// The way leaves the node, and nothing comes behind that.
#[tactic(auto, using(crate::proofs::Forms::forms))]
pub fn completes<'a>(alloc: Global, from: Origin<'a>, kind: Kind) -> Draft<'a>
    ensures { seen_rules result.rules
        ≡ plain.Leaves (seen_origin from.entry) (seen_kind kind) plain.Done }
{
    Draft {
        rules: Rules::Ends(from, kind),
        found: Vec::new(alloc),
    }
}

/// The way goes on, and nothing comes behind that.
pub fn ends<'a>(alloc: Global, from: Origin<'a>) -> Draft<'a>
    ensures { seen_rules result.rules
        ≡ plain.Leaves (seen_origin from.entry) kinds.Normal plain.Done }
{
    completes(alloc, from, Kind::Normal)
}

/// The way goes on, and the value is that and nothing else.
#[tactic(auto, using(crate::proofs::Forms::forms))]
pub fn gives<'a>(alloc: Global, from: Origin<'a>, worth: Worth) -> Draft<'a>
    ensures { seen_rules result.rules ≡ plain.Leaves (seen_origin from.entry) kinds.Normal
        (plain.Worths (seen_worth worth) plain.Done) }
{
    Draft {
        rules: Rules::Gives(from, worth),
        found: Vec::new(alloc),
    }
}

/// The way goes on, and the value joins both and nothing else.
#[tactic(auto, using(crate::proofs::Forms::forms))]
pub fn joins<'a>(alloc: Global, from: Origin<'a>, one: Worth, other: Worth) -> Draft<'a>
    ensures { seen_rules result.rules ≡ plain.Leaves (seen_origin from.entry) kinds.Normal
        (plain.Worths (seen_worth one) (plain.Worths (seen_worth other) plain.Done)) }
{
    Draft {
        rules: Rules::Joins(from, one, other),
        found: Vec::new(alloc),
    }
}

/// The value is at least that.
#[tactic(auto, using(crate::proofs::Forms::forms))]
pub fn worths<'a>(alloc: Global, worth: Worth, more: Draft<'a>) -> Result<Draft<'a>, NoMemory>
    ensures { IfOk result (λ r. seen_rules r.rules
        ≡ plain.Worths (seen_worth worth) (seen_rules more.entry.rules)) }
{
    let Behind { rules, found } = more.boxed(alloc)?;
    Ok(Draft {
        rules: Rules::Worths(worth, rules),
        found,
    })
}
