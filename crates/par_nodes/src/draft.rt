//! Nodes and rules together with their completions, which are known as soon as they are made.

ghost use Rattle.std.specs.Prelude.{◌≡◌, [], IfOk};
ghost use Rattle.par_program_laws.specs.Rules as plain;
ghost use Rattle.par_nodes.specs.Seen.{seen_node, seen_rules};
ghost use Rattle.par_nodes.specs.Possible.{among, cans, parts_can};

use crate::kinds::Kinds;
use crate::possible::completions;
use crate::rule::{Node, Rules};
use par_base::memory::NoMemory;
use std::alloc::Global;

/// A node with the completions that are possible where it is reached. It stands in the box in which
/// it becomes a part.
#[derive(Drop)]
pub struct Known<'a> {
    pub node: Box<Node<'a>>,
    pub kinds: Kinds,
    ghost known: { among kinds ≡ plain.can (seen_node node.value) },
}

/// Rules with the completions of their parts, of which the first comes last.
pub struct Draft<'a> {
    pub rules: Rules<'a>,
    pub found: Vec<Kinds>,
    ghost told: { cans found.items [] ≡ parts_can (seen_rules rules) },
}

// By hand: each function that owns a draft then drops it by one call.
impl<'a> Drop for Draft<'a> {
    fn drop(self) {
        let Draft { rules: _, found: _ } = self;
    }
}

/// Rules in the box in which they stand behind another rule, with the completions of their parts.
#[derive(Drop)]
pub struct Behind<'a> {
    pub rules: Box<Rules<'a>>,
    pub found: Vec<Kinds>,
    ghost told: { cans found.items [] ≡ parts_can (seen_rules rules.value) },
}

impl<'a> Draft<'a> {
    /// The rules in a box.
    pub fn boxed(self, alloc: Global) -> Result<Behind<'a>, NoMemory>
        ensures { IfOk result (λ b. b.rules.value ≡ self.entry.rules) }
    {
        let Draft { rules, found } = self;
        let rules = Box::new(alloc, rules)?;
        Ok(Behind { rules, found })
    }

    /// The node of these rules.
    #[tactic(auto, using(crate::proofs::Completing::node_step))]
    pub fn node(self, alloc: Global, point: u32) -> Result<Known<'a>, NoMemory>
        ensures { IfOk result (λ k. seen_node k.node.value
            ≡ plain.node point (seen_rules self.entry.rules)) }
    {
        let Draft { rules, found } = self;
        let kinds = completions(alloc, &rules, found)?;
        let node = Box::new(alloc, Node { point, rules })?;
        Ok(Known { node, kinds })
    }
}
