//! The completions of a node, as they are found.

ghost use Rattle.std.specs.Prelude.{◌≡◌, [], OnOk};
ghost use Rattle.par_program_laws.specs.Kinds as flow;
ghost use Rattle.par_nodes.specs.Seen.{seen_absorber, seen_kind};
ghost use Rattle.par_nodes.specs.Possible.{among, apart, either};

use crate::possible::{self, is_same, takes};
use crate::rule::{Absorber, Kind};
use par_base::list::List;
use par_base::memory::NoMemory;
use std::alloc::Global;
use std::marker::Model;

/// Completions, each once. Most nodes only complete normally, which takes no memory.
#[derive(Drop)]
pub struct Kinds {
    is_normal: bool,
    others: List<Kind>,
}

impl Model for Kinds {
    ghost use Rattle.std.specs.Prelude.{List as Items};
    ghost use Rattle.par_nodes.specs.declared.rule.Kind.{Kind as Completion};
    ghost use Rattle.par_nodes.specs.Listed.{listed};

    ghost Value = { Items Completion };

    ghost view = { λ kinds. listed kinds.is_normal kinds.others };
}

// One more completion, which is held once.
fn hold(kinds: &mut List<Kind>, kind: Kind) -> Result<(), NoMemory>
    ensures { OnOk result (among kinds.new ≡ either (among kinds.old)
        (flow.same (seen_kind kind))) }
{
    if possible::among(kinds.as_slice(), kind) {
        return Ok(());
    }
    kinds.push(kind)?;
    Ok(())
}

impl Kinds {
    /// No completions.
    pub fn new(alloc: Global) -> Kinds
        ensures { result ≡ [] }
    {
        Kinds {
            is_normal: false,
            others: List::new(alloc),
        }
    }

    /// Whether the completion is one of these.
    #[tactic(auto, using(crate::proofs::Completing::listed_has))]
    pub fn has(&self, kind: Kind) -> bool
        ensures { result ≡ among self.now (seen_kind kind) }
    {
        if self.is_normal && is_same(Kind::Normal, kind) {
            return true;
        }
        possible::among(self.others.as_slice(), kind)
    }

    /// One more completion.
    pub fn add(&mut self, kind: Kind) -> Result<(), NoMemory>
        ensures { OnOk result (among self.new ≡ either (among self.old)
            (flow.same (seen_kind kind))) }
    {
        if is_same(Kind::Normal, kind) {
            self.is_normal = true;
            return Ok(());
        }
        hold(&mut self.others, kind)
    }

    // One more completion, unless it is absorbed.
    fn keep(&mut self, absorber: &Absorber, kind: Kind) -> Result<(), NoMemory>
        ensures { OnOk result (among self.new ≡ either (among self.old)
            (apart (seen_absorber absorber.now) (flow.same (seen_kind kind)))) }
    {
        if takes(absorber, kind) {
            return Ok(());
        }
        self.add(kind)
    }

    // Those of a list that are not absorbed.
    fn keep_all(&mut self, absorber: &Absorber, found: &[Kind]) -> Result<(), NoMemory>
        ensures { OnOk result (among self.new ≡ either (among self.old)
            (apart (seen_absorber absorber.now) (among found.now))) }
    {
        for kind in found {
            self.keep(absorber, *kind)?;
        }
        Ok(())
    }

    /// Those of a part that are not absorbed.
    pub fn keep_part(&mut self, absorber: &Absorber, part: &Kinds) -> Result<(), NoMemory>
        ensures { OnOk result (among self.new ≡ either (among self.old)
            (apart (seen_absorber absorber.now) (among part.now))) }
    {
        let others = part.others.as_slice();
        if !part.is_normal {
            return self.keep_all(absorber, others);
        }
        self.keep(absorber, Kind::Normal)?;
        self.keep_all(absorber, others)
    }
}
