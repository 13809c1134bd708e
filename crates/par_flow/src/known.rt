//! What is asked of the facts of a body.

ghost use Rattle.std.specs.Prelude.{◌≡◌};
ghost use Rattle.par_bits.specs.Sets.{has};
ghost use Rattle.par_program_laws.specs.Lattice.{numbers};
ghost use Rattle.par_program_laws.specs.Facts.{Facts};
ghost use Rattle.par_nodes.specs.Seen.{seen_kind};
ghost use Rattle.par_flow.specs.Standing.{standing, stands};

use par_atoms::Atoms;
use par_bits::Bits;
use par_nodes::rule::Kind;

/// What is known where a spot is reached: who may learn of it, and locks that are open.
#[derive(Clone, Copy)]
pub struct Known {
    pub context: Atoms,
    pub locks: Bits<4>,
}

/// The facts of a body, by the points of its nodes.
pub trait KnownFacts {
    ghost facts: { Self → Facts numbers };

    /// Where the node is entered, if it is.
    fn entry(&self, point: u32) -> Option<Known>
        ensures { stands result ≡ standing (facts self.now point).entry };

    /// Where it is left in this way, if it is.
    fn exit(&self, point: u32, kind: Kind) -> Option<Known>
        ensures { stands result ≡ standing ((facts self.now point).exit (seen_kind kind)) };

    /// The value of the expression.
    fn value(&self, point: u32) -> Atoms
        ensures { has result ≡ (facts self.now point).value };
}
