//! Why a source is refused, and which of several broken rules is told.

ghost use Rattle.std.specs.Prelude.{◌≡◌, [], ◌∷◌, not, None};
ghost use Rattle.par_refusals.specs.First.{comes_before, first_of, when, broken, exceeded};

use std::marker::Model;

/// A broken rule with its place. The limit and the count are 0 but for an exceeded limit, and for a
/// source that is too long, whose count is its length, or 4294967295 where it is longer.
#[derive(Clone, Copy, Debug, PartialEq, Eq)]
pub struct Refusal {
    pub rule: u16,
    pub at: u32,
    pub limit: u8,
    pub count: u32,
}

/// The rule that is broken by whatever exceeds a limit.
pub const LIMIT_RULE: u16 = 106;

/// The first of the broken rules that a pass has met so far: the one at the least place, there of
/// the least rule, and there of the least limit. Contracts see it as that refusal, if there is one.
#[derive(Drop)]
pub struct Findings {
    first: Option<Refusal>,
}

impl Model for Findings {
    ghost use Rattle.std.specs.Prelude.{Option};
    ghost use Rattle.par_refusals.specs.declared.refusal.Refusal.{Refusal};

    ghost Value = { Option Refusal };

    ghost view = { λ findings. findings.first };
}

impl Findings {
    /// Nothing is broken yet.
    pub fn new() -> Findings
        ensures { result ≡ None }
    {
        Findings { first: None }
    }

    /// Notes a broken rule. It is kept where nothing is yet, and where it comes before what is.
    #[tactic(auto, using(crate::proofs::First::notes))]
    pub fn note(&mut self, refusal: Refusal)
        ensures { self.new ≡ first_of self.old (refusal ∷ []) }
    {
        match self.first {
            None => self.first = Some(refusal),
            Some(first) => {
                if comes_before(refusal, first) {
                    self.first = Some(refusal);
                }
            }
        }
    }

    /// Notes the rule at this place, unless it holds there.
    #[tactic(auto, using(crate::proofs::First::tests))]
    pub fn expect(&mut self, holds: bool, rule: u16, at: u32)
        ensures { self.new ≡ first_of self.old (when (not holds) (broken rule at)) }
    {
        if !holds {
            self.note(Refusal {
                rule,
                at,
                limit: 0,
                count: 0,
            });
        }
    }

    /// Notes the limit with its count at this place, unless it is kept there.
    #[tactic(auto, using(crate::proofs::First::tests))]
    pub fn expect_within(&mut self, holds: bool, limit: u8, count: u32, at: u32)
        ensures { self.new ≡ first_of self.old (when (not holds) (exceeded limit count at)) }
    {
        if !holds {
            self.note(Refusal {
                rule: LIMIT_RULE,
                at,
                limit,
                count,
            });
        }
    }

    /// The first broken rule, if any was noted.
    pub fn first(&self) -> Option<Refusal>
        ensures { result ≡ self.now }
    {
        self.first
    }
}

fn comes_before(one: Refusal, other: Refusal) -> bool
    ensures { result ≡ comes_before one other }
{
    one.at < other.at
        || one.at == other.at
            && (one.rule < other.rule || one.rule == other.rule && one.limit < other.limit)
}
