//! The limits that are counted.

ghost use Rattle.std.specs.Prelude.{◌≡◌};
ghost use Rattle.par_refusals.specs.First.{first_of};
ghost use Rattle.par_faults.specs.Limits.{over};

use par_refusals::refusal::Findings;

/// A limit: the number that it is told by, and the most that there may be.
#[derive(Clone, Copy)]
pub struct Limit {
    pub number: u8,
    pub most: u32,
}

/// The declared actors.
pub const ACTORS: Limit = Limit {
    number: 1,
    most: 16,
};

/// The locks, of which a family has one for each choice of its actors.
pub const LOCKS: Limit = Limit {
    number: 2,
    most: 256,
};

/// The declared classes, exception classes among them.
pub const CLASSES: Limit = Limit {
    number: 6,
    most: 128,
};

/// The fields and channels of a class.
pub const MEMBERS: Limit = Limit {
    number: 7,
    most: 256,
};

pub const METHODS: Limit = Limit {
    number: 8,
    most: 128,
};

/// The nodes of a method.
pub const NODES: Limit = Limit {
    number: 9,
    most: 2_000,
};

/// The nodes of a class: the sum over its methods.
pub const CLASS_NODES: Limit = Limit {
    number: 10,
    most: 8_000,
};

pub const PARAMS: Limit = Limit {
    number: 11,
    most: 16,
};

/// The locals that a method declares.
pub const LOCALS: Limit = Limit {
    number: 12,
    most: 200,
};

/// Notes the limit at this place where the count is over it.
pub fn expect_within(limit: Limit, count: u32, at: u32, findings: &mut Findings)
    ensures { findings.new ≡ first_of findings.old (over limit count at) }
{
    findings.expect_within(count <= limit.most, limit.number, count, at);
}
