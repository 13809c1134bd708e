//! A rule that is asked of facts.

use par_nodes::rule::Kind;
use par_policy::Lockset;
use par_typed::expr::TExpr;

/// Locks by their numbers.
#[derive(Clone, Copy)]
pub enum Locks<'a> {
    Nothing,
    One(u16),
    All(&'a Lockset),
}

/// How the spot is reached, at its node.
#[derive(Clone, Copy)]
pub enum Way<'a> {
    /// The node is entered.
    Entry,
    /// Behind the only part, which has this point.
    Behind(u32),
    /// Behind a value and an object before it, with the value of the object in the context unless
    /// it is never null.
    Written(u32, u32, bool),
    /// Behind the arguments of a call, with the value of the receiver in the context if there is
    /// one.
    Called(Option<u32>, &'a [TExpr]),
    /// The node is left.
    Left(Kind),
}

/// A condition where a spot is reached. Values are those of the expressions at their points, and
/// policies have their numbers.
#[derive(Clone, Copy)]
pub enum Condition<'a> {
    /// These locks are open.
    Open(Locks<'a>),
    /// The value, specialised to the open locks, is below the policy.
    Released(u32, u16),
    /// The value is below the policy.
    Worth(u32, u16),
    /// The value joined with the context is below the policy.
    Joined(u32, u16),
    /// The context is below the policy.
    Context(u16),
    /// The write effect is below the policy.
    Effect(u16, u16),
    /// The first locks are among the second.
    Among(Locks<'a>, Locks<'a>),
    /// The spot is not reached.
    Never,
}

/// A rule that is broken at the place where its condition does not hold.
#[derive(Clone, Copy)]
pub struct Check<'a> {
    pub rule: u16,
    pub at: u32,
    pub point: u32,
    pub way: Way<'a>,
    pub condition: Condition<'a>,
}
