//! Nodes and their rules.

use par_base::list::List;
use par_program_laws::par_policy::Lockset;

/// How an expression or a statement completes.
#[derive(Clone, Copy)]
pub enum Kind {
    Normal,
    Return,
    Break,
    Continue,
    /// An exception of the class.
    Throw(u16),
}

/// Where a way comes from: it enters the node, or leaves a part. Parts are numbered backwards, and
/// the latest is 0.
#[derive(Clone, Copy)]
pub enum Start {
    Entry,
    After(usize, Kind),
}

/// Locks that a way opens or shuts, if it does.
#[derive(Clone, Copy)]
pub enum Locks<'a> {
    Kept,
    Nothing,
    One(u16),
    All(&'a Lockset),
}

/// A way at the node, and what becomes of it, in this order.
#[derive(Clone, Copy)]
pub struct Origin<'a> {
    pub start: Start,
    /// The value of a part goes into a local.
    pub assigned: Option<(u16, usize)>,
    /// The value of a part joins the context.
    pub tested: Option<usize>,
    /// The policy of that number joins the context.
    pub raised: Option<u16>,
    pub shut: Locks<'a>,
    pub opened: Locks<'a>,
}

/// A part of a node's value: the policy of that number, that of a local, or the value of a part.
#[derive(Clone, Copy)]
pub enum Worth {
    Given(u16),
    Held(u16),
    Value(usize),
}

/// What takes exits of a part for itself: the next part, the loop around, or catches of these
/// classes.
#[derive(Drop)]
pub enum Absorber {
    Next,
    Loop,
    Catches(List<u16>),
}

/// A node of the tree, its point and its rules.
#[derive(Drop)]
#[cycle(rules)]
pub struct Node<'a> {
    pub point: u32,
    pub rules: Rules<'a>,
}

/// What the flow of a node obeys, part by part in the order of evaluation.
#[derive(Drop)]
#[cycle(rules)]
pub enum Rules<'a> {
    Done,
    /// The way leaves the node, and that is all.
    Ends(Origin<'a>, Kind),
    /// The way goes on behind the node, whose value is that, and that is all.
    Gives(Origin<'a>, Worth),
    /// The same with a value that joins both.
    Joins(Origin<'a>, Worth, Worth),
    Part(Origin<'a>, Absorber, Box<Node<'a>>, Box<Rules<'a>>),
    Test(Box<Node<'a>>, Box<Rules<'a>>),
    Heads(Origin<'a>, Box<Rules<'a>>),
    Leaves(Origin<'a>, Kind, Box<Rules<'a>>),
    Worths(Worth, Box<Rules<'a>>),
}
