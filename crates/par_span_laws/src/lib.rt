//! The places in a tree lie within its source.
//!
//! A refusal tells a place of the tree by its line and its column, which only a place within the
//! source has. The crate says of a tree that all its places lie within a bound, and has the law
//! that those of a source's tree lie within the source. It reads nothing and has no code.
#![tactic(auto)]

ghost use Rattle.par_span_laws.specs.Law.{TreesLieWithin};

/// The places in the tree of a source lie within the source.
pub fn trees_lie_within()
    ensures { TreesLieWithin }
{}
