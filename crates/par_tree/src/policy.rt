//! Policies and locks, as a program writes them.

use crate::ident::Ident;
use par_grammar::par_base::list::List;

/// A lock, with the actors of a family's member: none, one or two.
pub struct LockTree {
    pub id: Ident,
    pub actors: List<Ident>,
}

impl Drop for LockTree {
    fn drop(self) {
        let LockTree { id: _, actors: _ } = self;
    }
}

/// An actor, and the locks that have to be open for it.
pub struct ClauseTree {
    pub actor: Ident,
    pub locks: List<LockTree>,
}

impl Drop for ClauseTree {
    fn drop(self) {
        let ClauseTree { actor: _, locks: _ } = self;
    }
}

/// What a policy is joined of.
pub enum PolicyTerm {
    /// A policy that is written out, with its clauses.
    Clauses(List<ClauseTree>),
    /// A declared policy.
    Named(Ident),
    /// What all actors may see.
    Bottom,
    /// What no actor may see.
    Top,
}

impl Drop for PolicyTerm {
    fn drop(self) {
        match self {
            PolicyTerm::Clauses(_) | PolicyTerm::Named(_) | PolicyTerm::Bottom | PolicyTerm::Top =>
                {}
        }
    }
}

/// A policy: the join of its terms, from the left on.
pub struct PolicyExpr {
    pub terms: List<PolicyTerm>,
    /// The place of its first token.
    pub at: u32,
}

impl Drop for PolicyExpr {
    fn drop(self) {
        let PolicyExpr { terms: _, at: _ } = self;
    }
}
