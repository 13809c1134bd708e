//! The facts of a body, found in rounds.
//!
//! A pass goes over the whole typed body once, from the head ways of its loops as they stand, and
//! raises the heads of the next pass. The first one keeps rows, which are the facts where it raises
//! no head. Behind it only heads last from round to round. Where a round raises none, one more from
//! the same heads gives the rows. Most parts are passed where they stand in the typed tree. The
//! rules of par_nodes are made for what is rare, and for `try`, whose catches are entered from what
//! its block can throw.
#![tactic(auto)]

mod body;
mod expr;
mod next;
mod notes;
mod pass;
mod rounds;
mod stmt;

pub use body::{body_at, rows_of};
pub use par_ways::exits::Exit;
pub use par_ways::fact::{Fact, entry_at, exit_at, value_at};
pub use par_ways::way::SharedWay;
pub use rounds::settle;
