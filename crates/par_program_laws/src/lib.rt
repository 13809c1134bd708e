//! What later layers ask of a typed program: of its bodies, of what flows in them, and of its
//! table.
//!
//! The typed body of a method: each form asks what it needs of its numbers, its types and its
//! locals, all in one place, for code and for runs.
//!
//! Its flow: at each point the context, the policies of the locals and the open locks, and how the
//! point is left. The rules are said once, over any lattice of policies: policies by who sees them,
//! and sets of their numbers, which stand for joins.
//!
//! The table: names differ, so that a name stands for one thing; the births of a class are seen by
//! all who see a field of its objects; the policies of the table are shared by what is written
//! alike, and those of inferred fields are their own.
//!
//! The crate has definitions and their laws alone. It knows no source: which programs are such, and
//! how facts are found, is no matter of this crate.
#![tactic(auto)]

pub mod body_laws;
pub mod table_laws;

pub use par_typed::{par_base, par_policy};
