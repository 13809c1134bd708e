//! The ways at a node: what enters it and leaves its parts, as a pass keeps and changes it.
//!
//! Many ways of a body have the same policies of locals, so ways that were made of each other share
//! one list of them. What is known of a node is its entry, its value and its exits, one way a kind
//! of completion; the facts of a body are a list of such by points. What a node makes of a way is
//! said by the rules of par_nodes, and done here step by step. No order of parts is known here, and
//! no loop: passes and their rounds stand above.
#![tactic(auto)]

pub mod changes;
mod env;
pub mod exits;
pub mod fact;
pub mod first;
pub mod way;
pub mod ways;
